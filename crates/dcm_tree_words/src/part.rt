// A part of the names of a run.
ghost use Rattle.std.specs.Prelude.{◌≤◌};

/// Of so many parts of the names of a run, the one with this number. Parts are counted from 1.
#[derive(Clone, Copy, Debug, PartialEq, Eq)]
pub struct Part {
    pub number: u16,
    pub count: u16,
    ghost within: { (1 ≤ number) × (number ≤ count) × (count ≤ 9999) },
}

impl Part {
    /// All names.
    pub const WHOLE: Part = Part {
        number: 1,
        count: 1,
    };
}
