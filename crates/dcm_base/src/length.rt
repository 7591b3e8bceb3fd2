/// The length that a head declares: a number of bytes, or undefined, up to a delimiter (PS3.5 7.1.1, 7.5).
#[derive(Clone, Copy, Debug, Default, PartialEq, Eq)]
pub enum Length {
    Known(u32),
    #[default]
    Undefined,
}
