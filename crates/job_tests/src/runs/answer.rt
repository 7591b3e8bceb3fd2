// What runs answer, and what is wanted of them.
use std::test::Fail;

/// What a run answers.
#[derive(Drop)]
pub struct Answer {
    /// The exit status.
    pub status: u8,
    /// The bytes of its output.
    pub output: Vec<u8>,
    /// The lines on standard error.
    pub told: Vec<u8>,
}

/// What a run is to answer.
#[derive(Clone, Copy)]
pub struct Wanted<'a> {
    /// The exit status.
    pub status: u8,
    /// The bytes of its output.
    pub output: &'a [u8],
    /// The lines on standard error.
    pub told: &'a [u8],
}

/// Expects that something is so in the run with this name.
pub fn holds(name: &str, what: &str, is_so: bool) -> Result<(), Fail> {
    if is_so {
        Ok(())
    } else {
        Err(Fail::new(format_args!("{name}: {what}")))
    }
}

/// Expects a status, an output and lines on standard error.
pub fn expect_answer(name: &str, answer: &Answer, wanted: Wanted<'_>) -> Result<(), Fail> {
    holds(name, "status", answer.status == wanted.status)?;
    holds(name, "output", answer.output.as_slice() == wanted.output)?;
    holds(name, "lines", answer.told.as_slice() == wanted.told)
}
