mod data_sets;
mod decoded_dumps;
mod dictionaries;
mod edits;
mod examples;
mod failures;
mod files;
mod heads;
mod lines;
mod memory;
mod texts;
mod tree_words;
mod values;
mod words;

use std::process::Abort;
use std::test::Fail;

/// Expects that something is so of a line. An assertion with a message at each place takes a proof longer.
fn holds(rt: &impl Abort, line: &str, is_so: bool) {
    assert!(rt; is_so, "{line}");
}

/// The words of a command line, which spaces part.
fn words_of(rt: HostRuntime, line: &'static str) -> Result<Vec<&'static [u8]>, Fail> {
    let mut words = Vec::new(rt.alloc());
    for word in line.split(' ') {
        words.push(word.as_bytes())?;
    }
    Ok(words)
}
