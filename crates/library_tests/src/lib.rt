//! Tests of the libraries one by one: heads, values, data sets, files that are built from lines, edits, words, and texts
//! in pieces, cut at each byte.
#![tactic(auto)]

#[cfg(test)]
mod tests;
#[cfg(test)]
mod texts;
