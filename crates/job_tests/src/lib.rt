//! Tests of the jobs of one file: their answers on files and on words that are refused, and where something is missing:
//! devices that fail or are not opened, the end of an input, and room.
#![tactic(auto)]

#[cfg(test)]
mod answers;
#[cfg(test)]
mod missing;
#[cfg(test)]
mod runs;
