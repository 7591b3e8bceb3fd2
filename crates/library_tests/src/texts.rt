// Texts in pieces, cut at each byte; all characters of each set.

mod characters;
mod digests;
mod rows;
mod tests;
