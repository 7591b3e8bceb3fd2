//! Tests of the whole program: of dumps and tables of several files, of names among words and in lists, of trees, and of
//! what names an instance.
#![tactic(auto)]

#[cfg(test)]
mod dumps;
#[cfg(test)]
mod instances;
#[cfg(test)]
mod names;
#[cfg(test)]
mod runs;
#[cfg(test)]
mod tables;
#[cfg(test)]
mod trees;
