// What a command line asks of an open data set.
ghost use Rattle.std.specs.Prelude.{◌≤◌, length};

use dcm_edits::Edit;
use std::alloc::Allocator;

/// The edits that ask something of an open data set, which lies within so many items: those that the mask has.
#[derive(Drop)]
pub struct Asked<'e, A: Allocator> {
    pub edits: &'e [Edit<A>],
    pub depth: usize,
    pub mask: u64,
    ghost few: { length edits.now ≤ 64 },
    ghost within: { depth ≤ 64 },
}
