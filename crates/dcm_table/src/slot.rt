// The room of a column's cell.
ghost use Rattle.std.specs.Prelude.{◌≡◌, ◌≤◌, vec_len};

use crate::cell::Progress;
use dcm_base::Tag;
use dcm_text::Sets;

/// A column's tag, its cell, and what is in force where its first element stands. The value is the first `size` bytes
/// of the room.
#[derive(Drop)]
pub struct Slot {
    pub tag: Tag,
    pub progress: Progress,
    pub room: Vec<u8>,
    pub size: usize,
    pub sets: Sets,
    ghost full: { vec_len room ≡ 16384 },
    ghost within: { size ≤ 16384 },
}
