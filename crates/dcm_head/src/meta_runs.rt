// Runs of bytes in the head of a file that lead to nothing by themselves (PS3.10 7.1).
ghost use Rattle.std.specs.Prelude.{◌≡◌, ◌≤◌, ◌<◌, None, take, length, fold};
ghost use Rattle.dcm_head.specs.MetaReading.{meta_step};
ghost use Rattle.dcm_head.specs.MetaRuns.{Idle, holding};

use crate::group::{Place, place_of};
use crate::meta::{GROUP_AT, Meta};

// Nearly all bytes of a head change nothing but what is held: before the group only the 132nd is looked at, with which
// the prefix is whole, and in the group only the last byte of an element moves the place. The bytes before such a byte
// are held by one copy. By `step` each of them would cost a look at the element's head.
impl Meta {
    /// Reads bytes as long as there is no end.
    pub(crate) fn go_over(&mut self, piece: &[u8])
        ensures { self.new ≡ fold meta_step self.old piece.now }
    {
        let mut rest = piece;
        while !rest.is_empty() && self.end().is_none() {
            let n = self.read_some(rest);
            let (_, after) = rest.split_at(n);
            rest = after;
        }
    }

    /// Reads a beginning of the bytes, and answers how many.
    fn read_some(&mut self, rest: &[u8]) -> usize
        requires going { self.old.end ≡ None }
        requires some { 0 < length rest.now }
        ensures some { 0 < result }
        ensures within { result ≤ length rest.now }
        ensures read { self.new ≡ fold meta_step self.old (take result rest.now) }
    {
        let n = self.idle(rest);
        if n == 0 {
            self.step(rest[0]);
            return 1;
        }
        let (run, _) = rest.split_at(n);
        self.hold(run);
        n
    }

    /// How many bytes at the front of these lead to nothing by themselves; 0 where that is not known, as within an
    /// element of which another piece has the front.
    fn idle(&self, rest: &[u8]) -> usize
        requires going { self.now.end ≡ None }
        ensures within { result ≤ length rest.now }
        ensures idle { Idle self.now (take result rest.now) }
    {
        let held = self.bytes.len();
        if held < GROUP_AT {
            return rest.len().min(GROUP_AT - 1 - held);
        }
        if held != self.place {
            return 0;
        }
        match place_of(self.place - GROUP_AT, rest) {
            Place::Element(_, _, head, size) => head + size - 1,
            Place::End | Place::TooFew | Place::Bad(_) => 0,
        }
    }

    /// Holds bytes that lead to nothing by themselves. They always fit.
    fn hold(&mut self, run: &[u8])
        requires going { self.old.end ≡ None }
        requires idle { Idle self.old run.now }
        ensures { self.new ≡ holding self.old run.now }
    {
        let _ = self.bytes.try_extend_from_slice(run);
    }
}
