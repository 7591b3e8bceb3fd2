// How many names were done, and what became of them.
ghost use Rattle.std.specs.Prelude.{◌≡◌, ◌≤◌, length};
ghost use Rattle.dcm_devices.specs.Writing.{Wrote};
ghost use Rattle.dcm_trees.specs.Tally as spec;

use crate::fate::Fate;
use dcm_base::{DeviceOut, Watched, WriteFailed};
use dcm_names::put_at_once;
use itoa::Buffer;

/// After so many rows the counts are shown.
const EVERY: u64 = 100;

/// How many names have a row, and what became of them. A count that no run reaches stays.
#[derive(Clone, Copy, Debug, PartialEq, Eq)]
pub struct Tally {
    pub written: u64,
    pub there: u64,
    pub not_done: u64,
}

/// A count and one more.
fn next(count: u64) -> u64
    ensures { result ≡ spec.next count }
{
    count.saturating_add(1)
}

impl Tally {
    /// Of no name.
    pub fn new() -> Tally
        ensures { result ≡ spec.none }
    {
        Tally {
            written: 0,
            there: 0,
            not_done: 0,
        }
    }

    /// With a name more, of which this became.
    pub fn with(self, fate: Fate) -> Tally
        ensures { result ≡ spec.with self fate }
    {
        if fate.is_written() {
            return Tally {
                written: next(self.written),
                ..self
            };
        }
        if fate.was_done() {
            return Tally {
                there: next(self.there),
                ..self
            };
        }
        Tally {
            not_done: next(self.not_done),
            ..self
        }
    }

    /// How many names there are.
    pub fn files(self) -> u64
        ensures { result ≡ spec.files self }
    {
        self.written
            .saturating_add(self.there)
            .saturating_add(self.not_done)
    }

    /// Whether the counts are shown after the last name.
    pub fn is_shown(self) -> bool
        ensures { result ≡ spec.is_shown self }
    {
        self.files() % EVERY == 0
    }
}

/// Writes the counts, and this behind them. Fails where the writer fails.
pub fn put_counts<E: DeviceOut>(
    tally: Tally,
    end: &[u8],
    errors: &mut Watched<E>,
) -> Result<(), WriteFailed>
    requires { length end.now ≤ 1 }
    ensures { Wrote E.DeviceOut errors.old errors.new (spec.counts tally end.now) result }
{
    let mut files = Buffer::new();
    let mut written = Buffer::new();
    let mut there = Buffer::new();
    let mut not_done = Buffer::new();
    put_at_once(
        &[
            files.format(tally.files()).as_bytes(),
            b" files, ".as_slice(),
            written.format(tally.written).as_bytes(),
            b" written, ".as_slice(),
            there.format(tally.there).as_bytes(),
            b" there, ".as_slice(),
            not_done.format(tally.not_done).as_bytes(),
            b" not done".as_slice(),
            end,
        ],
        errors,
    )
}
