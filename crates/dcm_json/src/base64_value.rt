//! Bytes in base64 (RFC 4648, section 4) that come in pieces.
ghost use Rattle.std.specs.Prelude.{◌≡◌, ◌≤◌, ◌<◌, ◌%◌, ◌++◌, [], ℕ, List, length, OnOk};
ghost use Rattle.base64.specs.Engines.{standard};
ghost use Rattle.base64.specs.GeneralPurpose.{encode_of};
ghost use Rattle.dcm_devices.specs.Writing.{Wrote};
ghost use Rattle.dcm_json.specs.Base64State as spec;

use base64::engine::general_purpose::STANDARD;
use dcm_base::{DeviceOut, Watched, WriteFailed, put_all};
use dcm_value::UnitBuffer;
use std::marker::Model;

/// The bytes that four symbols are.
const GROUP: usize = 3;

/// The bytes that are encoded together, whole groups of them, and their symbols.
const BLOCK: usize = 768;

const SYMBOLS: usize = 1024;

/// Writes a block of bytes in base64.
fn put_block<W: DeviceOut>(bytes: &[u8], out: &mut Watched<W>) -> Result<(), WriteFailed>
    requires { length bytes.now ≤ 768 }
    ensures { Wrote W.DeviceOut out.old out.new (encode_of standard bytes.now) result }
{
    let mut symbols = [0; SYMBOLS];
    match STANDARD.encode_slice(bytes, &mut symbols) {
        Ok(size) => {
            let (text, _) = symbols.split_at(size);
            put_all(out, text)
        }
        Err(_) => unreachable!(),
    }
}

/// Writes whole groups of three bytes in base64, block by block.
fn put_groups<W: DeviceOut>(groups: &[u8], out: &mut Watched<W>) -> Result<(), WriteFailed>
    requires { length groups.now % 3 ≡ 0 }
    ensures { Wrote W.DeviceOut out.old out.new (encode_of standard groups.now) result }
{
    let mut rest = groups;
    while !rest.is_empty() {
        let (block, after) = rest.split_at(rest.len().min(BLOCK));
        put_block(block, out)?;
        rest = after;
    }
    Ok(())
}

/// Writes whole groups of three bytes in base64, and others behind them.
fn put_both<W: DeviceOut>(
    first: &[u8],
    others: &[u8],
    out: &mut Watched<W>,
) -> Result<(), WriteFailed>
    requires first { length first.now % 3 ≡ 0 }
    requires others { length others.now % 3 ≡ 0 }
    ensures { Wrote W.DeviceOut out.old out.new (encode_of standard (first.now ++ others.now)) result }
{
    put_groups(first, out)?;
    put_groups(others, out)
}

/// Bytes in base64 with padding, written as they come in any pieces. It holds at most two bytes, which make no whole
/// group of three.
#[derive(Drop)]
pub struct Base64Value {
    held: UnitBuffer<GROUP>,
    ghost few: { length held.bytes.items < 3 },
}

impl Model for Base64Value {
    ghost Value = { List ℕ };

    ghost view = { λ b. b.held.bytes.items };
}

impl Base64Value {
    /// Before the first byte.
    pub fn new() -> Base64Value
        ensures { result ≡ [] }
    {
        Base64Value {
            held: UnitBuffer::new(),
        }
    }

    /// Writes the symbols of the groups that bytes more make whole. Fails where the writer fails, which has then taken
    /// a beginning.
    pub fn feed<W: DeviceOut>(
        &mut self,
        bytes: &[u8],
        out: &mut Watched<W>,
    ) -> Result<(), WriteFailed>
        ensures state { OnOk result (self.new ≡ spec.fed self.old bytes.now) }
        ensures wrote { Wrote W.DeviceOut out.old out.new (spec.feeds self.old bytes.now) result }
    {
        let groups = self.held.feed(GROUP, bytes);
        put_both(groups.first.as_slice(), groups.others, out)?;
        Ok(())
    }

    /// Writes the symbols of the bytes behind the last whole group, with padding. Fails where the writer fails, which
    /// has then taken a beginning.
    pub fn finish<W: DeviceOut>(self, out: &mut Watched<W>) -> Result<(), WriteFailed>
        ensures { Wrote W.DeviceOut out.old out.new (spec.finishes self) result }
    {
        put_block(self.held.as_slice(), out)
    }
}
