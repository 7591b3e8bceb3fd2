// A value on its way from one syntax to another (PS3.5 7.3, 8.1).
ghost use Rattle.std.specs.Prelude.{◌≡◌, ◌<◌, ◌≤◌, ◌+◌, ◌-◌, ◌==◌, ◌++◌, option_to_list, if◌then◌else◌, OnOk, []};
ghost use Rattle.std.specs.Prelude.{length};
ghost use Rattle.dcm_devices.specs.Writing.{Wrote};
ghost use Rattle.dcm_base.specs.Conversion.Recode.{too_long as is_long_value};
ghost use Rattle.dcm_base.specs.Tables.Representation.{unit};
ghost use Rattle.dcm_base.specs.Tree.Value.{turned};
ghost use Rattle.dcm_sinks.specs.EncodeSink as spec;
ghost use Rattle.dcm_sinks.specs.Wholes.{copied_whole};

use dcm_base::{DeviceOut, Syntax, Vr, Watched, WriteFailed, put_all};
use dcm_value::{UnitBuffer, swap};

/// The bytes of the longest unit.
const LONGEST_UNIT: usize = 8;

/// The bytes of the longest value whose length has two bytes.
const LONGEST_SHORT: u32 = 65534;

/// The bytes that are turned round at a time.
const BLOCK: usize = 8192;

/// The bytes of a small value, as one or two numbers are. With 64, which is eight of the longest numbers, its block is
/// blanked in four stores of sixteen.
const SMALL_BLOCK: usize = 64;

/// The pad byte of a fragment (PS3.5 A.4).
const FRAGMENT_PAD: u8 = 0;

/// A value on its way from one syntax to another. It goes out in whole units.
#[derive(Drop)]
pub struct Copier {
    vr: Vr,
    is_turned: bool,
    held: UnitBuffer<LONGEST_UNIT>,
    pad: Option<u8>,
    ghost short: { length held.bytes.items < unit vr },
}

/// Whether a value of this size, with its pad byte, is too long for a length of two bytes.
pub fn is_too_long(target: Syntax, vr: Vr, size: u32) -> bool
    ensures { result ≡ is_long_value target vr size }
{
    !matches!(target, Syntax::Implicit(_)) && !vr.is_long() && size > LONGEST_SHORT
}

/// Whether the units of a value are turned round: what is too long is written in little endian order.
fn is_turned(source: Syntax, target: Syntax, vr: Vr, size: u32) -> bool
    ensures { result ≡ spec.turns source target vr size }
{
    let ends_big = target.is_big() && !is_too_long(target, vr, size);
    if source.is_big() { !ends_big } else { ends_big }
}

/// The pad byte that makes an odd value even.
fn padding(size: u32, pad: u8) -> Option<u8>
    ensures { spec.padding size pad ≡ option_to_list result }
{
    if size % 2 == 0 { None } else { Some(pad) }
}

/// Writes bytes with each whole unit turned round. Nearly all values that are turned are a number or two. A block has
/// to be blanked before it is filled, which for a large one takes far longer than to turn these, so they have a small
/// one.
#[inline(never)]
fn put_turned<W: DeviceOut>(vr: Vr, bytes: &[u8], out: &mut Watched<W>) -> Result<(), WriteFailed>
    ensures { Wrote W.DeviceOut out.old out.new (turned (unit vr) bytes.now) result }
{
    if vr.unit() == 1 || bytes.is_empty() {
        return put_all(out, bytes);
    }
    if bytes.len() <= SMALL_BLOCK {
        return put_block(vr, bytes, &mut [0u8; SMALL_BLOCK], out);
    }
    put_blocks(vr, bytes, out)
}

/// Writes bytes with each whole unit turned round, a large block at a time.
#[inline(never)]
fn put_blocks<W: DeviceOut>(vr: Vr, bytes: &[u8], out: &mut Watched<W>) -> Result<(), WriteFailed>
    ensures { Wrote W.DeviceOut out.old out.new (turned (unit vr) bytes.now) result }
{
    let mut block = [0u8; BLOCK];
    let mut rest = bytes;
    while !rest.is_empty() {
        let (part, after) = rest.split_at(rest.len().min(BLOCK));
        put_block(vr, part, &mut block, out)?;
        rest = after;
    }
    Ok(())
}

/// Writes bytes that a block holds, with each whole unit turned round.
fn put_block<const N: usize, W: DeviceOut>(
    vr: Vr,
    bytes: &[u8],
    block: &mut [u8; N],
    out: &mut Watched<W>,
) -> Result<(), WriteFailed>
    requires { length bytes.now ≤ N }
    ensures { Wrote W.DeviceOut out.old out.new (turned (unit vr) bytes.now) result }
{
    let block = &mut block[..bytes.len()];
    block.copy_from_slice(bytes);
    swap(vr.unit(), block);
    put_all(out, block)
}

/// Writes bytes of whole units, each turned round where that is asked.
#[inline(always)]
fn put_ordered<W: DeviceOut>(
    is_turned: bool,
    vr: Vr,
    bytes: &[u8],
    out: &mut Watched<W>,
) -> Result<(), WriteFailed>
    ensures { Wrote W.DeviceOut out.old out.new (if is_turned then turned (unit vr) bytes.now else bytes.now) result }
{
    if is_turned {
        put_turned(vr, bytes, out)
    } else {
        put_all(out, bytes)
    }
}

/// Writes a pad byte, where there is one.
#[inline(always)]
fn put_padding<W: DeviceOut>(pad: Option<u8>, out: &mut Watched<W>) -> Result<(), WriteFailed>
    ensures { Wrote W.DeviceOut out.old out.new (option_to_list pad) result }
{
    match pad {
        Some(pad) => put_all(out, &[pad]),
        None => Ok(()),
    }
}

/// Writes a value of this size from its first byte to its pad byte. A copier holds what is cut of a unit until the next
/// bytes come; here all are there, and nearly every value is of whole units, so that none is made.
#[inline(always)]
pub fn put_value<W: DeviceOut>(
    out: &mut Watched<W>,
    source: Syntax,
    target: Syntax,
    vr: Vr,
    size: u32,
    value: &[u8],
) -> Result<(), WriteFailed>
    requires { size ≡ length value.now }
    ensures { Wrote W.DeviceOut out.old out.new (copied_whole (spec.leaf_copy source target vr size) value.now) result }
{
    if value.len() % vr.unit() != 0 {
        return put_cut_value(out, source, target, vr, size, value);
    }
    put_ordered(is_turned(source, target, vr, size), vr, value, out)?;
    put_padding(padding(size, vr.pad()), out)
}

/// Writes a value whose last unit is cut.
#[inline(never)]
fn put_cut_value<W: DeviceOut>(
    out: &mut Watched<W>,
    source: Syntax,
    target: Syntax,
    vr: Vr,
    size: u32,
    value: &[u8],
) -> Result<(), WriteFailed>
    ensures { Wrote W.DeviceOut out.old out.new (copied_whole (spec.leaf_copy source target vr size) value.now) result }
{
    let mut copier = Copier::of_leaf(source, target, vr, size);
    copier.feed(value, out)?;
    copier.close(out)
}

impl Copier {
    ghost use Rattle.dcm_sinks.specs.Copier.{Copied, copying};

    /// The value of an element of this size.
    pub fn of_leaf(source: Syntax, target: Syntax, vr: Vr, size: u32) -> Copier
        ensures { copying result ≡ spec.leaf_copy source target vr size }
    {
        Copier {
            vr,
            is_turned: is_turned(source, target, vr, size),
            held: UnitBuffer::new(),
            pad: padding(size, vr.pad()),
        }
    }

    /// A fragment of this size.
    pub fn of_fragment(size: u32) -> Copier
        ensures { copying result ≡ spec.fragment_copy size }
    {
        Copier {
            vr: Vr::OB,
            is_turned: false,
            held: UnitBuffer::new(),
            pad: padding(size, FRAGMENT_PAD),
        }
    }

    /// Takes bytes of the value in any cut, and writes the units that are whole. Nearly all bytes come in whole units,
    /// and then none has to be held. Fails where the writer fails, which has then taken a beginning of them.
    pub fn feed<W: DeviceOut>(
        &mut self,
        bytes: &[u8],
        out: &mut Watched<W>,
    ) -> Result<(), WriteFailed>
        ensures { Copied W.DeviceOut out.old out.new self.old self.new bytes.now result }
    {
        if self.held.as_slice().is_empty() && bytes.len() % self.vr.unit() == 0 {
            return put_ordered(self.is_turned, self.vr, bytes, out);
        }
        self.feed_cut(bytes, out)
    }

    /// Takes bytes where a unit is cut by their beginning or end.
    #[inline(never)]
    fn feed_cut<W: DeviceOut>(
        &mut self,
        bytes: &[u8],
        out: &mut Watched<W>,
    ) -> Result<(), WriteFailed>
        ensures { Copied W.DeviceOut out.old out.new self.old self.new bytes.now result }
    {
        let units = self.held.feed(self.vr.unit(), bytes);
        put_ordered(self.is_turned, self.vr, units.first.as_slice(), out)?;
        put_ordered(self.is_turned, self.vr, units.others, out)
    }

    /// Writes the bytes after the last whole unit, and the pad byte of an odd value. Fails where the writer fails.
    pub fn close<W: DeviceOut>(&self, out: &mut Watched<W>) -> Result<(), WriteFailed>
        ensures { Wrote W.DeviceOut out.old out.new (spec.copy_ends (copying self.now)) result }
    {
        if self.held.as_slice().is_empty() && self.pad.is_none() {
            return Ok(());
        }
        self.put_end(out)
    }

    /// Writes them, where there are any.
    #[inline(never)]
    fn put_end<W: DeviceOut>(&self, out: &mut Watched<W>) -> Result<(), WriteFailed>
        ensures { Wrote W.DeviceOut out.old out.new (spec.copy_ends (copying self.now)) result }
    {
        put_all(out, self.held.as_slice())?;
        put_padding(self.pad, out)
    }
}
