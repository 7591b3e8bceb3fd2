use arrayvec::ArrayVec;
use dcm_base::{Dictionary, MemOut, Mode, Syntax, Vr, Watched, put_all};
use dcm_value::{ValueText, escape, swap};
use std::test::Fail;

/// The syntaxes, with the dictionary's extract.
const IMPLICIT: Syntax = Syntax::Implicit(Dictionary::Extract);

const LITTLE: Syntax = Syntax::LITTLE;

const BIG: Syntax = Syntax::Big(Dictionary::Extract);

/// A writer that has room for so many bytes.
fn writer(rt: HostRuntime, room: usize) -> Result<Watched<MemOut>, Fail> {
    let mut bytes = Vec::new(rt.alloc());
    for _ in 0..room {
        bytes.push(0)?;
    }
    Ok(Watched::new(MemOut::new(bytes)))
}

/// Feeds bytes of a value in pieces of so many.
fn feed(
    text: &mut ValueText,
    bytes: &[u8],
    step: usize,
    out: &mut Watched<MemOut>,
) -> Result<(), Fail> {
    text.feed(&[], out).ok().ok_or("writer is full")?;
    for piece in bytes.chunks(step.max(1)) {
        if piece.len() <= text.missing() as usize {
            text.feed(piece, out).ok().ok_or("writer is full")?;
        }
    }
    Ok(())
}

/// A failure where it does not hold.
fn holds(is_so: bool, what: &'static str) -> Result<(), Fail> {
    if is_so {
        return Ok(());
    }
    Err(what)?
}

/// A text with spaces up to 40 bytes.
fn padded(rt: HostRuntime, text: &[u8]) -> Result<Vec<u8>, Fail> {
    let mut all = text.to_vec(rt.alloc())?;
    for _ in text.len()..40 {
        all.push(b' ')?;
    }
    Ok(all)
}

/// Whole and in pieces a value is shown by this text, and has so many values.
fn is_shown(
    rt: HostRuntime,
    (vr, syntax, mode): (Vr, Syntax, Mode),
    value: &[u8],
    text: &[u8],
    count: u64,
) -> Result<(), Fail> {
    let wanted = padded(rt, text)?;
    for step in [1, 2, 3, 7, value.len()] {
        let mut out = writer(rt, 4000)?;
        let size = u32::try_from(value.len())?;
        let mut shown = ValueText::new(vr, syntax, size, mode);
        feed(&mut shown, value, step, &mut out)?;
        if mode == Mode::Short {
            holds(out.device().written().is_empty(), "it is written too early")?;
        }
        let mut line: ArrayVec<u8, 66> = ArrayVec::new();
        let values = shown
            .finish(&mut line, &mut out)
            .ok()
            .ok_or("writer is full")?;
        let ended = put_all(&mut out, line.as_slice());
        ended.ok().ok_or("writer is full")?;
        holds(out.device().written() == wanted.as_slice(), "another text")?;
        holds(values == count, "another count")?;
    }
    Ok(())
}

/// In both modes.
fn is_always(
    rt: HostRuntime,
    vr: Vr,
    syntax: Syntax,
    value: &[u8],
    text: &[u8],
    count: u64,
) -> Result<(), Fail> {
    is_shown(rt, (vr, syntax, Mode::Short), value, text, count)?;
    is_shown(rt, (vr, syntax, Mode::Full), value, text, count)
}

#[test]
fn shows_texts(rt: HostRuntime) -> Result<(), Fail> {
    is_always(rt, Vr::PN, LITTLE, b"AB^CD ", b"[AB^CD]", 1)?;
    is_always(rt, Vr::LT, LITTLE, b" ", b"[ ]", 1)?;
    is_always(rt, Vr::LO, LITTLE, b"a\\b\\c\n", b"[a\\b\\c%0A]", 3)?;
    is_always(rt, Vr::UT, BIG, b"\\\\", b"[\\\\]", 1)?;
    is_always(rt, Vr::SH, BIG, b"%]\x7f\x80", b"[%25%5D%7F\x80]", 1)?;
    is_always(rt, Vr::SH, IMPLICIT, b"", b"(no value available)", 0)
}

#[test]
fn shows_identifiers(rt: HostRuntime) -> Result<(), Fail> {
    let little = b"1.2.840.10008.1.2.1\0";
    is_always(rt, Vr::UI, LITTLE, little, b"=LittleEndianExplicit", 1)?;
    is_always(rt, Vr::UI, BIG, b"1.2\0", b"[1.2]", 1)?;
    is_always(rt, Vr::UI, BIG, b"1.2\\3 ", b"[1.2\\3 ]", 2)?;
    is_always(rt, Vr::UI, BIG, b"\0\0", b"[%00]", 1)?;
    is_always(rt, Vr::UI, BIG, b"", b"(no value available)", 0)?;
    let long = [b'1'; 66];
    let full = (Vr::UI, LITTLE, Mode::Full);
    let mut text = padded(rt, &long)?;
    text.insert(0, b'[')?;
    text.push(b']')?;
    is_shown(rt, full, &long, text.as_slice(), 1)
}

#[test]
fn shows_numbers(rt: HostRuntime) -> Result<(), Fail> {
    let ones = [255; 8];
    is_always(rt, Vr::US, BIG, &[0, 1, 2, 0, 5], b"1\\512", 2)?;
    is_always(rt, Vr::US, LITTLE, &[1], b"", 0)?;
    is_always(rt, Vr::SS, LITTLE, &[255, 255], b"-1", 1)?;
    is_always(rt, Vr::SS, LITTLE, &[0, 128, 255, 127], b"-32768\\32767", 2)?;
    is_always(rt, Vr::UL, BIG, &[0, 1, 0, 0], b"65536", 1)?;
    is_always(rt, Vr::SL, LITTLE, &[0, 0, 0, 128], b"-2147483648", 1)?;
    is_always(rt, Vr::UV, LITTLE, &[2, 1, 0, 0, 0, 0, 0, 0], b"258", 1)?;
    is_always(rt, Vr::UV, LITTLE, &ones, b"18446744073709551615", 1)?;
    is_always(rt, Vr::SV, LITTLE, &ones, b"-1", 1)?;
    is_always(
        rt,
        Vr::SV,
        BIG,
        &[128, 0, 0, 0, 0, 0, 0, 0],
        b"-9223372036854775808",
        1,
    )
}

#[test]
fn shows_bytes(rt: HostRuntime) -> Result<(), Fail> {
    let eight = [1, 2, 3, 4, 5, 6, 7, 8];
    let diffusion = [0, 0, 0, 0, 0, 0x40, 0x8F, 0x40];
    is_always(rt, Vr::FD, LITTLE, &diffusion, b"408f400000000000", 1)?;
    is_always(rt, Vr::UN, IMPLICIT, b"AB", b"41\\42", 1)?;
    is_always(rt, Vr::OB, BIG, &[255, 0xD8], b"ff\\d8", 1)?;
    is_always(rt, Vr::SQ, BIG, &[255, 0xD8], b"ff\\d8", 2)?;
    is_always(rt, Vr::OW, LITTLE, &[1, 2, 3, 4], b"0201\\0403", 1)?;
    is_always(rt, Vr::OW, BIG, &[1, 2, 3, 4, 5], b"0102\\0304", 1)?;
    is_always(rt, Vr::OL, LITTLE, &eight, b"04030201\\08070605", 1)?;
    is_always(rt, Vr::FL, BIG, &eight, b"01020304\\05060708", 2)?;
    is_always(rt, Vr::OF, LITTLE, &eight[..5], b"04030201", 1)?;
    is_always(rt, Vr::OV, LITTLE, &eight, b"0807060504030201", 1)?;
    is_always(rt, Vr::OD, BIG, &eight, b"0102030405060708", 1)?;
    is_always(rt, Vr::AT, LITTLE, &eight, b"(0201,0403)\\(0605,0807)", 2)?;
    is_always(rt, Vr::AT, BIG, &eight[..6], b"(0102,0304)", 1)
}

#[test]
fn cuts_long_ones(rt: HostRuntime) -> Result<(), Fail> {
    let letters = [b'a'; 2000];
    let short = (Vr::LT, LITTLE, Mode::Short);
    let mut text = padded(rt, &letters[..64])?;
    text.insert(0, b'[')?;
    text.push(b']')?;
    is_shown(rt, short, &letters[..64], text.as_slice(), 1)?;
    text.truncate(63);
    text.extend_from_slice(b"...")?;
    for size in [65, 66, 67, 1024, 2000] {
        is_shown(rt, short, &letters[..size], text.as_slice(), 1)?;
    }
    Ok(())
}

#[test]
fn shows_long_ones(rt: HostRuntime) -> Result<(), Fail> {
    let zeros = [0; 1200];
    for (vr, unit, shown) in [
        (Vr::OB, 1, b"00\\".as_slice()),
        (Vr::US, 2, b"0\\".as_slice()),
        (Vr::OW, 2, b"0000\\".as_slice()),
        (Vr::SV, 8, b"0\\".as_slice()),
    ] {
        let mut text = Vec::new(rt.alloc());
        for _ in 0..1200 / unit {
            text.extend_from_slice(shown)?;
        }
        let _ = text.pop();
        let count = if vr == Vr::US || vr == Vr::SV {
            1200 / unit as u64
        } else {
            1
        };
        is_shown(rt, (vr, LITTLE, Mode::Full), &zeros, text.as_slice(), count)?;
        text.truncate(63);
        text.extend_from_slice(b"...")?;
        is_shown(rt, (vr, BIG, Mode::Short), &zeros, text.as_slice(), count)?;
    }
    Ok(())
}

#[test]
fn shows_open_ones(rt: HostRuntime) -> Result<(), Fail> {
    for (vr, size, value, text) in [
        (Vr::PN, 6, b"AB".as_slice(), b"[AB".as_slice()),
        (Vr::PN, 6, b"".as_slice(), b"[".as_slice()),
        (Vr::UI, 64, b"1.2".as_slice(), b"".as_slice()),
        (Vr::UI, 66, b"1.2".as_slice(), b"[1.2".as_slice()),
        (Vr::US, 6, b"\x01\x00\x02".as_slice(), b"1".as_slice()),
        (
            Vr::OB,
            6,
            b"\x01\x00\x02".as_slice(),
            b"01\\00\\02".as_slice(),
        ),
    ] {
        for (mode, wanted) in [(Mode::Full, text), (Mode::Short, b"".as_slice())] {
            let mut out = writer(rt, 100)?;
            let mut shown = ValueText::new(vr, LITTLE, size, mode);
            feed(&mut shown, value, 1, &mut out)?;
            assert!(rt; out.device().written() == wanted);
            assert!(rt; (shown.size() - shown.missing().min(shown.size())) as usize == value.len());
        }
    }
    Ok(())
}

#[test]
fn tells_a_full_writer(rt: HostRuntime) -> Result<(), Fail> {
    for room in 0..40 {
        let mut out = writer(rt, room)?;
        let mut shown = ValueText::new(Vr::LO, LITTLE, 4, Mode::Full);
        let fed = shown.feed(b"a\nb ", &mut out);
        let mut line: ArrayVec<u8, 66> = ArrayVec::new();
        let ended = shown.finish(&mut line, &mut out);
        let put = put_all(&mut out, line.as_slice());
        assert!(rt; fed.is_err() || ended.is_err() || put.is_err());
        let whole = padded(rt, b"[a%0Ab]")?;
        let (front, _) = whole.as_slice().split_at(room.min(whole.len()));
        assert!(rt; out.device().written() == front);
    }
    Ok(())
}

#[test]
fn escapes_bytes(rt: HostRuntime) {
    assert!(rt; escape(b'a').as_slice() == b"a".as_slice());
    assert!(rt; escape(0x1F).as_slice() == b"%1F".as_slice());
    assert!(rt; escape(b']').as_slice() == b"%5D".as_slice());
}

#[test]
fn turns_units(rt: HostRuntime) {
    let mut bytes = [1, 2, 3, 4, 5, 6, 7];
    swap(4, &mut bytes);
    assert!(rt; bytes == [4, 3, 2, 1, 5, 6, 7]);
    let mut bytes = [0; 37];
    for (at, byte) in bytes.iter_mut().enumerate() {
        *byte = (at % 256) as u8;
    }
    let before = bytes;
    for unit in [1, 2, 4, 8] {
        swap(unit, &mut bytes);
        assert!(rt; unit == 1 || bytes[24] == before[24 + unit - 1]);
        swap(unit, &mut bytes);
        assert!(rt; bytes == before);
    }
}
