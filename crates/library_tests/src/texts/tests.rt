//! Each row in two pieces, cut at each byte, and byte by byte.
use crate::texts::rows::{EDGES, EXTENDED, LONGER, ONE_BYTE, RESETS, Row, TERMS, UTF_8};
use arrayvec::ArrayVec;
use dcm_text::{Decoder, Sets, TextKind, dumped, in_cell, is_hidden, sets_of};
use std::process::Abort;

/// More parts than a row has.
const MOST_PARTS: u32 = 512;

/// What a dump and a cell show of a text.
#[derive(Drop)]
struct Shown {
    dumped: ArrayVec<u8, 512>,
    in_cell: ArrayVec<u8, 512>,
}

impl Shown {
    fn new() -> Shown {
        Shown {
            dumped: ArrayVec::new(),
            in_cell: ArrayVec::new(),
        }
    }

    /// Shows the parts that a piece decides.
    fn feed(&mut self, decoder: &mut Decoder, piece: &[u8], at_end: bool) {
        let mut input = piece;
        for _ in 0..MOST_PARTS {
            let Some((part, rest)) = decoder.next(input, at_end) else {
                return;
            };
            let _ = self.dumped.try_extend_from_slice(dumped(&part).as_slice());
            let _ = self
                .in_cell
                .try_extend_from_slice(in_cell(&part).as_slice());
            input = rest;
        }
    }

    fn is_of(&self, row: &Row) -> bool {
        self.dumped.as_slice() == row.3.as_bytes() && self.in_cell.as_slice() == row.4.as_bytes()
    }
}

/// Whether a text shows this, cut at a byte.
fn shows(row: &Row, cut: usize) -> bool {
    let mut decoder = Decoder::new(sets_of(row.0), row.1);
    let mut shown = Shown::new();
    let (front, back) = row.2.split_at(cut.min(row.2.len()));
    shown.feed(&mut decoder, front, false);
    shown.feed(&mut decoder, back, true);
    shown.is_of(row)
}

/// Whether it shows this byte by byte.
fn shows_byte_by_byte(row: &Row) -> bool {
    let mut decoder = Decoder::new(sets_of(row.0), row.1);
    let mut shown = Shown::new();
    for byte in row.2 {
        shown.feed(&mut decoder, &[*byte], false);
    }
    shown.feed(&mut decoder, &[], true);
    shown.is_of(row)
}

fn try_rows(rt: &impl Abort, rows: &[Row]) {
    for row in rows {
        for cut in 0..=row.2.len() {
            assert!(rt; shows(row, cut), "{}", row.3);
        }
        assert!(rt; shows_byte_by_byte(row), "{}", row.3);
    }
}

#[test]
fn one_byte_a_character(rt: HostRuntime) {
    try_rows(&rt, &ONE_BYTE);
}

#[test]
fn utf_8(rt: HostRuntime) {
    try_rows(&rt, &UTF_8);
}

#[test]
fn code_extensions(rt: HostRuntime) {
    try_rows(&rt, &EXTENDED);
}

#[test]
fn resets(rt: HostRuntime) {
    try_rows(&rt, &RESETS);
}

#[test]
fn terms(rt: HostRuntime) {
    try_rows(&rt, &TERMS);
}

#[test]
fn edges_of_tables(rt: HostRuntime) {
    try_rows(&rt, &EDGES);
}

#[test]
fn gb18030_and_159(rt: HostRuntime) {
    try_rows(&rt, &LONGER);
}

/// A value of 512 bytes is read, and a longer one is not.
#[test]
fn long_values(rt: HostRuntime) {
    let mut value = [b' '; 513];
    value[..10].copy_from_slice(b"ISO_IR 100");
    assert!(rt; sets_of(&value[..512]) == sets_of(b"ISO_IR 100"));
    assert!(rt; sets_of(&value) == Sets::DEFAULT);
    assert!(rt; sets_of(b"") == Sets::DEFAULT);
    assert!(rt; sets_of(b"ISO_IR 100\0\0 ") != Sets::DEFAULT);
}

/// What waits is not given before the end.
#[test]
fn waits(rt: HostRuntime) {
    let mut decoder = Decoder::new(sets_of(b"ISO_IR 192"), TextKind::OneValue);
    let mut shown = Shown::new();
    shown.feed(&mut decoder, b"A\xF0\x9F\x98", false);
    assert!(rt; shown.dumped.as_slice() == b"A".as_slice());
    shown.feed(&mut decoder, b"", true);
    assert!(rt; shown.dumped.as_slice() == b"A%F0%9F%98".as_slice());
}

/// The first and the last hidden characters, and those beside them.
#[test]
fn hidden(rt: HostRuntime) {
    for character in [
        '\0',
        '\x1F',
        '\x7F',
        '\u{9F}',
        '\u{202E}',
        '\u{FFFE}',
        '\u{E0FFF}',
        '\u{10FFFF}',
    ] {
        assert!(rt; is_hidden(character));
    }
    for character in [
        ' ',
        '~',
        '\u{A0}',
        '\u{200C}',
        '\u{200D}',
        '\u{FFFD}',
        '\u{E0100}',
        '\u{10FFFD}',
    ] {
        assert!(rt; !is_hidden(character));
    }
}
