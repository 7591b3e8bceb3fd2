// What cells show of all forms of each set, by its digest.
ghost use Rattle.std.specs.Prelude.{◌≤◌};

use crate::texts::digests::*;
use arrayvec::ArrayVec;
use dcm_text::{Decoder, Sets, TextKind, in_cell, sets_of};
use sha2::{Digest, Sha256};
use std::process::Abort;

/// More parts than a form has, with its designation.
const MOST_PARTS: u32 = 8;

/// How many forms of four bytes of GB18030 stand before those of the supplementary planes.
const FOURS: u32 = 39_420;

/// Notes what a cell shows of a text.
fn note(hasher: &mut Sha256, sets: Sets, text: &[u8]) {
    let mut decoder = Decoder::new(sets, TextKind::OneValue);
    let mut rest = text;
    for _ in 0..MOST_PARTS {
        let Some((part, after)) = decoder.next(rest, true) else {
            return;
        };
        hasher.update(in_cell(&part).as_slice());
        rest = after;
    }
}

/// Of a set of one byte a character: the bytes from A0 on.
fn right_half(term: &[u8]) -> [u8; 32] {
    let sets = sets_of(term);
    let mut hasher = Sha256::new();
    for k in 0..96u8 {
        note(&mut hasher, sets, &[0xA0 + k]);
    }
    hasher.finalize()
}

/// Of a set of two bytes a character: the pairs from this byte on, each behind the bytes that designate the set.
fn pairs(term: &[u8], designation: &[u8], first: u8) -> [u8; 32]
    requires { first ≤ 161 }
{
    let sets = sets_of(term);
    let mut hasher = Sha256::new();
    for row in 0..94u8 {
        for cell in 0..94u8 {
            let mut text: ArrayVec<u8, 8> = ArrayVec::new();
            let _ = text.try_extend_from_slice(designation);
            let _ = text.try_extend_from_slice(&[first + row, first + cell]);
            note(&mut hasher, sets, text.as_slice());
        }
    }
    hasher.finalize()
}

/// The pairs of GB18030: the second byte is from 40 to FE, but for 7F.
fn gb_pairs() -> [u8; 32] {
    let sets = sets_of(b"GB18030");
    let mut hasher = Sha256::new();
    for row in 0..126u8 {
        for cell in 0..191u8 {
            if cell != 0x3F {
                note(&mut hasher, sets, &[0x81 + row, 0x40 + cell]);
            }
        }
    }
    hasher.finalize()
}

/// The forms of four bytes of GB18030, by their numbers.
fn gb_fours() -> [u8; 32] {
    let sets = sets_of(b"GB18030");
    let mut hasher = Sha256::new();
    for number in 0..FOURS {
        let fourth = (number % 10) as u8;
        let third = (number / 10 % 126) as u8;
        let second = (number / 1_260 % 10) as u8;
        let first = (number / 12_600 % 126) as u8;
        note(
            &mut hasher,
            sets,
            &[0x81 + first, 0x30 + second, 0x81 + third, 0x30 + fourth],
        );
    }
    hasher.finalize()
}

#[test]
fn right_halves(rt: HostRuntime) {
    assert!(rt; right_half(b"ISO_IR 13") == OF_13);
    assert!(rt; right_half(b"ISO_IR 100") == OF_100);
    assert!(rt; right_half(b"ISO_IR 101") == OF_101);
    assert!(rt; right_half(b"ISO_IR 109") == OF_109);
    assert!(rt; right_half(b"ISO_IR 110") == OF_110);
    assert!(rt; right_half(b"ISO_IR 126") == OF_126);
    assert!(rt; right_half(b"ISO_IR 127") == OF_127);
    assert!(rt; right_half(b"ISO_IR 138") == OF_138);
    assert!(rt; right_half(b"ISO_IR 144") == OF_144);
    assert!(rt; right_half(b"ISO_IR 148") == OF_148);
    assert!(rt; right_half(b"ISO_IR 166") == OF_166);
    assert!(rt; right_half(b"ISO_IR 203") == OF_203);
}

#[test]
fn sets_of_two_bytes(rt: HostRuntime) {
    assert!(rt; pairs(b"ISO 2022 IR 87", b"\x1B$B", 0x21) == OF_87);
    assert!(rt; pairs(b"ISO 2022 IR 159", b"\x1B$(D", 0x21) == OF_159);
    assert!(rt; pairs(b"ISO 2022 IR 149", b"", 0xA1) == OF_149);
    assert!(rt; pairs(b"ISO 2022 IR 58", b"", 0xA1) == OF_58);
}

#[test]
fn gb18030(rt: HostRuntime) {
    assert!(rt; gb_pairs() == OF_GB);
    assert!(rt; gb_fours() == OF_GB_FOURS);
}
