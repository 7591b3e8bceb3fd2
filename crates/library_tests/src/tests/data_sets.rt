// Data sets in pieces of several sizes.
ghost use Rattle.std.specs.Prelude.{◌≡◌, ◌<◌, ◌≤◌, [], None, false};
ghost use Rattle.dcm_base.specs.Reading.Reads.{INPUT_LIMIT};

use arrayvec::ArrayVec;
use dcm_base::{Coding, Dictionary, Fault, Stop, Stopped, Syntax, WriteFailed};
use dcm_head::Head;
use dcm_stream::{Bar, Halt, Machine, Sink, Token};

/// A sign for each token and each byte of a value, as far as they fit.
#[derive(Drop)]
struct Signs {
    signs: ArrayVec<u8, 512>,
}

impl Signs {
    fn sign(&mut self, sign: u8) {
        let _ = self.signs.try_push(sign);
    }
}

impl Sink for Signs {
    ghost State = { Unit {0} };

    ghost state = { λ _. tt };

    ghost step = { λ _ _. tt };

    ghost writes = { λ _ _. [] };

    ghost bar = { λ _ _. None };

    ghost contents = { λ _. None };

    ghost has_failed = { λ _. false };

    ghost Kept = { Unit {0} };

    ghost kept = { λ _. tt };

    fn take(&mut self, token: Token) -> Result<(), WriteFailed> {
        match token {
            Token::Open(_, Syntax::Implicit(_)) => self.sign(b'i'),
            Token::Open(_, Syntax::Little(_)) => self.sign(b'l'),
            Token::Open(_, Syntax::Big(_)) => self.sign(b'b'),
            Token::Bytes(bytes) => {
                for _byte in bytes {
                    self.sign(b'.');
                }
            }
            Token::CloseLeaf => self.sign(b';'),
            Token::OpenItem(_) => self.sign(b'('),
            Token::CloseItem => self.sign(b')'),
            Token::CloseSeq => self.sign(b'>'),
            Token::OpenFragment(_) => self.sign(b'+'),
            Token::End => self.sign(b'$'),
        }
        Ok(())
    }

    fn accepts(&self, _head: &Head) -> Result<(), Bar> {
        Ok(())
    }
}

const LITTLE: Coding = Coding {
    syntax: Syntax::LITTLE,
    encapsulated: false,
};

const IMPLICIT: Coding = Coding {
    syntax: Syntax::Implicit(Dictionary::Extract),
    encapsulated: false,
};

const BIG: Coding = Coding {
    syntax: Syntax::Big(Dictionary::Extract),
    encapsulated: false,
};

fn refused(fault: Fault, at: u64) -> Result<(), Halt> {
    Err(Stopped::Refused(Stop { fault, at }))
}

fn feed_all(machine: &mut Machine, bytes: &[u8], step: usize, sink: &mut Signs) -> Result<(), Halt>
    requires { 0 < step }
{
    for piece in bytes.chunks(step) {
        machine.feed(piece, sink)?;
    }
    machine.finish(sink)
}

/// A data set that begins at an offset.
#[derive(Clone, Copy)]
struct Input<'a> {
    coding: Coding,
    start: u64,
    bytes: &'a [u8],
}

/// The signs and the answer in pieces of this size.
fn is_told_by(input: Input, step: usize, signs: &[u8], answer: Result<(), Halt>) -> bool
    requires start { input.start ≤ INPUT_LIMIT }
    requires step { 0 < step }
{
    let mut machine = Machine::new(input.coding, input.start);
    let mut sink = Signs {
        signs: ArrayVec::new(),
    };
    let told = feed_all(&mut machine, input.bytes, step, &mut sink);
    told == answer && sink.signs.as_slice() == signs
}

/// The signs and the answer in pieces of several sizes.
fn is_told(input: Input, signs: &[u8], answer: Result<(), Halt>) -> bool
    requires { input.start ≤ INPUT_LIMIT }
{
    is_told_by(input, 8192, signs, answer)
        && is_told_by(input, 1, signs, answer)
        && is_told_by(input, 2, signs, answer)
        && is_told_by(input, 3, signs, answer)
        && is_told_by(input, 7, signs, answer)
        && is_told_by(input, 12, signs, answer)
}

fn little(bytes: &[u8]) -> Input<'_>
    ensures { result.start ≡ 172 }
{
    Input {
        coding: LITTLE,
        start: 172,
        bytes,
    }
}

fn big(bytes: &[u8]) -> Input<'_>
    ensures { result.start ≡ 172 }
{
    Input {
        coding: BIG,
        start: 172,
        bytes,
    }
}

fn implicit(bytes: &[u8]) -> Input<'_>
    ensures { result.start ≡ 170 }
{
    Input {
        coding: IMPLICIT,
        start: 170,
        bytes,
    }
}

fn implicit_by_standard(bytes: &[u8]) -> Input<'_>
    ensures { result.start ≡ 170 }
{
    Input {
        coding: IMPLICIT.read_by(Dictionary::Standard),
        start: 170,
        bytes,
    }
}

fn little_by_standard(bytes: &[u8]) -> Input<'_>
    ensures { result.start ≡ 172 }
{
    Input {
        coding: LITTLE.read_by(Dictionary::Standard),
        start: 172,
        bytes,
    }
}

/// A sequence of the standard that the extract lacks, of known length: DoseReferenceSequence.
const DOSES: &[u8] =
    b"\x0a\x30\x10\x00\x12\x00\x00\x00\xFE\xFF\x00\xE0\x0A\x00\x00\x00\x0a\x30\x12\x00\x02\x00\x00\x001 ";

#[test]
fn reads_implicit_sequences_by_each_dictionary(rt: HostRuntime) {
    assert!(rt; is_told(implicit(DOSES), b"i..................;$", Ok(())));
    assert!(rt; is_told(implicit_by_standard(DOSES), b"i(i..;)>$", Ok(())));
    let bytes = b"\x0a\x30\x10\x00\x02\x00\x00\x00ab";
    assert!(rt; is_told(implicit(bytes), b"i..;$", Ok(())));
    assert!(rt;
        is_told(
            implicit_by_standard(bytes),
            b"i",
            refused(Fault::PassesEnd, 178)
        )
    );
}

/// A private sequence UN of undefined length that holds this sequence.
const IN_UNKNOWN: &[u8] =
    b"\x09\x00\x10\x10UN\x00\x00\xFF\xFF\xFF\xFF\xFE\xFF\x00\xE0\xFF\xFF\xFF\xFF\x0a\x30\x10\x00\x12\x00\x00\x00\xFE\xFF\x00\xE0\x0A\x00\x00\x00\x0a\x30\x12\x00\x02\x00\x00\x001 \xFE\xFF\x0D\xE0\x00\x00\x00\x00\xFE\xFF\xDD\xE0\x00\x00\x00\x00";

#[test]
fn reads_unknown_sequences_by_each_dictionary(rt: HostRuntime) {
    assert!(rt; is_told(little(IN_UNKNOWN), b"l(i..................;)>$", Ok(())));
    assert!(rt; is_told(little_by_standard(IN_UNKNOWN), b"l(i(i..;)>)>$", Ok(())));
}

#[test]
fn reads_elements(rt: HostRuntime) {
    assert!(rt; is_told(little(b""), b"$", Ok(())));
    assert!(rt;
        is_told(
            little(b"\x10\x00\x10\x00PN\x06\x00AB^CD "),
            b"l......;$",
            Ok(())
        )
    );
    assert!(rt;
        is_told(
            little(b"\x10\x00\x10\x00PN\x06\x00AB"),
            b"l..",
            refused(Fault::EndsEarly, 182)
        )
    );
    assert!(rt; is_told(little(b"\x10\x00\x10\x00PN\x00\x00"), b"l;$", Ok(())));
    assert!(rt;
        is_told(
            little(b"\x10\x00\x10\x00pn\x02\x00"),
            b"",
            refused(Fault::UnknownRepresentation, 172)
        )
    );
    assert!(rt;
        is_told(
            little(b"\x02\x00\x10\x00UI\x00\x00"),
            b"",
            refused(Fault::TagNotAllowed, 172)
        )
    );
    assert!(rt;
        is_told(
            little(b"\x09\x00\x01\x10OV\x00\x00\xFF\xFF\xFF\xFF"),
            b"",
            refused(Fault::UndefinedLength, 172)
        )
    );
    assert!(rt;
        is_told(
            implicit(b"\x09\x00\x01\x10\x02\x00\x00\x00AB"),
            b"i..;$",
            Ok(())
        )
    );
    assert!(rt;
        is_told(
            big(b"\x00\x28\x00\x10US\x00\x05\x00\x01\x02\x00\x05"),
            b"b.....;$",
            Ok(())
        )
    );
}

#[test]
fn reads_sequences(rt: HostRuntime) {
    assert!(rt;
        is_told(
            little(b"\x08\x00\x40\x11SQ\x00\x00\x00\x00\x00\x00"),
            b"l>$",
            Ok(())
        )
    );
    let undefined =
        b"\x08\x00\x40\x11SQ\x00\x00\xFF\xFF\xFF\xFF\xFE\xFF\x00\xE0\x0C\x00\x00\x00\x08\x00\x55\x11UI\x04\x001.2\x00\xFE\xFF\xDD\xE0\x00\x00\x00\x00";
    assert!(rt; is_told(little(undefined), b"l(l....;)>$", Ok(())));
    let cut =
        b"\x08\x00\x40\x11SQ\x00\x00\x64\x00\x00\x00\xFE\xFF\x00\xE0\xFF\xFF\xFF\xFF\x08\x00\x55\x11UI\x04\x001.2\x00";
    assert!(rt; is_told(little(cut), b"l(l....;", refused(Fault::EndsEarly, 204)));
    let opaque =
        b"\x00\x09\x10\x10UN\x00\x00\xFF\xFF\xFF\xFF\xFE\xFF\x00\xE0\xFF\xFF\xFF\xFF\x10\x00\x10\x00\x02\x00\x00\x00AB\xFE\xFF\x0D\xE0\x00\x00\x00\x00\xFE\xFF\xDD\xE0\x00\x00\x00\x00";
    assert!(rt; is_told(big(opaque), b"b(i..;)>$", Ok(())));
}

#[test]
fn passes_ends(rt: HostRuntime) {
    let item = b"\x08\x00\x40\x11SQ\x00\x00\x10\x00\x00\x00\xFE\xFF\x00\xE0\x14\x00\x00\x00";
    assert!(rt; is_told(little(item), b"l", refused(Fault::PassesEnd, 184)));
    let undefined = b"\x08\x00\x40\x11SQ\x00\x00\x08\x00\x00\x00\xFE\xFF\x00\xE0\xFF\xFF\xFF\xFF";
    assert!(rt; is_told(little(undefined), b"l(", refused(Fault::PassesEnd, 192)));
    let other = b"\x08\x00\x40\x11SQ\x00\x00\x10\x00\x00\x00\xFE\xFF\x00\xE0\xFE\xFF\xFF\xFF";
    assert!(rt; is_told(little(other), b"l", refused(Fault::PassesEnd, 184)));
}

#[test]
fn reads_fragments(rt: HostRuntime) {
    let fragments =
        b"\xE0\x7F\x10\x00OB\x00\x00\xFF\xFF\xFF\xFF\xFE\xFF\x00\xE0\x00\x00\x00\x00\xFE\xFF\x00\xE0\x02\x00\x00\x00\xFF\xD8\xFE\xFF\xDD\xE0\x00\x00\x00\x00";
    assert!(rt; is_told(little(fragments), b"l+;+..;>$", Ok(())));
    assert!(rt;
        is_told(
            little(b"\xE0\x7F\x10\x00OW\x00\x00\xFE\xFF\xFF\xFF"),
            b"l",
            refused(Fault::EndsEarly, 184)
        )
    );
    assert!(rt;
        is_told(
            big(b"\x7F\xE0\x00\x10OB\x00\x00\xFF\xFF\xFF\xFF"),
            b"",
            refused(Fault::UndefinedLength, 172)
        )
    );
}

const SEQUENCE: &[u8] =
    b"\x08\x00\x40\x11SQ\x00\x00\xFF\xFF\xFF\xFF\xFE\xFF\x00\xE0\xFF\xFF\xFF\xFF";

const SEQUENCE_END: &[u8] = b"\xFE\xFF\x0D\xE0\x00\x00\x00\x00\xFE\xFF\xDD\xE0\x00\x00\x00\x00";

/// So many repetitions of a part, as far as they fit.
fn repeat(bytes: &mut ArrayVec<u8, 4096>, part: &[u8], times: usize) {
    for _time in 0..times {
        let _ = bytes.try_extend_from_slice(part);
    }
}

#[test]
fn nests(rt: HostRuntime) {
    let mut bytes = ArrayVec::new();
    let mut signs = ArrayVec::new();
    repeat(&mut bytes, SEQUENCE, 64);
    repeat(&mut signs, b"l(", 64);
    let mut deeper = ArrayVec::new();
    repeat(&mut deeper, bytes.as_slice(), 1);
    repeat(&mut deeper, SEQUENCE, 1);
    assert!(rt;
        is_told(
            little(deeper.as_slice()),
            signs.as_slice(),
            refused(Fault::TooDeep, 1452)
        )
    );
    repeat(&mut bytes, SEQUENCE_END, 64);
    repeat(&mut signs, b")>", 64);
    repeat(&mut signs, b"$", 1);
    assert!(rt; is_told(little(bytes.as_slice()), signs.as_slice(), Ok(())));
}

#[test]
fn reads_up_to_the_limit(rt: HostRuntime) {
    let input = Input {
        coding: LITTLE,
        start: 4_611_686_018_427_387_900,
        bytes: b"\x10\x00\x10\x00PN\x02\x00",
    };
    assert!(rt;
        is_told(
            input,
            b"",
            refused(Fault::TooLong, 4_611_686_018_427_387_904)
        )
    );
    let cut = Input {
        coding: LITTLE,
        start: 4_611_686_018_427_387_900,
        bytes: b"\x10\x00\x10\x00",
    };
    assert!(rt;
        is_told(
            cut,
            b"",
            refused(Fault::EndsEarly, 4_611_686_018_427_387_904)
        )
    );
}

#[test]
fn stays_halted(rt: HostRuntime) {
    let mut machine = Machine::new(LITTLE, 172);
    let mut sink = Signs {
        signs: ArrayVec::new(),
    };
    let halt = refused(Fault::UnknownRepresentation, 172);
    assert!(rt; machine.feed(b"\x10\x00\x10\x00pn\x02", &mut sink) == Ok(()));
    assert!(rt; machine.feed(b"\x00", &mut sink) == halt);
    assert!(rt; machine.feed(b"AB", &mut sink) == halt);
    assert!(rt; machine.finish(&mut sink) == halt);
    assert!(rt; machine.feed(b"", &mut sink) == halt);
}
