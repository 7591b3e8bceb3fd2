// The patient whom a data set names, and where it does so.
ghost use Rattle.std.specs.Prelude.{◌≡◌, ◌≤◌, [], fold, length, None, false};
ghost use Rattle.dcm_base.specs.Reading.Bars as bars;
ghost use Rattle.dcm_deid.specs.Deidentifying.{held, place};
ghost use Rattle.dcm_deid.specs.Patient as spec;
ghost use Rattle.dcm_stream.specs.Skip.{depth};
ghost use Rattle.dcm_stream.specs.Tokens.{atoms_of, whole_atoms};

use crate::deidentifier::{Deidentifier, form_after};
use crate::fate::{Depth, Fate, Options, PATIENT_ID, Temporal};
use crate::held::HeldValue;
use crate::sink::holds_identity;
use arrayvec::ArrayVec;
use dcm_base::{Form, Syntax, Tag, Vr, WriteFailed};
use dcm_dates::MOST_HELD;
use dcm_head::Head;
use dcm_stream::{Bar, Sink, Skip, Token};
use dcm_uid::patient;
use std::marker::Model;

/// No option that keeps more.
const NO_OPTIONS: Options = Options {
    uids: false,
    device: false,
    institution: false,
    patient: false,
    dates: Temporal::Removed,
    pseudonyms: false,
};

/// Whether an element with this many items open around it is PatientID of the file's own data set, or comes after that.
fn reaches_patient(depth: Depth, tag: Tag) -> bool
    ensures { result ≡ spec.reaches depth tag }
{
    depth == Depth::Outermost && !tag.is_below(PATIENT_ID)
}

/// A sink that takes nothing. It bars what is barred where identity is taken out, and then the head of PatientID at the
/// outermost level, or the first one after that.
#[derive(Drop)]
pub struct UpToPatient {
    place: Deidentifier,
}

impl UpToPatient {
    /// Before the first token.
    pub fn new() -> UpToPatient
        ensures { place result.place ≡ spec.up_to_begun.place }
    {
        UpToPatient {
            place: Deidentifier::new(),
        }
    }
}

impl Sink for UpToPatient {
    ghost use Rattle.dcm_deid.specs.DeidentifySink.{State as PlaceState, next};
    ghost use Rattle.dcm_deid.specs.Deidentifying.{state as place_state};

    ghost State = { PlaceState };

    ghost state = { λ e. place_state spec.no_options [] e.place };

    ghost step = { next };

    ghost writes = { spec.writes_nothing };

    ghost bar = { spec.up_to_bar };

    ghost contents = { λ e. None };

    ghost has_failed = { λ e. false };

    ghost Kept = { Unit {0} };

    ghost kept = { λ e. tt };

    fn take(&mut self, token: Token) -> Result<(), WriteFailed> {
        self.place.go_on(&NO_OPTIONS, token);
        Ok(())
    }

    fn accepts(&self, head: &Head) -> Result<(), Bar> {
        match self.place.last {
            Some(last) if !last.is_below(head.tag) => Err(Bar::Order),
            _ if holds_identity(head.tag) => Err(Bar::Identity),
            _ if reaches_patient(self.place.depth(), head.tag) => Err(Bar::Patient),
            _ => Ok(()),
        }
    }
}

/// How far the reading of PatientID has come.
#[derive(Clone, Copy, Debug, PartialEq, Eq)]
pub enum Naming {
    /// PatientID may still come.
    NotYet,
    /// The value of PatientID is open.
    Opened,
    /// The value of PatientID is whole.
    Ended,
    /// PatientID has no value, or an element comes that belongs behind it.
    Nobody,
}

/// A sink that holds the value of PatientID at the outermost level. It refuses nothing. Once the value is whole, it
/// takes no more.
#[derive(Drop)]
pub struct PatientSink {
    skip: Skip,
    naming: Naming,
    value: HeldValue,
}

impl Model for PatientSink {
    ghost use Rattle.dcm_deid.specs.Deidentifying.{held};
    ghost use Rattle.dcm_deid.specs.Patient.{PatientState};
    ghost use Rattle.dcm_stream.specs.Skip.{depth};

    ghost Value = { PatientState };

    ghost view = { λ p. record { depth = depth p.skip; naming = p.naming; held = held p.value } };
}

/// How far the naming has come at a head of the outermost level.
fn naming_at(tag: Tag, form: Form) -> Naming
    ensures { result ≡ spec.naming_at tag form }
{
    if tag.is_below(PATIENT_ID) {
        Naming::NotYet
    } else if tag == PATIENT_ID && form == Form::Value {
        Naming::Opened
    } else {
        Naming::Nobody
    }
}

impl PatientSink {
    /// Before the first token.
    pub fn new() -> PatientSink
        ensures { result ≡ spec.patient_begun }
    {
        PatientSink {
            skip: Skip::nothing(),
            naming: Naming::NotYet,
            value: HeldValue::new(Fate::Keep, PATIENT_ID, Vr::LO, Syntax::LITTLE),
        }
    }

    /// How far the reading of PatientID has come.
    pub fn naming(&self) -> Naming
        ensures { result ≡ self.now.naming }
    {
        self.naming
    }

    /// The patient whom the value names: nothing where it is padding alone, or too long.
    pub fn patient(&self) -> ArrayVec<u8, MOST_HELD>
        ensures { result.items ≡ spec.patient_held self.now.held }
    {
        let mut named = ArrayVec::new();
        if !self.value.is_longer {
            let _ = named.try_extend_from_slice(patient(self.value.ordered().as_slice()));
        }
        named
    }

    /// After the head of an element.
    fn open(&mut self, head: Head, syntax: Syntax)
        ensures { self.new ≡ spec.after_head self.old head.tag head.vr head.length syntax }
    {
        if self.skip.is_open() || self.naming != Naming::NotYet {
            return;
        }
        self.naming = naming_at(head.tag, form_after(head, syntax));
        self.value = HeldValue::new(Fate::Keep, head.tag, head.vr, syntax);
    }

    /// After bytes of a value.
    fn add(&mut self, bytes: &[u8])
        ensures { self.new ≡ spec.after_bytes self.old bytes.now }
    {
        if self.naming == Naming::Opened {
            self.value.add(bytes);
        }
    }

    /// After the end of a value.
    fn close(&mut self)
        ensures { self.new
            ≡ record { depth = self.old.depth; naming = spec.naming_ended self.old.naming; held = self.old.held } }
    {
        if self.naming == Naming::Opened {
            self.naming = Naming::Ended;
        }
    }

    /// After a token.
    #[inline(always)]
    pub fn go_on(&mut self, token: Token)
        ensures { self.new ≡ fold spec.patient_next self.old (atoms_of token.entry) }
    {
        match token {
            Token::Open(head, syntax) => {
                self.open(head, syntax);
                self.skip.open(true);
            }
            Token::Bytes(bytes) => self.add(bytes),
            Token::CloseLeaf => {
                self.close();
                self.skip.close();
            }
            Token::OpenItem(_) | Token::OpenFragment(_) => self.skip.open(true),
            Token::CloseItem | Token::CloseSeq => self.skip.close(),
            Token::End => {}
        }
    }

    /// After an element with its whole value.
    #[inline(always)]
    pub fn go_on_whole(&mut self, head: Head, syntax: Syntax, value: &[u8])
        ensures { self.new ≡ fold spec.patient_next self.old (whole_atoms head syntax value.now) }
    {
        self.go_on(Token::Open(head, syntax));
        self.go_on(Token::Bytes(value));
        self.go_on(Token::CloseLeaf);
    }
}

impl Sink for PatientSink {
    ghost use Rattle.dcm_deid.specs.Patient.{PatientState};

    ghost State = { PatientState };

    ghost state = { λ e. e };

    ghost step = { spec.patient_next };

    ghost writes = { spec.writes_nothing };

    ghost bar = { spec.bars_none };

    ghost contents = { λ e. None };

    ghost has_failed = { λ e. false };

    ghost Kept = { Unit {0} };

    ghost kept = { λ e. tt };

    fn take(&mut self, token: Token) -> Result<(), WriteFailed> {
        self.go_on(token);
        Ok(())
    }

    fn accepts(&self, _head: &Head) -> Result<(), Bar> {
        Ok(())
    }
}
