// Noting whom PatientID names, before what takes the tokens of a data set.
ghost use Rattle.std.specs.Prelude.{◌≡◌, Option, fold};
ghost use Rattle.std.specs.Borrow.{GName};
ghost use Rattle.dcm_deid.specs.Patient.{PatientState};
ghost use Rattle.dcm_deid.specs.WithPatient as spec;
ghost use Rattle.dcm_stream.specs.Tokens.{atoms_of, whole_atoms};

use crate::patient::{Naming, PatientSink};
use dcm_base::{Syntax, WriteFailed};
use dcm_head::Head;
use dcm_stream::{Bar, Sink, Token};

/// A sink that passes all tokens on to another one as they are, and notes whom PatientID of the outermost data set
/// names, where that is asked. It bars what the other one bars.
#[derive(Drop)]
pub struct WithPatient<'a, S> {
    patient: Option<PatientSink>,
    inner: &'a mut S,
}

/// Nobody is noted, or where that is asked, before the first token.
fn noting(asked: bool) -> Option<PatientSink>
    ensures { result ≡ spec.noting asked }
{
    if asked {
        Some(PatientSink::new())
    } else {
        None
    }
}

/// Whether PatientID names nobody. The data set has ended or has not.
fn is_unnamed(patient: &PatientSink, closed: bool) -> bool
    ensures { result ≡ spec.state_unnamed patient.now closed }
{
    match patient.naming() {
        Naming::NotYet => closed,
        Naming::Opened => false,
        Naming::Ended => patient.patient().is_empty(),
        Naming::Nobody => true,
    }
}

impl<'a, S: Sink> WithPatient<'a, S> {
    /// Before the first token.
    pub fn new(asked: bool, inner: &'a mut S) -> Self
        ensures same_reference { result.inner.ghost_name ≡ inner.entry.ghost_name }
        ensures inner { result.inner.now ≡ inner.old }
        ensures patient { result.patient ≡ spec.noting asked }
    {
        WithPatient {
            patient: noting(asked),
            inner,
        }
    }

    /// Whether it was asked, and PatientID names nobody as far as the data set was read. That has ended or has not.
    pub fn names_nobody(&self, closed: bool) -> bool
        ensures { result ≡ spec.is_unnamed self.now.patient closed }
    {
        match &self.patient {
            Some(patient) => is_unnamed(patient, closed),
            None => false,
        }
    }
}

/// Notes a token.
#[inline(always)]
fn note(patient: &mut Option<PatientSink>, token: Token)
    ensures { patient.new ≡ fold spec.noted patient.old (atoms_of token.entry) }
{
    match patient {
        Some(patient) => patient.go_on(token),
        None => {}
    }
}

/// Notes an element with its whole value.
#[inline(always)]
fn note_whole(patient: &mut Option<PatientSink>, head: Head, syntax: Syntax, value: &[u8])
    ensures { patient.new ≡ fold spec.noted patient.old (whole_atoms head syntax value.now) }
{
    match patient {
        Some(patient) => patient.go_on_whole(head, syntax, value),
        None => {}
    }
}

impl<'a, S: Sink> Sink for WithPatient<'a, S> {
    ghost State = { Option PatientState × S.State };

    ghost state = { λ e. (e.patient, S.state e.inner.now) };

    ghost step = { spec.noting_step S.step };

    ghost writes = { spec.noting_writes S.writes };

    ghost bar = { spec.noting_bar S.bar };

    ghost contents = { λ e. S.contents e.inner.now };

    ghost has_failed = { λ e. S.has_failed e.inner.now };

    ghost Kept = { GName × S.Kept };

    ghost kept = { λ e. (e.inner.ghost_name, S.kept e.inner.now) };

    #[inline(always)]
    fn take(&mut self, token: Token) -> Result<(), WriteFailed> {
        note(&mut self.patient, token);
        self.inner.take(token)
    }

    #[inline(always)]
    fn take_whole(&mut self, head: Head, syntax: Syntax, value: &[u8]) -> Result<(), WriteFailed> {
        note_whole(&mut self.patient, head, syntax, value);
        self.inner.take_whole(head, syntax, value)
    }

    #[inline(always)]
    fn wants_items_apart(&self) -> bool {
        self.inner.wants_items_apart()
    }

    #[inline(always)]
    fn accepts(&self, head: &Head) -> Result<(), Bar> {
        self.inner.accepts(head)
    }
}
