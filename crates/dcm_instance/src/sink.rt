// The sink that looks for the unique identifiers of an instance.
ghost use Rattle.std.specs.Prelude.{◌≡◌, None, false, fold};
ghost use Rattle.dcm_stream.specs.Tokens.{atoms_of};
ghost use Rattle.dcm_instance.specs.UidSink as spec;
ghost use Rattle.dcm_instance.specs.Uids as uids;

use crate::names::{Instance, InstanceUid, NoInstance};
use crate::value::UidValue;
use dcm_base::{Form, Syntax, Tag, WriteFailed};
use dcm_deid::form_after;
use dcm_head::Head;
use dcm_stream::{Bar, Sink, Skip, Token};
use std::marker::Model;

/// Whether an element belongs behind SeriesInstanceUID, the last of the three.
fn is_behind(tag: Tag) -> bool
    ensures { result ≡ uids.is_behind tag }
{
    InstanceUid::Series.tag().is_below(tag)
}

/// Whether it is the element of this unique identifier, before a value.
fn is_own(which: InstanceUid, tag: Tag, form: Form) -> bool
    ensures { result ≡ spec.is_own (uids.uid_tag which) tag form }
{
    tag == which.tag() && form == Form::Value
}

/// A sink that holds the values of the three unique identifiers at the outermost level. It bars nothing, and takes no
/// more once it knows.
#[derive(Drop)]
pub(crate) struct UidSink {
    skip: Skip,
    is_past: bool,
    study: UidValue,
    series: UidValue,
    instance: UidValue,
}

impl Model for UidSink {
    ghost use Rattle.dcm_instance.specs.UidSink.{UidState};
    ghost use Rattle.dcm_stream.specs.Skip.{depth};

    ghost Value = { UidState };

    ghost view = { λ u. record {
      depth = depth u.skip;
      is_past = u.is_past;
      study = u.study;
      series = u.series;
      instance = u.instance;
    } };
}

impl UidSink {
    /// Before the first token.
    pub(crate) fn new() -> UidSink
        ensures { result ≡ spec.uids_begun }
    {
        UidSink {
            skip: Skip::nothing(),
            is_past: false,
            study: UidValue::new(),
            series: UidValue::new(),
            instance: UidValue::new(),
        }
    }

    /// Whether nothing that comes changes what they are.
    pub(crate) fn is_decided(&self) -> bool
        ensures { result ≡ spec.is_decided self.now }
    {
        self.is_past || self.series.has_ended()
    }

    /// The instance that is named so far.
    pub(crate) fn outcome(&self) -> Result<Instance, NoInstance>
        ensures { uids.told result ≡ spec.outcome self.now }
    {
        let Some(study) = self.study.uid() else {
            return Err(NoInstance::Unfit(InstanceUid::Study));
        };
        let Some(series) = self.series.uid() else {
            return Err(NoInstance::Unfit(InstanceUid::Series));
        };
        let Some(instance) = self.instance.uid() else {
            return Err(NoInstance::Unfit(InstanceUid::Instance));
        };
        Ok(Instance {
            study,
            series,
            instance,
        })
    }

    /// After the head of an element.
    fn open(&mut self, tag: Tag, form: Form)
        ensures { self.new ≡ spec.open_at self.old.depth self.old tag form }
    {
        if self.skip.is_open() {
            return;
        }
        self.is_past = is_behind(tag);
        self.study.open(is_own(InstanceUid::Study, tag, form));
        self.series.open(is_own(InstanceUid::Series, tag, form));
        self.instance.open(is_own(InstanceUid::Instance, tag, form));
    }

    /// After bytes of a value.
    fn add(&mut self, bytes: &[u8])
        ensures { self.new ≡ spec.with_bytes self.old bytes.now }
    {
        self.study.add(bytes);
        self.series.add(bytes);
        self.instance.add(bytes);
    }

    /// After the end of a value.
    fn close(&mut self)
        ensures { self.new ≡ record {
          depth = self.old.depth;
          is_past = self.old.is_past;
          study = spec.after_end self.old.study;
          series = spec.after_end self.old.series;
          instance = spec.after_end self.old.instance;
        } }
    {
        self.study.close();
        self.series.close();
        self.instance.close();
    }

    /// After a token, where it matters.
    fn step(&mut self, token: Token)
        ensures { self.new ≡ fold spec.step self.old (atoms_of token.entry) }
    {
        match token {
            Token::Open(head, syntax) => {
                self.open(head.tag, form_after(head, syntax));
                self.skip.open(true);
            }
            Token::Bytes(bytes) => self.add(bytes),
            Token::CloseLeaf => {
                self.close();
                self.skip.close();
            }
            Token::OpenItem(_) | Token::OpenFragment(_) => self.skip.open(true),
            Token::CloseItem | Token::CloseSeq => self.skip.close(),
            Token::End => {}
        }
    }

    /// After a token.
    fn go_on(&mut self, token: Token)
        ensures { self.new ≡ fold spec.uids_next self.old (atoms_of token.entry) }
    {
        if !self.is_decided() {
            self.step(token);
        }
    }
}

impl Sink for UidSink {
    ghost use Rattle.dcm_instance.specs.UidSink.{UidState};

    ghost State = { UidState };

    ghost state = { λ e. e };

    ghost step = { spec.uids_next };

    ghost writes = { spec.writes_nothing };

    ghost bar = { spec.bars_none };

    ghost contents = { λ e. None };

    ghost has_failed = { λ e. false };

    ghost Kept = { Unit {0} };

    ghost kept = { λ e. tt };

    fn take(&mut self, token: Token) -> Result<(), WriteFailed> {
        self.go_on(token);
        Ok(())
    }

    fn accepts(&self, _head: &Head) -> Result<(), Bar> {
        Ok(())
    }
}
