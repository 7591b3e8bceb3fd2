// What is in force of Specific Character Set (0008,0005) where a dump stands.
ghost use Rattle.std.specs.Prelude.{◌≡◌, None, fold, option_map};
ghost use Rattle.dcm_base.specs.Steps.Atoms.{closes_leaf, closes_item};
ghost use Rattle.dcm_stream.specs.Tokens.{atoms_of, whole_atoms};
ghost use Rattle.dcm_sinks.specs.SettingValue as spec;
ghost use Rattle.dcm_sinks.specs.SettingValue.{with_setting};
ghost use Rattle.dcm_sinks.specs.Encoder.{opening};

use crate::character_set::{Setting, default_sets, is_character_set, is_setting};
use arrayvec::ArrayVec;
use dcm_base::{Form, MOST_OPEN, Syntax, form_of, read_as};
use dcm_head::Head;
use dcm_stream::Token;
use dcm_text::Sets;
use std::marker::Model;

/// What is in force, here and around each open item, and the value on its way of an element that sets it
/// (PS3.3 C.12.1.1.2). It also keeps whether such a value named what is not known.
#[derive(Drop)]
pub struct InForce {
    sets: Sets,
    outermost_first: ArrayVec<Sets, MOST_OPEN>,
    setting: Setting,
    unknown: bool,
}

impl Model for InForce {
    ghost use Rattle.std.specs.Prelude.{reverse};
    ghost use Rattle.dcm_sinks.specs.SettingValue.{ForceState, force_by};

    ghost Value = { ForceState };

    ghost view = { λ f. force_by f.sets (reverse f.outermost_first.items) f.setting f.unknown };
}

/// Whether a head is that of a leaf that sets what is in force behind it.
#[inline(never)]
fn opens_setting(head: Head, syntax: Syntax) -> bool
    ensures { result ≡ spec.head_sets head syntax }
{
    match form_of(syntax, read_as(syntax, head.tag, head.vr), head.length) {
        Form::Value => is_setting(head.tag, head.vr),
        Form::Sequence | Form::FragmentList | Form::Nothing => false,
    }
}

impl InForce {
    /// Before the outermost data set.
    pub fn new() -> Self
        ensures { result ≡ spec.force_start }
    {
        InForce {
            sets: default_sets(),
            outermost_first: ArrayVec::new(),
            setting: Setting::new(),
            unknown: false,
        }
    }

    /// Whether a value that is whole names what is not known.
    pub fn has_unknown(&self) -> bool
        ensures { result ≡ self.now.unknown }
    {
        self.unknown
    }

    /// By what a text is read that begins here.
    #[inline(always)]
    pub fn sets(&self) -> &Sets
        ensures { result.now ≡ self.now.sets }
    {
        &self.sets
    }

    /// After an element whose value sets nothing.
    #[inline(always)]
    fn pass(&mut self)
        ensures { self.new ≡ with_setting self.old None }
    {
        self.setting.close();
    }

    /// After the head of an element. It is a call, as is `close`: inlined these rare ones would make what opens an
    /// element a call in the machine's loop.
    #[inline(never)]
    fn open(&mut self, head: Head, syntax: Syntax)
        ensures { self.new ≡ spec.force_step self.old (opening head syntax) }
    {
        self.setting
            .open(is_character_set(head.tag) && opens_setting(head, syntax));
    }

    /// After bytes of a value.
    #[inline(always)]
    fn add(&mut self, bytes: &[u8])
        ensures { self.new ≡ with_setting self.old (option_map
            (λ value. fold spec.with_setting_byte value bytes.now) self.old.setting) }
    {
        self.setting.add(bytes);
    }

    /// After the end of a value: one that sets what is in force does so from here on.
    #[inline(never)]
    fn close(&mut self)
        ensures { self.new ≡ spec.force_step self.old closes_leaf }
    {
        self.unknown = self.setting.names_unknown() || self.unknown;
        if let Some(sets) = self.setting.sets() {
            self.sets = sets;
        }
        self.setting.close();
    }

    /// After the beginning of an item.
    fn enter(&mut self)
        ensures { self.new ≡ spec.item_entered self.old }
    {
        if self.outermost_first.len() < MOST_OPEN {
            self.outermost_first.push(self.sets);
        }
    }

    /// After the end of an item: what is in force around it is in force again.
    fn leave(&mut self)
        ensures { self.new ≡ spec.force_step self.old closes_item }
    {
        if let Some(outside) = self.outermost_first.pop() {
            self.sets = outside;
        }
    }

    /// After a token.
    #[inline(always)]
    pub fn take(&mut self, token: Token)
        ensures { self.new ≡ fold spec.force_step self.old (atoms_of token.entry) }
    {
        match token {
            Token::Open(head, syntax) => self.open(head, syntax),
            Token::Bytes(bytes) => self.add(bytes),
            Token::CloseLeaf => self.close(),
            Token::OpenItem(_) => self.enter(),
            Token::CloseItem => self.leave(),
            Token::CloseSeq | Token::OpenFragment(_) | Token::End => (),
        }
    }

    /// After an element whose value is whole, and may set what is in force.
    #[inline(never)]
    fn take_setting(&mut self, head: Head, syntax: Syntax, value: &[u8])
        ensures { self.new ≡ fold spec.force_step self.old (whole_atoms head syntax value.now) }
    {
        self.open(head, syntax);
        self.add(value);
        self.close();
    }

    /// After an element whose value is whole, as by `take` for its head, its bytes and its end.
    #[inline(always)]
    pub fn take_whole(&mut self, head: Head, syntax: Syntax, value: &[u8])
        ensures { self.new ≡ fold spec.force_step self.old (whole_atoms head syntax value.now) }
    {
        if is_character_set(head.tag) {
            self.take_setting(head, syntax, value);
        } else {
            self.pass();
        }
    }
}
