// The value of Specific Character Set (0008,0005) that is on its way (PS3.3 C.12.1.1.2).
ghost use Rattle.std.specs.Prelude.{◌≡◌, None, fold, option_map};
ghost use Rattle.dcm_sinks.specs.InForce as in_force;
ghost use Rattle.dcm_sinks.specs.SettingValue as spec;
ghost use Rattle.dcm_sinks.specs.SettingValue.{setting_of};
ghost use Rattle.dcm_text.specs.Sets.{sets_of as sets_named};

use arrayvec::ArrayVec;
use dcm_base::{Tag, Vr};
use dcm_text::{Sets, is_known, sets_of};

/// Specific Character Set.
const CHARACTER_SET: Tag = Tag {
    group: 0x0008,
    element: 0x0005,
};

/// The bytes of a value that are kept: of a longer one it counts that it is longer than 512 bytes.
const SETTING_LIMIT: usize = 513;

/// The value of an element that sets what is in force, on its way where it is open.
#[derive(Drop)]
pub struct Setting {
    pub is_open: bool,
    pub value: ArrayVec<u8, SETTING_LIMIT>,
}

/// What the empty value names: bytes from 80 on have no character.
pub fn default_sets() -> Sets
    ensures { result ≡ in_force.EMPTY }
{
    Sets::DEFAULT
}

/// Whether a value of a representation may set what is in force: texts, unique identifiers and unknown values.
fn may_set(vr: Vr) -> bool
    ensures { result ≡ in_force.may_set vr }
{
    match vr {
        Vr::UI | Vr::UN => true,
        _ => vr.is_text(),
    }
}

/// Whether an element is Specific Character Set.
pub fn is_character_set(tag: Tag) -> bool
    ensures { result ≡ in_force.is_character_set tag }
{
    tag == CHARACTER_SET
}

/// Whether a leaf sets what is in force behind it.
pub fn is_setting(tag: Tag, vr: Vr) -> bool
    ensures { result ≡ in_force.is_setting tag vr }
{
    is_character_set(tag) && may_set(vr)
}

/// Keeps a byte, where there is room.
fn keep_byte(value: &mut ArrayVec<u8, SETTING_LIMIT>, byte: u8)
    ensures { value.new.items ≡ spec.with_setting_byte value.old.items byte }
{
    if value.len() < SETTING_LIMIT {
        value.push(byte);
    }
}

/// Keeps bytes, as far as there is room.
fn keep(value: &mut ArrayVec<u8, SETTING_LIMIT>, bytes: &[u8])
    ensures { value.new.items ≡ fold spec.with_setting_byte value.old.items bytes.now }
{
    for byte in bytes {
        keep_byte(value, *byte);
    }
}

impl Setting {
    /// None is on its way.
    pub fn new() -> Setting
        ensures { setting_of result ≡ None }
    {
        Setting {
            is_open: false,
            value: ArrayVec::new(),
        }
    }

    /// After the head of an element, whose value sets what is in force or not.
    #[inline(always)]
    pub fn open(&mut self, sets: bool)
        ensures { setting_of self.new ≡ spec.setting_opened sets }
    {
        self.is_open = sets;
        if sets {
            self.value.clear();
        }
    }

    /// After bytes of a value.
    #[inline(always)]
    pub fn add(&mut self, bytes: &[u8])
        ensures { setting_of self.new ≡ option_map
            (λ value. fold spec.with_setting_byte value bytes.now) (setting_of self.old) }
    {
        if self.is_open {
            keep(&mut self.value, bytes);
        }
    }

    /// The sets that the value names, where it is on its way.
    #[inline(always)]
    pub fn sets(&self) -> Option<Sets>
        ensures { result ≡ option_map (λ value. sets_named value) (setting_of self.now) }
    {
        if !self.is_open {
            return None;
        }
        Some(sets_of(self.value.as_slice()))
    }

    /// Whether the value is on its way, and names what is not known.
    #[inline(always)]
    pub fn names_unknown(&self) -> bool
        ensures { result ≡ spec.names_unknown (setting_of self.now) }
    {
        self.is_open && !is_known(self.value.as_slice())
    }

    /// After the end of a value.
    #[inline(always)]
    pub fn close(&mut self)
        ensures { setting_of self.new ≡ None }
    {
        self.is_open = false;
    }
}
