// The key of what is made anew.
ghost use Rattle.std.specs.Prelude.{◌≡◌, ◌≤◌, length};
ghost use Rattle.dcm_base.specs.Tables.Transfer.{without_pads};
ghost use Rattle.dcm_uid.specs.Hmac.{IsKey};
ghost use Rattle.dcm_uid.specs.Uid as spec;
ghost use Rattle.dcm_deid.specs.DeidentifySink as sink;
ghost use Rattle.dcm_deid.specs.DeidentifySink.{made_of};
ghost use Rattle.dcm_deid.specs.MadeNew as making;
ghost use Rattle.dcm_deid.specs.declared.fate.Fate.TheVariants.{Anew};

use crate::fate::{NewValue, Options, Temporal};
use arrayvec::ArrayVec;
use dcm_base::Vr;
use dcm_dates::{DateKind, MOST_HELD, moved};
use dcm_head::without_pads;
use dcm_uid::{Key, new_value, pseudonym};

/// The most bytes of a unique identifier (PS3.5 6.2).
const MOST_OF_UID: usize = 64;

/// The same bytes, where more have room.
fn widened(bytes: &[u8]) -> ArrayVec<u8, MOST_HELD>
    requires { length bytes.now ≤ 256 }
    ensures { result.items ≡ bytes.now }
{
    let mut wide = ArrayVec::new();
    match wide.try_extend_from_slice(bytes) {
        Ok(()) => wide,
        Err(_) => unreachable!(),
    }
}

/// By how many days dates are moved.
fn days_of(dates: Temporal) -> i32
    ensures { result ≡ making.days_of dates }
{
    match dates {
        Temporal::Removed | Temporal::Full => 0,
        Temporal::Modified(days) => days,
    }
}

/// Whether moved dates are nothing.
fn come_to_nothing(options: &Options, made: NewValue, dates: &[u8]) -> bool
    ensures { result ≡ sink.come_to_nothing options.now made dates.now }
{
    let days = days_of(options.dates);
    match made {
        NewValue::Uid | NewValue::Pseudonym => false,
        NewValue::MovedDate => moved(DateKind::Da, days, dates).is_empty(),
        NewValue::MovedDateTime => moved(DateKind::Dt, days, dates).is_empty(),
    }
}

/// Whether dates become empty that have more than padding.
pub fn vanish(options: &Options, made: NewValue, value: &[u8]) -> bool
    ensures { result ≡ sink.vanish options.now made value.now }
{
    let dates = without_pads(value);
    !dates.is_empty() && come_to_nothing(options, made, dates)
}

/// The bytes of a key, and what was prepared of them once.
#[derive(Drop)]
pub struct UidKey<'a> {
    pub bytes: &'a [u8],
    pub prepared: Key,
    ghost is_key: { ∥ IsKey prepared bytes.now ∥₁ },
}

impl<'a> UidKey<'a> {
    /// The key of these bytes, of any number.
    pub fn new(bytes: &'a [u8]) -> UidKey<'a>
        ensures { result.bytes.now ≡ bytes.now }
    {
        UidKey {
            bytes,
            prepared: Key::new(bytes),
        }
    }

    /// The new UID for a UID, without padding.
    pub fn new_value(&self, value: &[u8]) -> ArrayVec<u8, MOST_OF_UID>
        ensures { result.items ≡ spec.new_value self.now.bytes.now value.now }
    {
        new_value(&self.prepared, value)
    }

    /// The new value for a value, without padding.
    pub fn made_new(
        &self,
        options: &Options,
        made: NewValue,
        value: &[u8],
    ) -> ArrayVec<u8, MOST_HELD>
        ensures { result.items ≡ making.made_new options.now self.now.bytes.now made (without_pads value.now) }
    {
        let days = days_of(options.dates);
        match made {
            NewValue::Uid => widened(self.new_value(value).as_slice()),
            NewValue::Pseudonym => widened(pseudonym(&self.prepared, value).as_slice()),
            NewValue::MovedDate => moved(DateKind::Da, days, without_pads(value)),
            NewValue::MovedDateTime => moved(DateKind::Dt, days, without_pads(value)),
        }
    }

    /// The new value for a value, padded to an even number of bytes by its VR.
    pub fn made_whole(
        &self,
        options: &Options,
        made: NewValue,
        vr: Vr,
        value: &[u8],
    ) -> ArrayVec<u8, MOST_HELD>
        ensures { result.items ≡ made_of (making.made_new options.now self.now.bytes.now) (Anew made) vr value.now }
    {
        let mut new = self.made_new(options, made, value);
        if new.len() % 2 == 1 {
            new.push(vr.pad());
        }
        new
    }
}
