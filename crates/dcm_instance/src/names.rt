// The unique identifiers that name an instance.
ghost use Rattle.std.specs.Prelude.{◌≡◌, ◌≤◌, ◌+◌, ◌++◌, length, option_map};
ghost use Rattle.std.specs.List.{list_all};
ghost use Rattle.dcm_uid.specs.Uid.{is_uid_byte as is_of_uid};
ghost use Rattle.dcm_instance.specs.Uids as spec;

use arrayvec::ArrayVec;
use dcm_base::Tag;
use dcm_bytes::append;
use dcm_head::without_pads;

/// The most bytes of a unique identifier (PS3.5 6.2).
pub const MOST_OF_UID: usize = 64;

/// The most bytes of the name of an instance: three unique identifiers, two slashes, and `.dcm`.
pub const MOST_OF_INSTANCE_NAME: usize = 3 * MOST_OF_UID + 6;

/// A unique identifier, without padding.
pub type Uid = ArrayVec<u8, MOST_OF_UID>;

/// The three UIDs that name an instance.
#[derive(Clone, Copy, Debug, PartialEq, Eq)]
pub enum InstanceUid {
    /// StudyInstanceUID (PS3.3 C.7.2.1).
    Study,
    /// SeriesInstanceUID (PS3.3 C.7.3.1).
    Series,
    /// SOPInstanceUID (PS3.3 C.12.1).
    Instance,
}

impl InstanceUid {
    /// The keyword of the UID in the dictionary (PS3.6 6).
    pub fn keyword(self) -> &'static [u8]
        ensures { result.now ≡ spec.keyword self }
    {
        match self {
            InstanceUid::Study => b"StudyInstanceUID".as_slice(),
            InstanceUid::Series => b"SeriesInstanceUID".as_slice(),
            InstanceUid::Instance => b"SOPInstanceUID".as_slice(),
        }
    }

    /// Its tag.
    pub(crate) fn tag(self) -> Tag
        ensures { result ≡ spec.uid_tag self }
    {
        match self {
            InstanceUid::Study => Tag {
                group: 0x0020,
                element: 0x000D,
            },
            InstanceUid::Series => Tag {
                group: 0x0020,
                element: 0x000E,
            },
            InstanceUid::Instance => Tag {
                group: 0x0008,
                element: 0x0018,
            },
        }
    }
}

/// The three unique identifiers of an instance, each of digits and points, and neither `.` nor `..`.
#[derive(Drop)]
pub struct Instance {
    pub study: Uid,
    pub series: Uid,
    pub instance: Uid,
}

/// Why a file names no instance.
#[derive(Clone, Copy, Debug, PartialEq, Eq)]
pub enum NoInstance {
    /// The first UID, in the order of `InstanceUid`, that is missing or cannot be a name.
    Unfit(InstanceUid),
    /// Reading failed before all three UIDs were read.
    Unread,
}

impl Instance {
    /// The name of the instance below a folder: STUDY/SERIES/INSTANCE.dcm.
    pub fn name(&self) -> ArrayVec<u8, MOST_OF_INSTANCE_NAME>
        ensures { result.items ≡ spec.instance_name (spec.uids_of self.now) }
    {
        let mut name = ArrayVec::new();
        append(self.study.as_slice(), &mut name);
        append(b"/", &mut name);
        append(self.series.as_slice(), &mut name);
        append(b"/", &mut name);
        append(self.instance.as_slice(), &mut name);
        append(b".dcm", &mut name);
        name
    }
}

/// Whether a byte is a digit or a point.
fn is_of_uid(byte: u8) -> bool
    ensures { result ≡ is_of_uid byte }
{
    byte == b'.' || (b'0' <= byte && byte <= b'9')
}

/// Whether all are digits and points.
fn are_of_uid(bytes: &[u8]) -> bool
    ensures { result ≡ list_all is_of_uid bytes.now }
{
    bytes.iter().all(|byte| is_of_uid(*byte))
}

/// Whether it names the folder that it stands in, or the one above.
fn names_a_folder(uid: &[u8]) -> bool
    ensures { result ≡ spec.names_a_folder uid.now }
{
    uid == b".".as_slice() || uid == b"..".as_slice()
}

/// Whether bytes are a unique identifier that is fit for a name.
fn is_fit(uid: &[u8]) -> bool
    ensures { result ≡ spec.is_fit uid.now }
{
    !uid.is_empty() && uid.len() <= MOST_OF_UID && are_of_uid(uid) && !names_a_folder(uid)
}

/// The unique identifier of a value, if it is fit for a name.
pub(crate) fn fit(value: &[u8]) -> Option<Uid>
    ensures { option_map (λ uid. uid.items) result ≡ spec.fit value.now }
{
    let uid = without_pads(value);
    if !is_fit(uid) {
        return None;
    }
    let mut kept = ArrayVec::new();
    append(uid, &mut kept);
    Some(kept)
}
