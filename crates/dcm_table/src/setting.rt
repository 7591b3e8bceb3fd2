// Which elements of a file's data set set what is in force (PS3.3 C.12.1.1.2).
ghost use Rattle.std.specs.Prelude.{◌≡◌};
ghost use Rattle.dcm_table.specs.Slots.{setting_of};
ghost use Rattle.dcm_table.specs.TableSink as spec;

use dcm_base::Length;
use dcm_head::Head;
use dcm_sinks::{Setting, is_setting};

/// Whether a head is that of a leaf that sets what is in force.
#[inline(always)]
pub fn opens_setting(head: &Head) -> bool
    ensures { result ≡ spec.opens_setting head.now.tag head.now.vr head.now.length }
{
    match head.length {
        Length::Known(_) => is_setting(head.tag, head.vr),
        Length::Undefined => false,
    }
}

/// After the head of an element of the outermost level.
#[inline(always)]
pub fn open_setting(setting: &mut Setting, head: &Head)
    ensures { setting_of setting.new ≡ spec.setting_opened
        (spec.opens_setting head.now.tag head.now.vr head.now.length) (setting_of setting.old) }
{
    if opens_setting(head) {
        setting.open(true);
    }
}
