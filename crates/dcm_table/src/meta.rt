// The elements of the meta group in the cells.
ghost use Rattle.std.specs.Prelude.{◌≡◌, ◌≤◌, fold, length};
ghost use Rattle.dcm_base.specs.File.MetaGroup.{META_LIMIT};
ghost use Rattle.dcm_head.specs.Rewriting.{OfElements};
ghost use Rattle.dcm_table.specs.Meta as spec;
ghost use Rattle.dcm_table.specs.TableSink as sink;

use crate::cells::Cells;
use dcm_base::{Dictionary, Length, Syntax};
use dcm_head::{Head, MetaElement, first_element};

/// Gives the cells an element of the meta group, which is spelled in explicit little endian (PS3.10 7.1).
fn take_element(element: MetaElement, cells: &mut Cells)
    requires { length element.value.now ≤ META_LIMIT }
    ensures { cells.new ≡ fold sink.next cells.old (spec.element_atoms element.entry.tag element.entry.vr
        element.entry.value.now) }
{
    let length = Length::Known(element.value.len() as u32);
    let head = Head {
        tag: element.tag,
        vr: element.vr,
        length,
    };
    cells.go_on_whole(head, Syntax::Little(Dictionary::Standard), element.value);
}

/// Gives the cells the elements of the meta group, before those of the data set.
pub fn take_meta(group: &[u8], cells: &mut Cells)
    requires { length group.now ≤ META_LIMIT }
    ensures takes { OfElements group.now (λ elements. cells.new ≡ fold sink.next cells.old
        (spec.meta_atoms elements)) }
    ensures kept { sink.cleared cells.new ≡ sink.cleared cells.old }
{
    let mut rest = group;
    while let Some(element) = first_element(rest) {
        take_element(element, cells);
        rest = element.after;
    }
}
