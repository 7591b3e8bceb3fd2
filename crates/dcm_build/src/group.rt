// The meta group of a file that is built, as it grows (PS3.10 7.1).
ghost use Rattle.std.specs.Prelude.{◌≡◌, ◌+◌, ◌≤◌, ◌∷◌, ◌++◌, [], nat_lt, length};
ghost use Rattle.dcm_base.specs.Lines.Build.{named_coding, named_syntax, usable as usable_coding};
ghost use Rattle.dcm_devices.specs.Writing.{Wrote};
ghost use Rattle.dcm_base.specs.Bytes.Head.{head_size};
ghost use Rattle.dcm_base.specs.File.MetaGroup as meta;
ghost use Rattle.dcm_base.specs.File.MetaReads.{syntax_value as value_named};
ghost use Rattle.dcm_base.specs.Lines.ReadValue.{VALUE_LIMIT};
ghost use Rattle.dcm_base.specs.Reading.Size.{trees_size};
ghost use Rattle.dcm_base.specs.Bytes.Spelling.{form};
ghost use Rattle.dcm_base.specs.declared.form.Form.TheVariants.{Value as a_value};
ghost use Rattle.dcm_base.specs.declared.length.Length.TheVariants.{Known};
ghost use Rattle.dcm_base.specs.Tables.Syntax.{Little};
ghost use Rattle.dcm_build.specs.NewGroup.{file_head, shown, trees_of};
ghost use Rattle.dcm_head.specs.Rewriting.{OfElements};

use arrayvec::ArrayVec;
use dcm_base::{
    Coding, DeviceOut, Length, META_GROUP, Syntax, Tag, Vr, Watched, WriteFailed, coding_of,
    put_parts,
};
use dcm_head::{
    Head, LONG_HEAD, META_LIMIT, PREAMBLE, PREFIX, SHORT_HEAD, SyntaxUid, element_head,
    first_element, without_pads, write_meta,
};
use std::marker::Model;

/// A preamble that says nothing.
const EMPTY_PREAMBLE: [u8; PREAMBLE] = [0; PREAMBLE];

/// The elements that the lines of the group have shown, as they are spelled in explicit little endian.
#[derive(Drop)]
pub struct NewGroup {
    spelled: ArrayVec<u8, META_LIMIT>,
}

impl Model for NewGroup {
    ghost use Rattle.std.specs.Prelude.{List};
    ghost use Rattle.dcm_build.specs.NewGroup.{Shown, elements_of, IsGroup};

    ghost Value = { List Shown };

    ghost view = { λ g. elements_of g.spelled.items };

    ghost invariant = { λ g. IsGroup g.spelled.items };
}

/// The coding that a transfer syntax means, unless it is empty or deflated.
fn usable(uid: &[u8]) -> Option<Coding>
    ensures { result ≡ usable_coding uid.now }
{
    if uid.is_empty() {
        return None;
    }
    coding_of(uid).ok()
}

/// The value of the first element of a group that names a transfer syntax, and nothing where none does.
fn syntax_value(group: &[u8]) -> &[u8]
    requires { length group.now ≤ meta.META_LIMIT }
    ensures value { OfElements group.now (λ elements. result.now ≡ value_named elements) }
    ensures within { length result.now ≤ meta.META_LIMIT }
{
    let mut rest = group;
    'elements: while let Some(first) = first_element(rest) {
        if first.tag.names_syntax() {
            return first.value;
        }
        rest = first.after;
    }
    &[]
}

/// The bytes of an element with a value of this size.
pub fn element_size(vr: Vr, size: usize) -> usize
    requires { size ≤ VALUE_LIMIT }
    ensures { result ≡ head_size Little vr + size }
{
    let head = if vr.is_long() { LONG_HEAD } else { SHORT_HEAD };
    head + size
}

fn extend(spelled: &mut ArrayVec<u8, META_LIMIT>, bytes: &[u8])
    requires { length spelled.old.items + length bytes.now ≤ meta.META_LIMIT }
    ensures { spelled.new.items ≡ spelled.old.items ++ bytes.now }
{
    let _ = spelled.try_extend_from_slice(bytes);
}

impl NewGroup {
    /// No element has been shown.
    pub fn new() -> Self
        ensures { result ≡ [] }
    {
        NewGroup {
            spelled: ArrayVec::new(),
        }
    }

    /// Whether so many bytes more are too much for the group (DECISIONS, D-15).
    pub fn is_full_for(&self, size: usize) -> bool
        ensures { result ≡ nat_lt meta.META_LIMIT (trees_size Little (trees_of self.now) + size) }
    {
        size > META_LIMIT - self.spelled.len()
    }

    /// Adds an element.
    pub fn push(&mut self, tag: Tag, vr: Vr, value: &[u8])
        requires group { tag.group ≡ META_GROUP }
        requires form { form Little vr (Known (length value.now)) ≡ a_value }
        requires room { trees_size Little (trees_of self.old) + (head_size Little vr + length value.now)
            ≤ meta.META_LIMIT }
        ensures { self.new ≡ self.old ++ shown tag vr value.now ∷ [] }
    {
        let length = Length::Known(value.len() as u32);
        let head = element_head(Syntax::LITTLE, &Head { tag, vr, length });
        extend(&mut self.spelled, head.as_slice());
        extend(&mut self.spelled, value);
    }

    /// The first transfer syntax that is named, without pad bytes.
    fn transfer_syntax(&self) -> &[u8]
        ensures value { result.now ≡ named_syntax (trees_of self.now) }
        ensures within { length result.now ≤ meta.META_LIMIT }
    {
        without_pads(syntax_value(self.spelled.as_slice()))
    }

    /// The coding that the transfer syntax in the group means.
    pub fn coding(&self) -> Option<Coding>
        ensures { result ≡ named_coding (trees_of self.now) }
    {
        usable(self.transfer_syntax())
    }

    /// Writes what is before a data set: a preamble of zeros, the prefix, and the group with its length.
    pub fn put<W: DeviceOut>(&self, out: &mut Watched<W>) -> Result<(), WriteFailed>
        ensures { Wrote W.DeviceOut out.old out.new (file_head self.now) result }
    {
        put_parts(out, &[&EMPTY_PREAMBLE, PREFIX])?;
        let Some(uid) = SyntaxUid::new(self.transfer_syntax()) else {
            unreachable!()
        };
        write_meta(&self.spelled, &uid, out)
    }
}
