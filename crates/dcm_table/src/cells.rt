// The cells of all columns: a sink that holds what a row shows of a file.
ghost use Rattle.std.specs.Prelude.{◌≡◌, ◌<◌, ◌||◌, ℕ, List, true, false, None, length, fold, map, option_map, IfOk};
ghost use Rattle.dcm_table.specs.Cell.{missing};
ghost use Rattle.std.specs.List.{list_any};
ghost use Rattle.dcm_base.specs.Tables.Tag.{same_tag};
ghost use Rattle.dcm_table.specs.declared.slot.Slot.{Slot as HeldSlot};
ghost use Rattle.dcm_base.specs.Steps.Atoms.{closes_leaf, value_byte};
ghost use Rattle.dcm_stream.specs.Skip.{depth as open_things};
ghost use Rattle.dcm_stream.specs.Tokens.{atoms_of, whole_atoms};
ghost use Rattle.dcm_stream.specs.declared.token.Token.TheVariants.{Open};
ghost use Rattle.dcm_table.specs.Columns.{tags_of};
ghost use Rattle.dcm_table.specs.Index as places;
ghost use Rattle.dcm_table.specs.Row as row;
ghost use Rattle.dcm_table.specs.InForce.{EMPTY};
ghost use Rattle.dcm_table.specs.Slots.{slot_of, slots_of};
ghost use Rattle.dcm_sinks.specs.SettingValue.{names_unknown};
ghost use Rattle.dcm_table.specs.TableSink as spec;

use crate::column::{Column, Columns};
use crate::index::{Index, Span};
use crate::setting::{open_setting, opens_setting};
use crate::slot::Slot;
use dcm_base::{Syntax, Tag, WriteFailed};
use dcm_head::Head;
use dcm_sinks::Setting;
use dcm_stream::{Bar, Sink, Skip, Token};
use dcm_text::Sets;
use std::alloc::{AllocError, Global};
use std::marker::Model;

/// The cells of a table's columns: of each the first element of its tag at the outermost level of a file. They are
/// the sink of a machine that reads it. They bar the first head of that level whose tag is above all columns. They also
/// keep whether a value of Specific Character Set named what is not known.
#[derive(Drop)]
pub struct Cells {
    slots: Vec<Slot>,
    depth: Skip,
    greatest: Tag,
    index: Index,
    busy: Span,
    setting: Setting,
    unknown: bool,
    ghost indexed: { places.has_each index 0 (slots_of slots.items) ≡ true },
    ghost idle: { places.holds_busy busy 0 (slots_of slots.items) ≡ true },
}

impl Model for Cells {
    ghost use Rattle.dcm_table.specs.Slots.{state_by};
    ghost use Rattle.dcm_table.specs.TableSink.{State};

    ghost Value = { State };

    ghost view = { λ c. state_by c.depth c.greatest c.slots.items c.setting c.unknown };
}

/// An empty cell for each column.
fn slots_for(alloc: Global, columns: &[Column]) -> Result<Vec<Slot>, AllocError>
    ensures { IfOk result (λ slots. slots_of slots.items
        ≡ spec.begun_slots (map (λ (c : Column). c.tag) columns.now)) }
{
    let mut slots = Vec::new(alloc);
    for column in columns {
        slots.push(Slot::new(alloc, column.tag)?)?;
    }
    Ok(slots)
}

/// Each cell after a token, of which a head is one of the outermost level.
fn take_each(slots: &mut [Slot], token: Token)
    ensures { slots_of slots.new ≡ map (λ (c : spec.Slot). fold spec.slot_step c (atoms_of token.entry))
        (slots_of slots.old) }
{
    for slot in slots.iter_mut() {
        slot.take(token);
    }
}

/// The cells of a run after a token, of which a head is one of the outermost level.
#[inline(always)]
fn take_in_span(slots: &mut [Slot], span: Span, token: Token)
    ensures changed { slots_of slots.new ≡ places.changed_in (λ (c : spec.Slot). fold spec.slot_step c
        (atoms_of token.entry)) span 0 (slots_of slots.old) }
    ensures size { length slots.new ≡ length slots.old }
{
    if span.first < span.after {
        let after = usize::from(span.after).min(slots.len());
        let first = usize::from(span.first).min(after);
        take_each(&mut slots[first..after], token);
    }
}

/// Each cell where nothing was read.
fn clear_each(slots: &mut [Slot])
    ensures { slots_of slots.new ≡ map (λ (c : spec.Slot). (c.0, missing, EMPTY)) (slots_of slots.old) }
{
    for slot in slots.iter_mut() {
        slot.clear();
    }
}

/// Each cell after the end of a value that names these sets.
fn set_each(slots: &mut [Slot], sets: Sets)
    ensures { slots_of slots.new ≡ map (λ (c : spec.Slot). spec.slot_set sets c) (slots_of slots.old) }
{
    for slot in slots.iter_mut() {
        slot.set(sets);
    }
}

/// Whether one of the columns has this tag.
fn has_tag(slots: &[Slot], tag: Tag) -> bool
    ensures { result ≡ list_any (λ (c : HeldSlot). same_tag c.tag tag) slots.now }
{
    slots.iter().any(|slot| slot.tag == tag)
}

/// The tag by which a column is reported, after these columns.
fn reported_after(before: &[Slot], slot: &Slot) -> Option<Tag>
    ensures { result ≡ row.reported_after (slots_of before.now) (slot_of slot.now) }
{
    if !slot.is_too_long() {
        return None;
    }
    if has_tag(before, slot.tag) {
        return None;
    }
    Some(slot.tag)
}

impl Cells {
    /// Empty cells for these columns. Fails where there is no memory for them: 16,384 bytes for each column.
    pub fn new(alloc: Global, columns: &Columns) -> Result<Cells, AllocError>
        ensures { IfOk result (λ cells. cells ≡ spec.begun (tags_of columns.now)) }
    {
        let greatest = columns.greatest();
        let slots = slots_for(alloc, columns.as_slice())?;
        let index = Index::new(slots.as_slice());
        Ok(Cells {
            slots,
            depth: Skip::nothing(),
            greatest,
            index,
            busy: Span::NONE,
            setting: Setting::new(),
            unknown: false,
        })
    }

    /// Makes all cells empty, before the next file.
    pub fn clear(&mut self)
        ensures { self.new ≡ spec.cleared self.old }
    {
        self.depth = Skip::nothing();
        self.busy = Span::NONE;
        self.setting.close();
        self.unknown = false;
        clear_each(self.slots.as_mut_slice());
    }

    /// Whether a value of Specific Character Set that was read named what is not known.
    pub fn has_unknown(&self) -> bool
        ensures { result ≡ self.now.unknown }
    {
        self.unknown
    }

    /// How many columns there are.
    pub fn len(&self) -> usize
        ensures { result ≡ length self.now.slots }
    {
        self.slots.len()
    }

    /// The cells, each with the tag of its column.
    pub(crate) fn slots(&self) -> &[Slot]
        ensures { slots_of result.now ≡ self.now.slots }
    {
        self.slots.as_slice()
    }

    /// The tag of a column, where its value is whole and longer than a cell, and no column before has that tag.
    pub fn reported(&self, column: usize) -> Option<Tag>
        requires { column < length self.now.slots }
        ensures { result ≡ row.reported self.now.slots column }
    {
        let slots = self.slots.as_slice();
        let slot = &slots[column];
        let (before, _) = slots.split_at(column);
        reported_after(before, slot)
    }

    /// Offers an element of the outermost level to the columns of its tag.
    fn offer(&mut self, head: Head, syntax: Syntax)
        ensures { self.new ≡ record self.old {
          slots = map (λ (c : spec.Slot). fold spec.slot_step c
              (atoms_of (Open head syntax))) self.old.slots;
        } }
    {
        self.busy = self.busy.with(self.index.span_of(head.tag));
        take_in_span(
            self.slots.as_mut_slice(),
            self.busy,
            Token::Open(head, syntax),
        );
    }

    /// Goes on after bytes of a value.
    fn add(&mut self, bytes: &[u8])
        ensures { self.new ≡ record self.old {
          slots = map (λ (c : spec.Slot). fold spec.slot_step c
              (map value_byte bytes.now)) self.old.slots;
          setting = option_map (λ value. fold spec.with_setting_byte value bytes.now)
              self.old.setting;
        } }
    {
        take_in_span(self.slots.as_mut_slice(), self.busy, Token::Bytes(bytes));
        self.setting.add(bytes);
    }

    /// Goes on after the end of a value.
    fn close(&mut self)
        ensures { self.new ≡ record self.old {
          slots = map (λ (c : spec.Slot). spec.slot_step c closes_leaf) self.old.slots;
        } }
    {
        take_in_span(self.slots.as_mut_slice(), self.busy, Token::CloseLeaf);
        self.busy = Span::NONE;
    }

    /// Goes on after the end of a value that sets what is in force, where it did.
    #[inline(always)]
    fn set(&mut self)
        ensures { self.new ≡ record self.old {
          slots = spec.with_sets self.old.setting self.old.slots;
          setting = None;
          unknown = names_unknown self.old.setting || self.old.unknown;
        } }
    {
        if let Some(sets) = self.setting.sets() {
            self.unknown = self.setting.names_unknown() || self.unknown;
            set_each(self.slots.as_mut_slice(), sets);
            self.setting.close();
        }
    }
}

/// Whether an element with its whole value changes no cell: no value is on its way, and it is within another element,
/// or no column has its tag and it sets nothing.
#[inline(always)]
fn passes_by(setting: &Setting, busy: Span, depth: Skip, index: &Index, head: &Head) -> bool
    ensures { result ≡ places.passes_by setting.now.is_open busy (open_things depth) index.now head.now }
{
    if setting.is_open || !busy.is_empty() {
        return false;
    }
    depth.is_open() || (index.span_of(head.tag).is_empty() && !opens_setting(head))
}

impl Cells {
    /// Goes on after a token. An element that no column wants is passed at once: its head looks up the columns of its
    /// tag, and its bytes and its end go to the cells alone that are busy.
    #[inline(always)]
    pub(crate) fn go_on(&mut self, token: Token)
        ensures { self.new ≡ fold spec.next self.old (atoms_of token.entry) }
    {
        match token {
            Token::Open(head, syntax) => {
                if !self.depth.is_open() {
                    self.offer(head, syntax);
                    open_setting(&mut self.setting, &head);
                }
                self.depth.open(true);
            }
            Token::Bytes(bytes) => self.add(bytes),
            Token::CloseLeaf => {
                self.close();
                self.set();
                self.depth.close();
            }
            Token::OpenItem(_) | Token::OpenFragment(_) => self.depth.open(true),
            Token::CloseItem | Token::CloseSeq => self.depth.close(),
            Token::End => {}
        }
    }

    /// Whether an element with this head and its whole value changes no cell.
    #[inline(always)]
    fn passes(&self, head: &Head) -> bool
        ensures { result ≡ true → (syntax : Syntax) (value : List ℕ)
            → fold spec.next self.now (whole_atoms head.now syntax value) ≡ spec.passed_by self.now }
    {
        passes_by(&self.setting, self.busy, self.depth, &self.index, head)
    }

    /// Goes on after an element with its whole value that changes no cell.
    #[inline(always)]
    fn pass_by(&mut self)
        ensures { self.new ≡ spec.passed_by self.old }
    {
        self.depth.open(true);
        self.depth.close();
    }

    /// Goes on after an element with its whole value by its tokens, one after another.
    #[inline(never)]
    fn go_on_by_token(&mut self, head: Head, syntax: Syntax, value: &[u8])
        ensures { self.new ≡ fold spec.next self.old (whole_atoms head syntax value.now) }
    {
        self.go_on(Token::Open(head, syntax));
        self.go_on(Token::Bytes(value));
        self.go_on(Token::CloseLeaf);
    }

    /// Goes on after an element with its whole value. One that changes no cell is passed by at once, as most are.
    #[inline(always)]
    pub(crate) fn go_on_whole(&mut self, head: Head, syntax: Syntax, value: &[u8])
        ensures { self.new ≡ fold spec.next self.old (whole_atoms head syntax value.now) }
    {
        if self.passes(&head) {
            self.pass_by();
        } else {
            self.go_on_by_token(head, syntax, value);
        }
    }
}

impl Sink for Cells {
    ghost use Rattle.dcm_table.specs.TableSink.{State as TableState, cleared};

    ghost State = { TableState };

    ghost state = { λ e. e };

    ghost step = { spec.next };

    ghost writes = { spec.writes };

    ghost bar = { spec.table_bar_of };

    ghost contents = { λ e. None };

    ghost has_failed = { λ e. false };

    ghost Kept = { TableState };

    ghost kept = { cleared };

    #[inline(always)]
    fn take(&mut self, token: Token) -> Result<(), WriteFailed> {
        self.go_on(token);
        Ok(())
    }

    #[inline(always)]
    fn take_whole(&mut self, head: Head, syntax: Syntax, value: &[u8]) -> Result<(), WriteFailed> {
        self.go_on_whole(head, syntax, value);
        Ok(())
    }

    fn accepts(&self, head: &Head) -> Result<(), Bar> {
        if !self.depth.is_open() && self.greatest.is_below(head.tag) {
            return Err(Bar::Order);
        }
        Ok(())
    }
}
