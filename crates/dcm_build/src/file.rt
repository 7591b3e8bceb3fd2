// A file that is built, step by step.
ghost use Rattle.std.specs.Prelude.{◌≡◌, ◌≤◌, ◌&&◌, ◌∷◌, [], OnOk, None, false, true, is_some, unwrap_or, not};
ghost use Rattle.std.specs.Prelude.{flat_map, length};
ghost use Rattle.dcm_base.specs.Steps.Atoms.{opens};
ghost use Rattle.dcm_base.specs.Lines.Build as build;
ghost use Rattle.dcm_base.specs.Lines.Line as lines;
ghost use Rattle.dcm_base.specs.Lines.ReadValue as values;
ghost use Rattle.dcm_base.specs.Lines.ReadValue.{value_of_text};
ghost use Rattle.dcm_base.specs.Tables.Syntax.{Little};
ghost use Rattle.dcm_devices.specs.Writing.{Wrote};
ghost use Rattle.dcm_stream.specs.Tokens.{atoms_of};
ghost use Rattle.dcm_build.specs.Building as spec;
ghost use Rattle.dcm_build.specs.LineShown.{step_of};
ghost use Rattle.dcm_build.specs.NewFile as files;
ghost use Rattle.dcm_build.specs.NewGroup.{trees_of};
ghost use Rattle.dcm_build.specs.Outputs as outputs;

use crate::checks::{
    allows_fragments, coding_or_little, element_tag, first_fault, has_place_in, is_after,
    is_fragment_opening, is_meta, is_opening,
};
use crate::group::{NewGroup, element_size};
use crate::line::{Meaning, Step, means, without_return};
use crate::open_containers::OpenContainers;
use arrayvec::ArrayVec;
use dcm_base::{
    Container, DeviceOut, Length, LineFault, MOST_LISTS, Stopped, Syntax, Tag, VALUE_LIMIT, Vr,
    Watched, WriteFailed,
};
use dcm_head::Head;
use dcm_sinks::Encoder;
use dcm_stream::Token;
use dcm_value::read_value_into;

/// Why a line stops the building of a file: it is refused, or the writer failed.
pub type LineHalt = Stopped<LineFault>;

/// A file that is built: its meta group as it grows, what is open of its data set, how that is written, and the
/// value that was read last.
#[derive(Drop)]
pub struct NewFile {
    group: NewGroup,
    meta_ended: bool,
    standing: OpenContainers,
    encoder: Encoder,
    value: ArrayVec<u8, VALUE_LIMIT>,
}

/// Reads a value from its text, and answers whether that means one. Where it does not, the value is empty.
fn read_text(vr: Vr, text: &[u8], value: &mut ArrayVec<u8, VALUE_LIMIT>) -> bool
    ensures is_read { result ≡ is_some (value_of_text vr text.now) }
    ensures value { value.new.items ≡ unwrap_or (value_of_text vr text.now) [] }
{
    match read_value_into(vr, text, value) {
        Ok(()) => true,
        Err(_) => {
            value.clear();
            false
        }
    }
}

/// Reads the value that a step shows, where it shows one, and answers whether its text means one.
fn read_value(step: Step<'_>, value: &mut ArrayVec<u8, VALUE_LIMIT>) -> bool
    ensures is_read { result ≡ not (build.lacks_value (step_of step.entry)) }
    ensures value { value.new.items ≡ files.value_in (step_of step.entry) }
{
    match step {
        Step::Leaf(_, vr, text) => read_text(vr, text, value),
        Step::Fragment(text) => read_text(Vr::OB, text, value),
        Step::Sequence(_, _)
        | Step::FragmentList(_, _)
        | Step::Item
        | Step::ItemEnd
        | Step::SequenceEnd => {
            value.clear();
            true
        }
    }
}

/// Writes what tokens show, one after another.
fn put_tokens<W: DeviceOut>(
    encoder: &mut Encoder,
    out: &mut Watched<W>,
    tokens: &[Token<'_>],
) -> Result<(), WriteFailed>
    ensures state { OnOk result (outputs.Encoded encoder.old encoder.new (flat_map atoms_of tokens.now)) }
    ensures wrote { Wrote W.DeviceOut out.old out.new (outputs.encoded encoder.old (flat_map atoms_of tokens.now))
        result }
{
    for token in tokens {
        encoder.take(out, *token)?;
    }
    Ok(())
}

/// What opens an element of this length.
fn opening<'a>(tag: Tag, vr: Vr, length: Length) -> Token<'a>
    ensures { atoms_of result ≡ opens tag vr length Little ∷ [] }
{
    Token::Open(Head { tag, vr, length }, Syntax::LITTLE)
}

/// Writes what a step shows.
fn put_step<W: DeviceOut>(
    encoder: &mut Encoder,
    out: &mut Watched<W>,
    step: Step<'_>,
    value: &[u8],
) -> Result<(), WriteFailed>
    requires value { value.now ≡ files.value_in (step_of step) }
    requires size { length value.now ≤ values.VALUE_LIMIT }
    ensures state { OnOk result (outputs.Encoded encoder.old encoder.new (spec.step_atoms (step_of step.entry))) }
    ensures wrote { Wrote W.DeviceOut out.old out.new
        (outputs.encoded encoder.old (spec.step_atoms (step_of step.entry))) result }
{
    match step {
        Step::Leaf(tag, vr, _) => put_tokens(encoder, out, Token::leaf(tag, vr, value).as_slice()),
        Step::Sequence(tag, vr) | Step::FragmentList(tag, vr) => {
            encoder.take(out, opening(tag, vr, Length::Undefined))
        }
        Step::Item => encoder.take(out, Token::OpenItem(Length::Undefined)),
        Step::Fragment(_) => put_tokens(encoder, out, Token::fragment(value).as_slice()),
        Step::ItemEnd => encoder.take(out, Token::CloseItem),
        Step::SequenceEnd => encoder.take(out, Token::CloseSeq),
    }
}

impl NewFile {
    fn is_misplaced(&self, step: Step<'_>) -> bool
        ensures { result ≡ spec.is_misplaced (step_of step.entry) (files.seen self.now) }
    {
        !has_place_in(self.standing.container(), step)
            || (is_opening(step) && is_meta(step))
            || (is_fragment_opening(step) && !allows_fragments(self.group.coding()))
    }

    fn is_out_of_order(&self, step: Step<'_>) -> bool
        ensures { result ≡ spec.is_out_of_order (step_of step.entry) (files.seen self.now) }
    {
        !is_meta(step) && !is_after(self.standing.reached(), element_tag(step))
    }

    fn is_too_deep(&self, step: Step<'_>) -> bool
        ensures { result ≡ spec.is_too_deep (step_of step.entry) (files.seen self.now) }
    {
        is_opening(step) && self.standing.lists() >= MOST_LISTS
    }

    /// The bytes of an element that the step shows, where it shows one.
    fn shown_size(&self, step: Step<'_>) -> usize
        requires { self.now.value.items ≡ files.value_in (step_of step) }
        ensures { result ≡ spec.shown_size (step_of step.entry) }
    {
        match step {
            Step::Leaf(_, vr, _) => element_size(vr, self.value.len()),
            _ => 0,
        }
    }

    /// Whether the step is an element that is too much for the meta group.
    fn is_meta_too_large(&self, step: Step<'_>) -> bool
        requires { self.now.value.items ≡ files.value_in (step_of step) }
        ensures { result ≡ spec.is_meta_too_large (step_of step.entry) (files.seen self.now) }
    {
        is_meta(step) && self.group.is_full_for(self.shown_size(step))
    }

    /// Whether the step ends the meta group.
    fn ends_group_before(&self, step: Step<'_>) -> bool
        ensures { result ≡ spec.ends_meta (step_of step.entry) (files.seen self.now) }
    {
        !is_meta(step) && !self.meta_ended
    }

    fn group_fault(&self, step: Step<'_>) -> Option<LineFault>
        ensures { result ≡ build.first_fault (spec.group_checks (step_of step.entry) (files.seen self.now)) }
    {
        first_fault(&[
            (is_meta(step) && self.meta_ended, LineFault::BadMetaGroup),
            (
                self.ends_group_before(step) && self.group.coding().is_none(),
                LineFault::NoTransferSyntax,
            ),
        ])
    }

    fn step_fault(&self, step: Step<'_>, is_read: bool) -> Option<LineFault>
        requires is_read { is_read ≡ not (build.lacks_value (step_of step)) }
        requires value { self.now.value.items ≡ files.value_in (step_of step) }
        ensures { result ≡ build.first_fault (spec.step_checks (step_of step.entry) (files.seen self.now)) }
    {
        first_fault(&[
            (self.is_misplaced(step), LineFault::NotAllowed),
            (self.is_out_of_order(step), LineFault::NotAscending),
            (!is_read, LineFault::ValueDoesNotFit),
            (self.is_too_deep(step), LineFault::TooDeep),
            (self.is_meta_too_large(step), LineFault::BadMetaGroup),
        ])
    }

    /// Adds an element to the meta group.
    fn add_to_group(&mut self, step: Step<'_>)
        requires value { self.old.value.items ≡ files.value_in (step_of step) }
        requires meta { build.is_meta (step_of step) ≡ true }
        requires valued { build.lacks_value (step_of step) ≡ false }
        requires small { spec.is_meta_too_large (step_of step) (files.seen self.old) ≡ false }
        ensures { outputs.Becomes self.old self.new (spec.with_meta (step_of step.entry)) }
    {
        if let Step::Leaf(tag, vr, _) = step {
            self.group.push(tag, vr, self.value.as_slice());
        }
    }

    /// Adds what a step shows to the data set.
    fn add_to_set<W: DeviceOut>(
        &mut self,
        step: Step<'_>,
        out: &mut Watched<W>,
    ) -> Result<(), WriteFailed>
        requires value { self.old.value.items ≡ files.value_in (step_of step) }
        requires placed { spec.is_misplaced (step_of step) (files.seen self.old) ≡ false }
        requires few { spec.is_too_deep (step_of step) (files.seen self.old) ≡ false }
        ensures state { OnOk result (outputs.Becomes self.old self.new (spec.with_set (step_of step.entry))) }
        ensures wrote { Wrote W.DeviceOut out.old out.new
            (outputs.encoded self.old.encoder (spec.step_atoms (step_of step.entry))) result }
    {
        self.standing.take(step);
        put_step(&mut self.encoder, out, step, self.value.as_slice())
    }

    /// Adds what a step shows, which no check refuses.
    fn add<W: DeviceOut>(&mut self, step: Step<'_>, out: &mut Watched<W>) -> Result<(), WriteFailed>
        requires value { self.old.value.items ≡ files.value_in (step_of step) }
        requires fits { build.first_fault (spec.step_checks (step_of step) (files.seen self.old)) ≡ None }
        ensures state { OnOk result (outputs.Becomes self.old self.new (spec.taken (step_of step.entry))) }
        ensures wrote { Wrote W.DeviceOut out.old out.new
            (spec.taken_writes (step_of step.entry) (files.seen self.old)) result }
    {
        if is_meta(step) {
            self.add_to_group(step);
            return Ok(());
        }
        self.add_to_set(step, out)
    }

    /// The meta group ends: it is written, after the preamble and the prefix.
    fn end_group<W: DeviceOut>(&mut self, out: &mut Watched<W>) -> Result<(), WriteFailed>
        ensures state { OnOk result (outputs.Becomes self.old self.new spec.meta_over) }
        ensures wrote { Wrote W.DeviceOut out.old out.new (spec.file_start (files.seen self.old)) result }
    {
        self.group.put(out)?;
        self.meta_ended = true;
        self.encoder = Encoder::new(coding_or_little(self.group.coding()));
        Ok(())
    }

    /// The meta group ends before the first step that is no element of it.
    fn end_group_before<W: DeviceOut>(
        &mut self,
        step: Step<'_>,
        out: &mut Watched<W>,
    ) -> Result<(), WriteFailed>
        ensures state { OnOk result (outputs.Becomes self.old self.new (spec.in_group (step_of step.entry))) }
        ensures wrote { Wrote W.DeviceOut out.old out.new
            (spec.leaving_writes (step_of step.entry) (files.seen self.old)) result }
    {
        if self.ends_group_before(step) {
            return self.end_group(out);
        }
        Ok(())
    }

    /// Takes a step of a group that may come here.
    fn check_and_add<W: DeviceOut>(
        &mut self,
        step: Step<'_>,
        out: &mut Watched<W>,
    ) -> Result<(), LineHalt>
        ensures { outputs.Took W.DeviceOut out.old out.new self.old self.new (spec.placed (step_of step.entry))
            (spec.placed_writes (step_of step.entry)) result }
    {
        let is_read = read_value(step, &mut self.value);
        if let Some(fault) = self.step_fault(step, is_read) {
            return Err(Stopped::Refused(fault));
        }
        self.add(step, out)?;
        Ok(())
    }

    /// Takes what a line shows.
    fn take_step<W: DeviceOut>(
        &mut self,
        step: Step<'_>,
        out: &mut Watched<W>,
    ) -> Result<(), LineHalt>
        ensures { outputs.Took W.DeviceOut out.old out.new self.old self.new (spec.shows (step_of step.entry))
            (spec.shows_writes (step_of step.entry)) result }
    {
        if let Some(fault) = self.group_fault(step) {
            return Err(Stopped::Refused(fault));
        }
        self.end_group_before(step, out)?;
        self.check_and_add(step, out)
    }

    /// Takes a line, without its newline.
    pub fn take_line<W: DeviceOut>(
        &mut self,
        line: &[u8],
        out: &mut Watched<W>,
    ) -> Result<(), LineHalt>
        ensures { outputs.Took W.DeviceOut out.old out.new self.old self.new
            (spec.meaning_taken (lines.means (build.without_return line.now)))
            (spec.meaning_writes (lines.means (build.without_return line.now))) result }
    {
        match means(without_return(line)) {
            Meaning::Nothing => Ok(()),
            Meaning::Step(step) => self.take_step(step, out),
            Meaning::ByCharacters => Err(Stopped::Refused(LineFault::ByCharacters)),
            Meaning::NoLine => Err(Stopped::Refused(LineFault::NotALine)),
        }
    }

    /// Why the input may not end here, where it may not.
    fn end_fault(&self) -> Option<LineFault>
        ensures { result ≡ build.first_fault (spec.end_checks (files.seen self.now)) }
    {
        first_fault(&[
            (
                !self.meta_ended && self.group.coding().is_none(),
                LineFault::NoTransferSyntax,
            ),
            (
                self.standing.container() != Container::DataSet,
                LineFault::EndsEarly,
            ),
        ])
    }

    /// Whether the end of the input ends the meta group.
    fn ends_group_at_end(&self) -> bool
        ensures { result ≡ (not self.now.meta_ended && is_some (build.named_coding (trees_of self.now.group))) }
    {
        !self.meta_ended && self.group.coding().is_some()
    }

    /// The meta group ends where no line of another group came.
    fn end_group_at_end<W: DeviceOut>(&mut self, out: &mut Watched<W>) -> Result<(), WriteFailed>
        ensures state { OnOk result (outputs.Becomes self.old self.new spec.ended_meta) }
        ensures wrote { Wrote W.DeviceOut out.old out.new (spec.end_writes (files.seen self.old)) result }
    {
        if self.ends_group_at_end() {
            return self.end_group(out);
        }
        Ok(())
    }

    /// Takes note that the input ends.
    pub fn finish<W: DeviceOut>(&mut self, out: &mut Watched<W>) -> Result<(), LineHalt>
        ensures { outputs.Ended W.DeviceOut out.old out.new self.old self.new result }
    {
        let fault = self.end_fault();
        self.end_group_at_end(out)?;
        match fault {
            Some(fault) => Err(Stopped::Refused(fault)),
            None => Ok(()),
        }
    }

    /// A file of which nothing was built yet.
    pub fn new() -> Self
        ensures { outputs.IsNew result }
    {
        NewFile {
            group: NewGroup::new(),
            meta_ended: false,
            standing: OpenContainers::new(),
            encoder: Encoder::new(Syntax::LITTLE),
            value: ArrayVec::new(),
        }
    }
}
