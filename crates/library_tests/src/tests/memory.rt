use super::{holds, words_of};
use dcm_editor::{EditFault, Edits};
use dcm_words::{Job, Usage, plan};
use linked_list_allocator::LocalHeap;
use std::alloc::Allocator;
use std::fmt::Debug;
use std::test::Fail;

/// A heap hands out its memory in units of so many bytes.
const UNIT: usize = 16;

/// The edits of each line here take less, in units.
const ENOUGH: usize = 2048;

fn expect(holds: bool, what: &'static str) -> Result<(), Fail> {
    if holds { Ok(()) } else { Err(Fail::new(what)) }
}

/// What edits are, as text.
fn text_of<A: Allocator + Debug>(rt: HostRuntime, edits: &Edits<A>) -> Result<String, Fail> {
    let list = edits.list();
    Ok(format!(in rt.alloc(); "{list:?}")?)
}

/// Whether edits fit into a heap. If so they are the expected ones, and else memory is the fault.
fn fit(rt: HostRuntime, heap: &LocalHeap, words: &[&[u8]], expected: &str) -> Result<bool, Fail> {
    match Edits::parse(heap, words) {
        Ok(edits) => {
            let text = text_of(rt, &edits)?;
            expect(text.as_str() == expected, "other edits")?;
            Ok(true)
        }
        Err(fault) => {
            expect(fault == EditFault::Memory, "another fault")?;
            Ok(false)
        }
    }
}

/// The size of the least heap, in units, into which the edits of words fit. All memory is given back.
fn least_heap(rt: HostRuntime, words: &[&[u8]]) -> Result<usize, Fail> {
    let Ok(edits) = Edits::parse(rt.alloc(), words) else {
        return Err(Fail::new("no edits"));
    };
    let expected = text_of(rt, &edits)?;
    for units in 1..ENOUGH {
        let heap = LocalHeap::new(rt.alloc(), units * UNIT)?;
        let is_enough = fit(rt, &heap, words, expected.as_str())?;
        expect(heap.used() == 0, "memory stays in use")?;
        if is_enough {
            return Ok(units);
        }
    }
    Err(Fail::new("more memory than expected"))
}

/// The same of `plan`, which takes memory for nothing else.
fn least_heap_of_plan(rt: HostRuntime, words: &[&[u8]]) -> Result<usize, Fail> {
    for units in 1..ENOUGH {
        let heap = LocalHeap::new(rt.alloc(), units * UNIT)?;
        match plan(&heap, words) {
            Ok(planned) => {
                expect(matches!(planned.job, Job::Modify(_)), "another job")?;
                return Ok(units);
            }
            Err(usage) => expect(usage == Usage::Memory, "another refusal")?,
        }
        expect(heap.used() == 0, "memory stays in use")?;
    }
    Err(Fail::new("more memory than expected"))
}

/// The words of a text each.
fn views<'a>(rt: HostRuntime, texts: &'a [String]) -> Result<Vec<&'a [u8]>, Fail> {
    let mut words: Vec<&'a [u8]> = Vec::new(rt.alloc());
    for text in texts {
        words.push(text.as_bytes())?;
    }
    Ok(words)
}

/// An edit that inserts a value at the end of a path with so many steps.
fn push_path_edit(rt: HostRuntime, words: &mut Vec<String>, steps: usize) -> Result<(), Fail> {
    let mut path = String::new(rt.alloc());
    for _ in 0..steps {
        path.push_str("(0008,1110)[0].")?;
    }
    path.push_str("(0008,1155)=1.2")?;
    words.push(format!(in rt.alloc(); "-i")?)?;
    words.push(path)?;
    Ok(())
}

/// Edits that insert a value into an item of its own.
fn item_edits(rt: HostRuntime, count: usize) -> Result<Vec<String>, Fail> {
    let mut words = Vec::new(rt.alloc());
    for number in 0..count {
        words.push(format!(in rt.alloc(); "-i")?)?;
        words.push(format!(in rt.alloc(); "(0008,1140)[{number}].(0008,1155)=1.2.{number}")?)?;
    }
    Ok(words)
}

/// `-ep` takes memory only where the list of edits grows.
fn push_erase_private(rt: HostRuntime, words: &mut Vec<String>) -> Result<(), Fail> {
    words.push(format!(in rt.alloc(); "-ep")?)?;
    Ok(())
}

/// How much more memory so many edits and `-ep` take than those edits, in units.
fn growth_of_list(rt: HostRuntime, count: usize) -> Result<usize, Fail> {
    let mut words = item_edits(rt, count)?;
    let before = least_heap(rt, views(rt, words.as_slice())?.as_slice())?;
    push_erase_private(rt, &mut words)?;
    let after = least_heap(rt, views(rt, words.as_slice())?.as_slice())?;
    match after.checked_sub(before) {
        Some(growth) => Ok(growth),
        None => Err(Fail::new("less memory for more edits")),
    }
}

/// The size of the least heap for `-ep` and the insertion of a value at the end of a path.
fn least_heap_of_path(rt: HostRuntime, steps: usize) -> Result<usize, Fail> {
    let mut words = Vec::new(rt.alloc());
    push_erase_private(rt, &mut words)?;
    push_path_edit(rt, &mut words, steps)?;
    least_heap(rt, views(rt, words.as_slice())?.as_slice())
}

// Two lines take memory in the same order, but the second one grows once more, at its end. Where it needs a greater
// heap, it is this growth that each heap between the two refuses. So the rows below refuse each growth that there is:
// the list of edits and a path get room for 4, 8, 16, 32 and 64, at the counts that say `true`, and a value takes its
// memory at once.

#[test]
fn refuses_each_growth_of_the_list(rt: HostRuntime) -> Result<(), Fail> {
    for (count, grows) in [
        (0, true),
        (1, false),
        (3, false),
        (4, true),
        (5, false),
        (7, false),
        (8, true),
        (9, false),
        (15, false),
        (16, true),
        (17, false),
        (31, false),
        (32, true),
        (33, false),
        (63, false),
    ] {
        let growth = growth_of_list(rt, count)?;
        expect((growth > 0) == grows, "the list grows at another count")?;
    }
    Ok(())
}

#[test]
fn refuses_each_growth_of_a_path(rt: HostRuntime) -> Result<(), Fail> {
    let mut least = least_heap_of_path(rt, 0)?;
    for (steps, grows) in [
        (1, true),
        (4, false),
        (5, true),
        (8, false),
        (9, true),
        (16, false),
        (17, true),
        (32, false),
        (33, true),
        (64, false),
    ] {
        let next = least_heap_of_path(rt, steps)?;
        expect(
            next >= least && (next > least) == grows,
            "a path grows at another count",
        )?;
        least = next;
    }
    Ok(())
}

#[test]
fn refuses_each_value(rt: HostRuntime) -> Result<(), Fail> {
    for (line, longer) in [
        ("-ep", "-ep -ma PatientName=A"),
        ("-ep -m PatientID", "-ep -m PatientID=7"),
        ("-ep -m PatientID=7", "-ep -m PatientID=7 -i Rows=70"),
    ] {
        let least = least_heap(rt, words_of(rt, line)?.as_slice())?;
        let next = least_heap(rt, words_of(rt, longer)?.as_slice())?;
        holds(&rt, longer, next > least);
    }
    Ok(())
}

#[test]
fn refuses_memory_of_a_plan(rt: HostRuntime) -> Result<(), Fail> {
    for (edits, line) in [
        ("-ep", "dcmodify -ep in out"),
        (
            "-i (0008,1140)[0].(0008,1155)=1.2.3 -ma (0008,0060)=CT -ea (0010,4000) -ep",
            "dcmodify -i (0008,1140)[0].(0008,1155)=1.2.3 -ma (0008,0060)=CT -ea (0010,4000) -ep in out",
        ),
        (
            "-e ReferencedImageSequence[0] -ep -ea StudyDate -m PatientID=7 -m PatientName=Q",
            "dcmodify -e ReferencedImageSequence[0] -ep -ea StudyDate -m PatientID=7 -m PatientName=Q - -",
        ),
    ] {
        let least = least_heap(rt, words_of(rt, edits)?.as_slice())?;
        let of_plan = least_heap_of_plan(rt, words_of(rt, line)?.as_slice())?;
        holds(&rt, line, of_plan == least);
    }
    Ok(())
}
