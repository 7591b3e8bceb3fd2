mod apart;
mod beginnings;
mod bytes;
mod copies;
mod dumps;
mod failing;
mod faults;
mod instances;
mod left_out;
mod letters;
mod lists;
mod long;
mod modes;
mod moved;
mod outputs;
mod parts;
mod paths;
mod raced;
mod refused;
mod rows;
mod runs;
mod unlike;

use runs::expect_rows;
use std::test::Fail;

#[test]
fn outputs_of_files(rt: HostRuntime) -> Result<(), Fail> {
    expect_rows(rt.alloc(), &outputs::OUTPUTS)
}

#[test]
fn modes_of_folders(rt: HostRuntime) -> Result<(), Fail> {
    expect_rows(rt.alloc(), &modes::MODES)
}

#[test]
fn outputs_named_by_instances(rt: HostRuntime) -> Result<(), Fail> {
    expect_rows(rt.alloc(), &instances::INSTANCES)
}

#[test]
fn outputs_with_moved_days(rt: HostRuntime) -> Result<(), Fail> {
    expect_rows(rt.alloc(), &moved::MOVED)
}

#[test]
fn copies_of_an_instance(rt: HostRuntime) -> Result<(), Fail> {
    expect_rows(rt.alloc(), &copies::COPIES)
}

#[test]
fn outputs_of_another_run(rt: HostRuntime) -> Result<(), Fail> {
    expect_rows(rt.alloc(), &copies::AGAIN)
}

#[test]
fn folders_that_cannot_be_used(rt: HostRuntime) -> Result<(), Fail> {
    expect_rows(rt.alloc(), &beginnings::BEGINNINGS)
}

#[test]
fn folders_within_one_another(rt: HostRuntime) -> Result<(), Fail> {
    expect_rows(rt.alloc(), &apart::APART)
}

#[test]
fn parts_of_other_runs(rt: HostRuntime) -> Result<(), Fail> {
    expect_rows(rt.alloc(), &apart::OTHERS)
}

#[test]
fn outputs_that_tell_no_letters(rt: HostRuntime) -> Result<(), Fail> {
    expect_rows(rt.alloc(), &letters::ALIKE_LETTERS)
}

#[test]
fn outputs_that_tell_letters(rt: HostRuntime) -> Result<(), Fail> {
    expect_rows(rt.alloc(), &letters::LETTERS_APART)
}

#[test]
fn names_that_are_left_out(rt: HostRuntime) -> Result<(), Fail> {
    expect_rows(rt.alloc(), &left_out::LEFT_OUT)
}

#[test]
fn names_that_are_shown(rt: HostRuntime) -> Result<(), Fail> {
    expect_rows(rt.alloc(), &left_out::SHOWN_NAMES)
}

#[test]
fn names_taken_meanwhile(rt: HostRuntime) -> Result<(), Fail> {
    expect_rows(rt.alloc(), &raced::RACES)
}

#[test]
fn parts_of_the_names(rt: HostRuntime) -> Result<(), Fail> {
    expect_rows(rt.alloc(), &parts::PARTS)
}

#[test]
fn names_in_lists(rt: HostRuntime) -> Result<(), Fail> {
    expect_rows(rt.alloc(), &lists::LISTS)
}

#[test]
fn folders_without_files(rt: HostRuntime) -> Result<(), Fail> {
    expect_rows(rt.alloc(), &lists::NOTHING)
}

#[test]
fn dumps_of_files(rt: HostRuntime) -> Result<(), Fail> {
    expect_rows(rt.alloc(), &dumps::DUMPS)
}

#[test]
fn dumps_by_characters(rt: HostRuntime) -> Result<(), Fail> {
    expect_rows(rt.alloc(), &dumps::CHARACTERS)
}

#[test]
fn inputs_that_fail(rt: HostRuntime) -> Result<(), Fail> {
    expect_rows(rt.alloc(), &faults::INPUTS)
}

#[test]
fn outputs_that_fail(rt: HostRuntime) -> Result<(), Fail> {
    expect_rows(rt.alloc(), &faults::OUTPUTS)
}
