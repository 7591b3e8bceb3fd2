// A data set, out of a device into a sink.
ghost use Rattle.std.specs.Prelude.{◌≡◌, ◌≤◌, ◌<◌, ◌+◌, length, false};
ghost use Rattle.dcm_stream.specs.Machine as machine_spec;
ghost use Rattle.dcm_base.specs.Reading.Reads.{INPUT_LIMIT};
ghost use Rattle.dcm_files.specs.Pieces.{BUFFER_LIMIT};
ghost use Rattle.dcm_cli.specs.Pass as spec;
ghost use Rattle.dcm_cli.specs.SinkPass as sink_pass;

use crate::ending::{Ending, ending_of};
use crate::head::Beginning;
use dcm_base::{Coding, DeviceIn, Watched};
use dcm_files::next_piece;
use dcm_stream::{Halt, Machine, Sink};

/// Feeds a machine that has not halted.
fn feed<S: Sink>(piece: &[u8], machine: &mut Machine, sink: &mut S) -> Result<(), Halt>
    requires { machine_spec.is_halted machine.old ≡ false }
    ensures { sink_pass.Feeds S.Sink sink.old sink.new machine.old machine.new piece.now result }
{
    machine.feed(piece, sink)
}

/// Feeds a machine what the head of a file left of a data set.
fn feed_beginning<S: Sink>(
    beginning: Beginning,
    buffer: &[u8],
    machine: &mut Machine,
    sink: &mut S,
) -> Result<(), Halt>
    requires within { spec.IsWithin beginning buffer.now }
    requires going { machine_spec.is_halted machine.old ≡ false }
    ensures { sink_pass.Feeds S.Sink sink.old sink.new machine.old machine.new (spec.set_bytes beginning buffer.now)
        result }
{
    let rest = &buffer[beginning.used..beginning.filled];
    match beginning.ahead {
        None => feed(rest, machine, sink),
        Some(byte) => {
            feed(&[byte], machine, sink)?;
            feed(rest, machine, sink)
        }
    }
}

/// Ends the data set of a machine that has not halted.
fn end<S: Sink>(machine: &mut Machine, sink: &mut S) -> Result<(), Halt>
    requires { machine_spec.is_halted machine.old ≡ false }
    ensures { sink_pass.EndsSet S.Sink sink.old sink.new machine.old.reading result }
{
    machine.finish(sink)
}

/// Feeds a machine all that an input has still to give, after so many bytes.
pub fn read_rest<R: DeviceIn, S: Sink>(
    read_before: u64,
    input: &mut Watched<R>,
    buffer: &mut [u8],
    machine: &mut Machine,
    sink: &mut S,
) -> Ending
    requires room { 0 < length buffer.old }
    requires bound { length buffer.old ≤ BUFFER_LIMIT }
    requires going { machine_spec.is_halted machine.old ≡ false }
    requires before { read_before ≡ machine_spec.next_offset machine.old.reading }
    requires limit { read_before ≤ INPUT_LIMIT }
    ensures { sink_pass.ReadsRest S.Sink R.DeviceIn sink.old sink.new input.old input.new machine.old.reading
        result }
{
    let mut read = read_before;
    loop {
        let size = match next_piece(input, buffer, &mut read) {
            Ok(Some(size)) => size,
            Ok(None) => return ending_of(end(machine, sink)),
            Err(_) => return Ending::Unread(read),
        };
        if let Err(halt) = feed(&buffer[..size], machine, sink) {
            return ending_of(Err(halt));
        }
    }
}

/// Reads the data set of a file into a sink.
pub fn read_set<R: DeviceIn, S: Sink>(
    beginning: Beginning,
    coding: Coding,
    start: u64,
    input: &mut Watched<R>,
    buffer: &mut [u8],
    sink: &mut S,
) -> Ending
    requires start { start ≤ INPUT_LIMIT }
    requires room { 0 < length buffer.old }
    requires bound { length buffer.old ≤ BUFFER_LIMIT }
    requires within { spec.IsWithin beginning buffer.old }
    requires count { start + length (spec.set_bytes beginning buffer.old) ≡ beginning.read }
    ensures { sink_pass.ReadsSet S.Sink R.DeviceIn sink.old sink.new input.old input.new beginning buffer.old
        coding.syntax start result }
{
    let mut machine = Machine::new(coding, start);
    if let Err(halt) = feed_beginning(beginning, buffer, &mut machine, sink) {
        return ending_of(Err(halt));
    }
    if beginning.is_over {
        return ending_of(end(&mut machine, sink));
    }
    read_rest(beginning.read, input, buffer, &mut machine, sink)
}
