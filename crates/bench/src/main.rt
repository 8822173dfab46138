//! The program `bench`: how long the codec takes over three sets of values and the reading of a
//! stream of messages, and the bytes of these.
#![tactic(auto)]

mod calls;
mod command;
mod failure;
mod making;
mod numbers;
mod set;
mod streams;
mod timing;

use bp_base::{Finished, Sink, StreamSink, StreamSource, read_all, write_all};
use command::{Command, Operation, command_of};
use failure::Failure;
use set::Set;
use std::env;
use std::io::ErrorKind;
use std::process::ExitCode;
use std::rt::Env;
use std::time::Duration;

/// How many bytes of input are read.
const MAX_INPUT: usize = 1 << 28;

/// The letters of a call's text.
const SHORT: usize = 2;

const LONG: usize = 1000;

fn main(rt: HostRuntime) -> ExitCode {
    match run(&rt) {
        Ok(()) => ExitCode::from(0),
        Err(failure) => {
            // The code stands, whether or not this line goes out.
            let _ = eprintln!(rt; "bench: {failure}");
            ExitCode::from(failure.code())
        }
    }
}

fn run(rt: &HostRuntime) -> Result<(), Failure> {
    let words = words(rt)?;
    match command_of(&words) {
        Some(
            Command::Once {
                operation,
                set,
                count,
            },
        ) => {
            let took = measured(rt, operation, set, count)?;
            let (seconds, micros) = (took.as_secs(), took.subsec_micros());
            let line = println!(rt; "{operation} {set} {count} {seconds}.{micros:06}");
            line.map_err(|_| Failure::WriteFault)
        }
        Some(Command::Frames { count }) => {
            let stream = read_input(rt)?;
            let took = streams::read_time(rt, rt.alloc(), &stream, count)?;
            let (seconds, micros) = (took.as_secs(), took.subsec_micros());
            let line = println!(rt; "frames {count} {seconds}.{micros:06}");
            line.map_err(|_| Failure::WriteFault)
        }
        Some(Command::Calls { count }) => {
            echo(rt, SHORT, count)?;
            echo(rt, LONG, count)
        }
        Some(Command::Make(set)) => put(rt, &making::bytes_of(rt.alloc(), set)?),
        Some(Command::MakeFrames) => put(rt, &streams::stream(rt.alloc())?),
        None => Err(Failure::Usage),
    }
}

/// Times so many calls, each with a text of so many letters.
fn echo(rt: &HostRuntime, letters: usize, count: u32) -> Result<(), Failure> {
    let took = calls::calls_time(rt, rt.alloc(), letters, count)?;
    let (seconds, micros) = (took.as_secs(), took.subsec_micros());
    let line = println!(rt; "echo {letters} {count} {seconds}.{micros:06}");
    line.map_err(|_| Failure::WriteFault)
}

/// How long so many operations took on the value that standard input spells.
fn measured(
    rt: &HostRuntime,
    operation: Operation,
    set: Set,
    count: u32,
) -> Result<Duration, Failure> {
    let alloc = rt.alloc();
    let bytes = read_input(rt)?;
    let shape = set.shape(alloc)?;
    shape.check().map_err(|_| Failure::Unfit)?;
    match operation {
        Operation::Decode => timing::decode_time(rt, alloc, &shape, &bytes, count),
        Operation::Encode => {
            let value = timing::fitting(alloc, &shape, &bytes)?;
            timing::encode_time(rt, alloc, &shape, &value, count)
        }
    }
}

/// All of standard input.
fn read_input(rt: &HostRuntime) -> Result<Vec<u8>, Failure> {
    let mut input = StreamSource::new(rt.stdin());
    Ok(read_all(rt.alloc(), &mut input, MAX_INPUT)?)
}

/// Writes bytes to standard output.
fn put(rt: &HostRuntime, bytes: &[u8]) -> Result<(), Failure> {
    let mut out = StreamSink::new(rt.stdout());
    write_all(&mut out, bytes)?;
    match out.finish() {
        Finished::Done => Ok(()),
        Finished::Failed => Err(Failure::WriteFault),
    }
}

/// The words after the program's name. Words that are no text name no command, as no words do.
fn words(rt: &(impl Env + AllocGlobal)) -> Result<Vec<String>, Failure> {
    let mut words = Vec::new(rt.alloc());
    match env::args(rt) {
        Ok(args) => {
            for word in args.skip(1) {
                words.push(word)?;
            }
            Ok(words)
        }
        Err(error) if error.kind() == ErrorKind::OutOfMemory => Err(Failure::OutOfMemory),
        Err(_) => Ok(words),
    }
}
