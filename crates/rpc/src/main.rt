//! The program `rpc`: one command over standard input and output, and two wires in memory that
//! never fail.
#![tactic(auto)]

use bp_base::{MemWire, OutOfMemory, StreamSink, StreamSource};
use rpc_tool::{Status, trouble};
use std::env;
use std::io::ErrorKind;
use std::process::ExitCode;
use std::rt::Env;

fn main(rt: HostRuntime) -> ExitCode {
    let code = match words(&rt) {
        Ok(words) => run(&rt, &words),
        Err(OutOfMemory) => Status::OutOfMemory.code(),
    };
    if let Some(trouble) = trouble(code) {
        // The code stands, whether or not this line goes out.
        let _ = eprintln!(rt; "rpc: {trouble}");
    }
    ExitCode::from(code)
}

/// Runs the command over the standard streams, and answers the exit status.
fn run(rt: &HostRuntime, words: &[String]) -> u8 {
    let alloc = rt.alloc();
    let mut input = StreamSource::new(rt.stdin());
    let mut out = StreamSink::new(rt.stdout());
    let mut up = MemWire::new(alloc, Vec::new(alloc));
    let mut down = MemWire::new(alloc, Vec::new(alloc));
    rpc_tool::run(alloc, words, &mut input, &mut out, &mut up, &mut down)
}

/// The words after the program's name. Words that are no text name no command, as no words do.
fn words(rt: &(impl Env + AllocGlobal)) -> Result<Vec<String>, OutOfMemory> {
    let mut words = Vec::new(rt.alloc());
    match env::args(rt) {
        Ok(args) => {
            for word in args.skip(1) {
                words.push(word)?;
            }
            Ok(words)
        }
        Err(error) if error.kind() == ErrorKind::OutOfMemory => Err(OutOfMemory),
        Err(_) => Ok(words),
    }
}
