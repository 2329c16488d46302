//! The program: it makes the real files and streams, does what its words ask for, and exits with the status's code.
#![tactic(auto)]

mod stack;

use hyb_base::bytes::Bytes;
use hyb_base::no_memory::NoMemory;
use hyb_base::words::Words;
use hyb_outside::disk_files::DiskFiles;
use hyb_outside::never_fails_sink::NeverFailsSink;
use hyb_outside::std_sink::StdSink;
use hybrid_top::status::Status;
use hybrid_top::{conclude, hybrid};
use stack::take_stack;
use std::env;
use std::io::ErrorKind;
use std::process::ExitCode;
use std::rt::Env;

/// The words after the program's name: no words where they can't be had as text. The stack is taken first.
fn words(rt: &(impl Env + AllocGlobal)) -> Result<Words, NoMemory> {
    if !take_stack(rt.alloc()) {
        return Err(NoMemory);
    }
    let mut words = Words::new(rt.alloc());
    match env::args(rt) {
        Ok(args) => {
            for arg in args.skip(1) {
                words.push(Bytes::from_slice(rt.alloc(), arg.as_bytes())?)?;
            }
            Ok(words)
        }
        Err(error) if error.kind() == ErrorKind::OutOfMemory => Err(NoMemory),
        Err(_error) => Ok(words),
    }
}

fn main(rt: HostRuntime) -> ExitCode {
    let mut files = DiskFiles::new(&rt);
    let mut out = StdSink::new(rt.stdout());
    let mut notes = StdSink::new(rt.stderr());
    let mut order = NeverFailsSink::new();
    let status = match words(&rt) {
        Ok(words) => hybrid(
            rt.alloc(),
            &words,
            &mut files,
            &mut out,
            &mut notes,
            &mut order,
        ),
        Err(NoMemory) => conclude(Status::NoMemory, &mut out, &mut notes, &mut order),
    };
    ExitCode::from(status.code())
}
