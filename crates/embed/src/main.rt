//! A store inside a program: the smallest one that opens a store, writes, commits, and reads what it wrote in a later life.
//!
//! Each run takes the devices and hands them back, so the second run finds what the first one left. For a store that stays
//! take the devices of a folder, as the program `instant` does.
#![tactic(auto)]

ghost use Rattle.std.specs.Prelude.{◌≡◌};

use media::{Devices, Sink};
use media_file::StreamSink;
use media_mem::{MemDisk, MemPages, MemSource, MemVault};
use operators::{Operators, boxed_operators};
use runner::{Status, run_words};
use std::alloc::Global;
use std::io;
use std::process::ExitCode;
use std::sync::Wait;

/// A store is made, and a row written.
const FIRST: &str = "format\nopen\nbegin A\nput A apple 1\ncommit A\n";

/// The store is opened again, and the row read.
const SECOND: &str = "open\nbegin B\nget B apple\ncommit B\n";

fn main(rt: HostRuntime) -> io::Result<ExitCode> {
    let alloc = rt.alloc();
    let operators = boxed_operators!(alloc);
    let mut sink = StreamSink {
        writer: rt.stdout(),
        faults: 0,
    };
    two_lives(&rt, alloc, &operators, &mut sink)
}

/// Runs both scripts on one store in memory, and prints what they answer.
fn two_lives<R: Wait, K: Sink>(
    rt: &R,
    alloc: Global,
    operators: &Operators,
    sink: &mut K,
) -> io::Result<ExitCode> {
    let mut devices = Devices {
        log: MemDisk::new(alloc),
        pages: MemPages::new(alloc),
        vault: MemVault::new(alloc),
    };
    for script in [FIRST, SECOND] {
        let mut source = MemSource::new(alloc, script.as_bytes().to_vec(alloc)?);
        let (status, left) = run_words(rt, alloc, &[], &mut source, sink, devices, operators);
        if status != Status::Done {
            return Ok(ExitCode::from(status.code()));
        }
        devices = left;
    }
    Ok(ExitCode::SUCCESS)
}
