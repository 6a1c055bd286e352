//! A format that a fuse of the log disk refuses, and a stop.

use media_mem::MemDisk;
use runner::Status;
use script_runs::run;
use std::alloc::Global;
use std::sync::Wait;
use std::test::Fail;

/// So many calls of a format pass, and a stop keeps so many of the bytes written since the last sync.
#[derive(Clone, Copy)]
struct Cut {
    passes: u32,
    keep: u32,
}

impl Cut {
    /// Whether the next life finds a store. A format syncs, closes a gate in two calls, and writes a block in four: the
    /// third of these opens its gate, and the fourth makes that last.
    fn is_formatted(&self) -> bool {
        self.passes > 6 || self.passes == 6 && self.keep > 0
    }
}

fn try_cut<R: Wait>(rt: &R, alloc: Global, cut: Cut) -> Result<(), Fail> {
    let Cut { passes, keep } = cut;
    let script = format!(in alloc; "fuse log {passes}\nformat 8\nstop {keep}\n")?;
    let first = run(rt, alloc, &script, MemDisk::new(alloc))?;
    let open = run(rt, alloc, "open\n", first.log)?;
    let format = run(rt, alloc, "format 8\n", open.log)?;
    let last = run(rt, alloc, "open\n", format.log)?;
    let (opened, formatted) = if cut.is_formatted() {
        (Status::Done, Status::AlreadyFormatted)
    } else {
        (Status::NotFormatted, Status::Done)
    };
    if first.status == Status::Done
        && open.status == opened
        && format.status == formatted
        && last.status == Status::Done
    {
        return Ok(());
    }
    Err(Fail::new(format_args!("{passes} calls and {keep} bytes")))
}

/// All seven calls of a format pass, or fewer, and all 29 bytes of its block are kept, or fewer.
#[test]
fn a_format_that_was_cut_is_none_or_whole(rt: HostRuntime) -> Result<(), Fail> {
    for passes in 0..=7 {
        for keep in 0..=29 {
            try_cut(&rt, rt.alloc(), Cut { passes, keep })?;
        }
    }
    Ok(())
}
