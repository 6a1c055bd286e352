//! Worked scripts, and what ends a run.
ghost use Rattle.std.specs.Prelude.{◌≡◌};

use media_mem::MemDisk;
use runner::Status;
use script_runs::{Ran, run_on};
use std::alloc::Global;
use std::sync::Wait;
use std::test::Fail;

/// A script with one transaction, and its transcript.
const APPLE: &str = "format\nopen\nbegin A\nput A apple 1\nget A apple\ncommit A\n";

const APPLE_PRINTED: &str = "format ok\nopen commits=0 losers=0\n\
    A begin\nA put apple was none\nA get apple = 1\nA commit 1\n";

/// Runs a script on blank devices, of which the calls with these numbers fail.
fn run_failing<R: Wait>(
    rt: &R,
    alloc: Global,
    script: &str,
    reads: u64,
    writes: u64,
    calls: u64,
) -> Result<Ran, Fail> {
    let log = MemDisk::failing(alloc, vec![in alloc; calls]?);
    run_on(rt, alloc, script, reads, writes, log)
}

/// How a script on blank devices ends.
fn ends<R: Wait>(rt: &R, alloc: Global, script: &str) -> Result<Status, Fail> {
    Ok(run_failing(rt, alloc, script, 0, 0, 0)?.status)
}

#[test]
fn an_empty_script_prints_nothing(rt: HostRuntime) -> Result<(), Fail> {
    let ran = run_failing(&rt, rt.alloc(), "", 0, 0, 0)?;
    assert_eq!(rt; ran.status, Status::Done);
    assert!(rt; ran.printed.is_empty() && ran.log.bytes().is_empty());
    Ok(())
}

#[test]
fn a_put_is_read_and_committed(rt: HostRuntime) -> Result<(), Fail> {
    let ran = run_failing(&rt, rt.alloc(), APPLE, 0, 0, 0)?;
    assert_eq!(rt; ran.status, Status::Done);
    assert_eq!(rt; ran.printed.as_str(), APPLE_PRINTED);
    assert_eq!(rt;
        ran.log.bytes(),
        b"\xa5\x00\x00\x00\x00\x00\x00\x00\x01\x00\x00\x00\x00\x00\x00\x00\x00\x00\x01\x00\x00\x00\x05\x01\x00\x00\x40\x00\xa5\x00\x00\x00\x00\x00\x00\x00\x02\x00\x00\x00\x00\x00\x00\x00\x00\x00\x02\x00\x00\x00\x39\x02\x00\x00\x00\x00\x00\x00\x00\x01\x00\x00\x00\x00\x00\x00\x00\x00\x00\x00\x00\x01\x00\x00\x00\x00\x00\x00\x00\x01\x05apple\x00\x01\x00\x011\x05\x00\x00\x00\x00\x00\x00\x00\x01\x00\x00\x00\x00\x00\x00\x00\x02\x00".as_slice()
    );
    Ok(())
}

#[test]
fn a_key_has_at_most_64_bytes_and_a_value_256(rt: HostRuntime) -> Result<(), Fail> {
    let script = format!(in rt.alloc();
        "format\nopen\nbegin A\nput A {:K>64} %\nput A k {:v>256}\nput A {:K>65} 1\n",
        "", "", ""
    )?;
    let printed = format!(in rt.alloc();
        "format ok\nopen commits=0 losers=0\nA begin\nA put {:K>64} was none\nA put k was none\n",
        ""
    )?;
    let ran = run_failing(&rt, rt.alloc(), &script, 0, 0, 0)?;
    assert_eq!(rt; ran.status, Status::Script { line: 6 });
    assert_eq!(rt; ran.printed.as_str(), printed.as_str());
    Ok(())
}

/// Scripts with the line with which no script goes on.
const UNLAWFUL: [(&str, u64); 29] = [
    ("format\nopen\nbeg", 3),
    ("begin A\n", 1),
    ("stat\n", 1),
    ("checkpoint\n", 1),
    ("format\nlose\n", 2),
    ("renew log 1\n", 1),
    ("fuse\n", 1),
    ("format 7\n", 1),
    ("format 16385\n", 1),
    ("\n# nothing\nget k\n", 3),
    ("format\nopen\nformat\n", 3),
    ("format\nopen\nopen\n", 3),
    ("format\nopen\nabort A\n", 3),
    ("format\nopen\nstat 1\n", 3),
    ("format\nopen\nbegin A\nbegin A\n", 4),
    ("format\nopen\nbegin A\nscan A b b\n", 4),
    ("format\nopen\nbegin A\nscan A b\n", 4),
    ("format\nopen\nbegin A\nop A mul n 1\n", 4),
    ("format\nopen\nbegin A\ndel B k\n", 4),
    ("format\nopen\nbegin A\ncommit A\nget A k\n", 5),
    ("format\nopen\nbegin A\nabort A\nput A k 1\n", 5),
    ("format\nopen\nbegin A\nstop\ncommit A\n", 5),
    ("close\n", 1),
    ("format\nopen\nbegin A\nclose\n", 4),
    ("format\nopen\nclose\nbegin A\n", 4),
    ("damage 0\n", 1),
    ("help 1\n", 1),
    ("format\nopen\nhelp 0\n", 3),
    ("format\nopen\nhelp 1000001\n", 3),
];

/// Lines that ask for what isn't built.
const UNBUILT: [&str; 4] = ["beg", "recycle", "merge", "parallel 1 0"];

#[test]
fn lines_end_a_run(rt: HostRuntime) -> Result<(), Fail> {
    for (script, line) in UNLAWFUL {
        assert_eq!(rt;
            ends(&rt, rt.alloc(), script)?,
            Status::Script { line },
            "{script}"
        );
    }
    for word in UNBUILT {
        let script = format!(in rt.alloc(); "format\nopen\n{word}\n")?;
        assert_eq!(rt;
            ends(&rt, rt.alloc(), &script)?,
            Status::NotBuilt { line: 3 },
            "{word}"
        );
    }
    Ok(())
}

#[test]
fn an_empty_log_is_not_opened_and_a_used_one_not_formatted(rt: HostRuntime) -> Result<(), Fail> {
    let ran = run_failing(&rt, rt.alloc(), "open\n", 0, 0, 0)?;
    assert_eq!(rt; ran.status, Status::NotFormatted);
    assert!(rt; ran.printed.is_empty() && ran.log.bytes().is_empty());
    let ran = run_failing(&rt, rt.alloc(), "format\nformat\n", 0, 0, 0)?;
    assert_eq!(rt; ran.status, Status::AlreadyFormatted);
    assert_eq!(rt; ran.printed.as_str(), "format ok\n");
    Ok(())
}

#[test]
fn a_fault_ends_a_run_where_it_comes(rt: HostRuntime) -> Result<(), Fail> {
    assert_eq!(rt;
        run_failing(&rt, rt.alloc(), APPLE, 1, 0, 0)?.status,
        Status::SourceFault
    );
    for write in 1..=6 {
        let ran = run_failing(&rt, rt.alloc(), APPLE, 0, write, 0)?;
        assert_eq!(rt; ran.status, Status::SinkFault);
        assert!(rt; APPLE_PRINTED.starts_with(ran.printed.as_str()));
    }
    // A format syncs, closes the first gate in two calls and writes its block in four; an open syncs and reads two headers
    // and a payload; the put reads the payload again, for its page; a commit is four calls.
    for call in 1..=16 {
        let ran = run_failing(&rt, rt.alloc(), APPLE, 0, 0, call)?;
        assert_eq!(rt; ran.status, Status::LogFault, "call {call}");
        assert!(rt; APPLE_PRINTED.starts_with(ran.printed.as_str()));
    }
    assert_eq!(rt;
        run_failing(&rt, rt.alloc(), APPLE, 0, 0, 30)?.status,
        Status::Done
    );
    Ok(())
}

#[test]
fn a_block_that_is_cut_is_named(rt: HostRuntime) -> Result<(), Fail> {
    let mut bytes = [0u8; 29];
    bytes[0] = 0xa5;
    let disk = MemDisk::with_bytes(rt.alloc(), bytes.as_slice())?;
    let ran = run_on(&rt, rt.alloc(), "open\n", 0, 0, disk)?;
    assert_eq!(rt; ran.status, Status::LogBad { block: 0, byte: 1 });
    assert_eq!(rt; ran.log.bytes(), bytes.as_slice());
    Ok(())
}
