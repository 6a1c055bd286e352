//! Help: losers undone, pages redone and pages written, archive runs made, step by step; and the fuse of the data device.

use script_runs::{Case, try_cases, try_script};
use std::alloc::Global;
use std::sync::Wait;
use std::test::Fail;

/// Losers that are undone step by step.
const LOSERS: [Case; 4] = [
    // What is left of a loser stands over two more lives, and a key of it has it undone.
    Case {
        script: "format\nopen\nbegin I\nput I x 1\nput I y 1\nput I z 1\ncommit I\nbegin A\nput A x 2\n\
            put A y 2\nput A z 2\nbegin B\nput B w 1\ncommit B\nstop\nopen\nhelp 1\nstat\nbegin C\n\
            get C w\ncommit C\nstop\nopen\nstop\nopen\nbegin D\nget D x\nget D y\nget D z\nstat\n",
        printed: "format ok\nopen commits=0 losers=0\nI begin\nI put x was none\nI put y was none\n\
            I put z was none\nI commit 1\nA begin\nA put x was = 1\nA put y was = 1\nA put z was = 1\n\
            B begin\nB put w was none\nB commit 2\nstop\nopen commits=2 losers=1\nhelp ok\n\
            stat commits=2 losers=1 undone=1 repaired=0 pages=1 lost=0 restored=0\nC begin\nC get w = 1\n\
            C commit 3\nstop\nopen commits=3 losers=1\nstop\nopen commits=3 losers=1\nD begin\n\
            D get x = 1\nD get y = 1\nD get z = 1\n\
            stat commits=3 losers=0 undone=2 repaired=0 pages=1 lost=0 restored=0\n",
    },
    // The last Undo of a loser and its End are two steps, and the least loser is the first.
    Case {
        script: "format\nopen\nbegin I\nput I a 1\nput I b 1\ncommit I\nbegin A\nput A a 2\nbegin B\n\
            put B b 2\nbegin C\nput C c 1\ncommit C\nstop\nopen\nhelp 1\nstat\nhelp 1\nstat\nbegin D\n\
            put D a 5\nstat\nget D b\nstat\ncommit D\nhelp 9\nstat\n",
        printed: "format ok\nopen commits=0 losers=0\nI begin\nI put a was none\nI put b was none\nI commit 1\n\
            A begin\nA put a was = 1\nB begin\nB put b was = 1\nC begin\nC put c was none\nC commit 2\nstop\n\
            open commits=2 losers=2\nhelp ok\n\
            stat commits=2 losers=2 undone=1 repaired=0 pages=1 lost=0 restored=0\nhelp ok\n\
            stat commits=2 losers=1 undone=1 repaired=0 pages=1 lost=0 restored=0\nD begin\n\
            D put a was = 1\nstat commits=2 losers=1 undone=1 repaired=0 pages=1 lost=0 restored=0\n\
            D get b = 1\nstat commits=2 losers=0 undone=2 repaired=0 pages=1 lost=0 restored=0\n\
            D commit 3\nhelp ok\n\
            stat commits=3 losers=0 undone=2 repaired=0 pages=1 lost=0 restored=0\n",
    },
    // Nothing to do, but for the page of a format, which is brought and written.
    Case {
        script: "format\nopen\nhelp 5\nhelp 1000000\nstat\nbegin A\nput A x 1\nhelp 3\nabort A\nhelp 3\n",
        printed: "format ok\nopen commits=0 losers=0\nhelp ok\nhelp ok\n\
            stat commits=0 losers=0 undone=0 repaired=0 pages=1 lost=0 restored=0\n\
            A begin\nA put x was none\nhelp ok\nA abort\nhelp ok\n",
    },
    // The log fails as a step reads it: that ends the life. The next one goes on with the loser.
    Case {
        script: "format\nopen\nbegin A\nput A x 1\nbegin B\nput B y 1\ncommit B\nstop\nopen\nfuse log 0\n\
            help 1\nhelp 1\nstat\nrenew log\nhelp 1\nstop\nopen\nhelp 2\nstat\nbegin C\nget C x\n",
        printed: "format ok\nopen commits=0 losers=0\nA begin\nA put x was none\nB begin\nB put y was none\n\
            B commit 1\nstop\nopen commits=1 losers=1\nfuse log 0\nhelp log failed\nhelp ended 4\n\
            stat ended 4\nrenew log\nhelp ended 4\nstop\nopen commits=1 losers=1\nhelp ok\n\
            stat commits=1 losers=0 undone=1 repaired=0 pages=1 lost=0 restored=0\nC begin\nC get x none\n",
    },
];

#[test]
fn losers_are_undone_step_by_step(rt: HostRuntime) -> Result<(), Fail> {
    try_cases(&rt, rt.alloc(), &LOSERS)
}

/// Three pages that no life has written; k000 is on page 3, below page 1.
const PAGES: &str =
    "format\nopen\nbegin A\nput A k000 V\nput A k001 V\nput A k002 V\nput A k003 V\n\
    put A k004 V\nput A k005 V\nput A k006 V\nput A k007 V\nput A k008 V\nput A k009 V\nput A k010 V\n\
    put A k011 V\nput A k012 V\nput A k013 V\nput A k014 V\nput A k015 V\nput A k016 V\ncommit A\nstop\nopen\n";

const PAGES_PRINTED: &str = "format ok\nopen commits=0 losers=0\nA begin\nA put k000 was none\n\
    A put k001 was none\nA put k002 was none\nA put k003 was none\nA put k004 was none\nA put k005 was none\n\
    A put k006 was none\nA put k007 was none\nA put k008 was none\nA put k009 was none\nA put k010 was none\n\
    A put k011 was none\nA put k012 was none\nA put k013 was none\nA put k014 was none\nA put k015 was none\n\
    A put k016 was none\nA commit 1\nstop\nopen commits=1 losers=0\n";

/// These lines behind them, which print this, and then a Checkpoint and a stop. Of the pages 1 and 3, which are damaged then, so
/// many had been written: those count as repaired when k000 is read.
fn try_pages<R: Wait>(
    rt: &R,
    alloc: Global,
    lines: &str,
    printed: &str,
    written: u32,
) -> Result<(), Fail> {
    let script = format!(in alloc;
        "{PAGES}{lines}checkpoint\nstop\ndamage 1\ndamage 3\nopen\nbegin Z\nget Z k000\nstat\n"
    )?;
    let printed = format!(in alloc;
        "{PAGES_PRINTED}{printed}checkpoint ok\nstop\ndamage 1\ndamage 3\nopen commits=1 losers=0\nZ begin\n\
        Z get k000 = V\nstat commits=1 losers=0 undone=0 repaired={written} pages=3 lost=0 restored=0\n"
    )?;
    try_script(rt, alloc, &script, &printed)
}

#[test]
fn pages_are_redone_and_then_written_the_least_first(rt: HostRuntime) -> Result<(), Fail> {
    let alloc = rt.alloc();
    for (steps, written) in [(3, 0), (4, 1), (5, 1), (6, 2), (1_000_000, 2)] {
        let line = format!(in alloc; "help {steps}\n")?;
        try_pages(&rt, alloc, &line, "help ok\n", written)?;
    }
    // Two of them have come by a request, and await no redo.
    let asked = "begin B\nget B k000\nabort B\n";
    let answered = "B begin\nB get k000 = V\nB abort\n";
    for (steps, written) in [(1, 0), (2, 1), (3, 1), (4, 2)] {
        let lines = format!(in alloc; "{asked}help {steps}\n")?;
        let printed = format!(in alloc; "{answered}help ok\n")?;
        try_pages(&rt, alloc, &lines, &printed, written)?;
    }
    // A device that fails keeps none, and a page that it didn't take is dropped.
    let failing = "fuse data 0\nhelp 9\n";
    try_pages(&rt, alloc, failing, "fuse data 0\nhelp ok\n", 0)
}

/// These lines behind a transaction that writes one key so many times, which print this. Its log then has a Format, these writes and
/// a Commit, up to which it is durable; one page is dirty.
fn try_writes<R: Wait>(
    rt: &R,
    alloc: Global,
    writes: u32,
    lines: &str,
    printed: &str,
) -> Result<(), Fail> {
    let mut script = String::from_str(alloc, "format\nopen\nbegin A\nput A x 1\n")?;
    let mut answered = String::from_str(
        alloc,
        "format ok\nopen commits=0 losers=0\nA begin\nA put x was none\n",
    )?;
    for _ in 1..writes {
        script.push_str("put A x 1\n")?;
        answered.push_str("A put x was = 1\n")?;
    }
    let script = format!(in alloc; "{script}commit A\n{lines}")?;
    let answered = format!(in alloc; "{answered}A commit 1\n{printed}")?;
    try_script(rt, alloc, &script, &answered)
}

/// How many writes, lines behind them, and what these print. A help that makes a run calls the log disk; one that finds all durable
/// and makes none doesn't.
const RUNS: [(u32, &str, &str); 4] = [
    // 999 records are too few, and 1,000 are enough.
    (
        997,
        "fuse log 0\nhelp 50\nhelp 1\n",
        "fuse log 0\nhelp ok\nhelp ok\n",
    ),
    (
        998,
        "fuse log 0\nhelp 50\nhelp 1\n",
        "fuse log 0\nhelp log failed\nhelp ended 1000\n",
    ),
    // The page is the first step, and the run the second one, behind which only the records of the two wait.
    (
        998,
        "help 1\nfuse log 0\nhelp 50\n",
        "help ok\nfuse log 0\nhelp log failed\n",
    ),
    (
        998,
        "help 2\nfuse log 0\nhelp 50\nrenew log\narchive\n",
        "help ok\nfuse log 0\nhelp ok\nrenew log\narchive runs=1\n",
    ),
];

#[test]
fn a_run_is_made_where_a_thousand_records_wait(rt: HostRuntime) -> Result<(), Fail> {
    let alloc = rt.alloc();
    for (writes, lines, printed) in RUNS {
        try_writes(&rt, alloc, writes, lines, printed)?;
    }
    Ok(())
}

/// The data device's fuse is armed, and renewed.
const FUSES: [Case; 4] = [
    // The page is on the device, which gives it; or doesn't, and it is repaired.
    Case {
        script: "format\nopen\nbegin A\nput A x 1\ncommit A\nclose\nopen\nfuse data 0\nrenew data\n\
            begin B\nget B x\nstat\n",
        printed: "format ok\nopen commits=0 losers=0\nA begin\nA put x was none\nA commit 1\nclose ok\n\
            open commits=1 losers=0\nfuse data 0\nrenew data\nB begin\nB get x = 1\n\
            stat commits=1 losers=0 undone=0 repaired=0 pages=1 lost=0 restored=0\n",
    },
    Case {
        script: "format\nopen\nbegin A\nput A x 1\ncommit A\nclose\nopen\nfuse data 0\n\
            begin B\nget B x\nstat\n",
        printed: "format ok\nopen commits=0 losers=0\nA begin\nA put x was none\nA commit 1\nclose ok\n\
            open commits=1 losers=0\nfuse data 0\nB begin\nB get x = 1\n\
            stat commits=1 losers=0 undone=0 repaired=1 pages=1 lost=0 restored=0\n",
    },
    // A close writes the page, whose damage is then repaired; or can't write it, and it was never there.
    Case {
        script: "format\nopen\nbegin A\nput A x 1\ncommit A\nfuse data 0\nrenew data\nclose\ndamage 1\n\
            open\nbegin B\nget B x\nstat\n",
        printed: "format ok\nopen commits=0 losers=0\nA begin\nA put x was none\nA commit 1\nfuse data 0\n\
            renew data\nclose ok\ndamage 1\nopen commits=1 losers=0\nB begin\nB get x = 1\n\
            stat commits=1 losers=0 undone=0 repaired=1 pages=1 lost=0 restored=0\n",
    },
    Case {
        script: "format\nopen\nbegin A\nput A x 1\ncommit A\nfuse data 0\nclose\nrenew data\ndamage 1\n\
            open\nbegin B\nget B x\nstat\n",
        printed: "format ok\nopen commits=0 losers=0\nA begin\nA put x was none\nA commit 1\nfuse data 0\n\
            close ok\nrenew data\ndamage 1\nopen commits=1 losers=0\nB begin\nB get x = 1\n\
            stat commits=1 losers=0 undone=0 repaired=0 pages=1 lost=0 restored=0\n",
    },
];

#[test]
fn a_fuse_of_the_data_device_is_armed(rt: HostRuntime) -> Result<(), Fail> {
    try_cases(&rt, rt.alloc(), &FUSES)
}
