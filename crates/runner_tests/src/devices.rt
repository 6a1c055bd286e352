//! Pages on the data device: lives that are closed, pages that are damaged, and a device that fails.

use script_runs::{Case, try_cases, try_script};
use std::alloc::Global;
use std::test::Fail;

/// Lives that are closed, and what their pages are then.
const CLOSED: [Case; 4] = [
    // Two of three pages are damaged; the one of the key is repaired, and the root above it.
    Case {
        script: "format\nopen\nbegin A\nput A k000 V\nput A k001 V\nput A k002 V\nput A k003 V\n\
            put A k004 V\nput A k005 V\nput A k006 V\nput A k007 V\nput A k008 V\nput A k009 V\n\
            put A k010 V\nput A k011 V\nput A k012 V\nput A k013 V\nput A k014 V\nput A k015 V\n\
            put A k016 V\ncommit A\nclose\ndamage 1\ndamage 3\nopen\nbegin B\nget B k000\nstat\n",
        printed: "format ok\nopen commits=0 losers=0\nA begin\nA put k000 was none\nA put k001 was none\n\
            A put k002 was none\nA put k003 was none\nA put k004 was none\nA put k005 was none\n\
            A put k006 was none\nA put k007 was none\nA put k008 was none\nA put k009 was none\n\
            A put k010 was none\nA put k011 was none\nA put k012 was none\nA put k013 was none\n\
            A put k014 was none\nA put k015 was none\nA put k016 was none\nA commit 1\nclose ok\n\
            damage 1\ndamage 3\nopen commits=1 losers=0\nB begin\nB get k000 = V\n\
            stat commits=1 losers=0 undone=0 repaired=2 pages=3 lost=0 restored=0\n",
    },
    // A page that was damaged is rebuilt from the log, and counts as repaired.
    Case {
        script: "format\nopen\nbegin A\nop A add n 5\nop A add n 6\ncommit A\nclose\ndamage 1\nopen\n\
            begin B\nget B n\nstat\n",
        printed: "format ok\nopen commits=0 losers=0\nA begin\nA op add n was none\nA op add n was = 5\n\
            A commit 1\nclose ok\ndamage 1\nopen commits=1 losers=0\nB begin\nB get n = 11\n\
            stat commits=1 losers=0 undone=0 repaired=1 pages=1 lost=0 restored=0\n",
    },
    // A page that was never written is no repair; a close asks that no transaction is active, and in an ended life it says so.
    Case {
        script: "format\nopen\nbegin A\nput A x 1\ncommit A\nstop\ndamage 1\nopen\nbegin B\nget B x\nstat\n\
            commit B\nfuse log 0\nclose\nopen\nrenew log\nopen\nbegin C\nput C x 2\nfuse log 1\ncommit C\n\
            stop\nopen\nclose\n",
        printed: "format ok\nopen commits=0 losers=0\nA begin\nA put x was none\nA commit 1\nstop\ndamage 1\n\
            open commits=1 losers=0\nB begin\nB get x = 1\n\
            stat commits=1 losers=0 undone=0 repaired=0 pages=1 lost=0 restored=0\nB commit 2\n\
            fuse log 0\nclose log failed\nopen log failed\nrenew log\nopen commits=2 losers=0\nC begin\n\
            C put x was = 1\nfuse log 1\nC commit log failed\nstop\nopen commits=2 losers=0\nclose ok\n",
    },
    // Nothing is written where nothing is dirty, and an ended life is closed too.
    Case {
        script: "format\nopen\nclose\nopen\nfuse log 0\ncheckpoint\nstat\nclose\nrenew log\nopen\nstat\nclose\n",
        printed: "format ok\nopen commits=0 losers=0\nclose ok\nopen commits=0 losers=0\nfuse log 0\n\
            checkpoint log failed\nstat ended 1\nclose ended 1\nrenew log\nopen commits=0 losers=0\n\
            stat commits=0 losers=0 undone=0 repaired=0 pages=1 lost=0 restored=0\nclose ok\n",
    },
];

#[test]
fn a_closed_life_leaves_its_pages(rt: HostRuntime) -> Result<(), Fail> {
    try_cases(&rt, rt.alloc(), &CLOSED)
}

/// Lines of three lives on three pages, each with what it prints: one is closed, one stops with a transaction that is open, and
/// one undoes that.
const LINES: [(&str, &str); 38] = [
    ("format 64", "format ok"),
    ("open", "open commits=0 losers=0"),
    ("begin A", "A begin"),
    ("put A k00 V", "A put k00 was none"),
    ("put A k01 V", "A put k01 was none"),
    ("put A k02 V", "A put k02 was none"),
    ("put A k03 V", "A put k03 was none"),
    ("put A k04 V", "A put k04 was none"),
    ("put A k05 V", "A put k05 was none"),
    ("put A k06 V", "A put k06 was none"),
    ("put A k07 V", "A put k07 was none"),
    ("put A k08 V", "A put k08 was none"),
    ("put A k09 V", "A put k09 was none"),
    ("put A k10 V", "A put k10 was none"),
    ("put A k11 V", "A put k11 was none"),
    ("put A k12 V", "A put k12 was none"),
    ("put A k13 V", "A put k13 was none"),
    ("put A k14 V", "A put k14 was none"),
    ("put A k15 V", "A put k15 was none"),
    ("commit A", "A commit 1"),
    ("close", "close ok"),
    ("open", "open commits=1 losers=0"),
    ("begin B", "B begin"),
    ("del B k00", "B del k00 was = V"),
    ("begin C", "C begin"),
    ("put C k15 2", "C put k15 was = V"),
    ("commit C", "C commit 2"),
    ("stop", "stop"),
    ("open", "open commits=2 losers=1"),
    ("begin D", "D begin"),
    ("get D k00", "D get k00 = V"),
    ("put D k00 3", "D put k00 was = V"),
    ("get D k15", "D get k15 = 2"),
    ("commit D", "D commit 3"),
    ("close", "close ok"),
    ("open", "open commits=3 losers=0"),
    ("begin E", "E begin"),
    ("get E k00", "E get k00 = 3"),
];

/// The lines, one a row, with this one, which prints itself, before the one at this place, and the text that they print.
fn with_line(alloc: Global, place: usize, line: &str) -> Result<(String, String), Fail> {
    let mut script = String::new(alloc);
    let mut printed = String::new(alloc);
    for (at, (asked, answered)) in LINES.iter().enumerate() {
        if at == place {
            script.push_str(&format!(in alloc; "{line}\n")?)?;
            printed.push_str(&format!(in alloc; "{line}\n")?)?;
        }
        script.push_str(&format!(in alloc; "{asked}\n")?)?;
        printed.push_str(&format!(in alloc; "{answered}\n")?)?;
    }
    Ok((script, printed))
}

#[test]
fn a_page_that_is_damaged_at_any_line_changes_no_answer(rt: HostRuntime) -> Result<(), Fail> {
    let alloc = rt.alloc();
    for place in 0..LINES.len() {
        for page in 1..4 {
            let line = format!(in alloc; "damage {page}")?;
            let (script, printed) = with_line(alloc, place, &line)?;
            try_script(&rt, alloc, &script, &printed)?;
        }
    }
    Ok(())
}

#[test]
fn a_data_device_that_fails_from_any_call_on_changes_no_answer(
    rt: HostRuntime,
) -> Result<(), Fail> {
    let alloc = rt.alloc();
    for place in [0, 19, 21, 29, 35] {
        for calls in 0..8 {
            let line = format!(in alloc; "fuse data {calls}")?;
            let (script, printed) = with_line(alloc, place, &line)?;
            try_script(&rt, alloc, &script, &printed)?;
        }
    }
    Ok(())
}
