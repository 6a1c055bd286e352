//! A lost data device: the store goes on, and restores segments from the log as they are wanted.

use script_runs::{Case, try_cases, try_script};
use std::alloc::Global;
use std::test::Fail;

/// Losses of a store of one page.
const LOSSES: [Case; 6] = [
    // A step of help restores the segment.
    Case {
        script: "format\nopen\nbegin A\nput A x 1\ncommit A\nlose\nhelp 1\nstat\nbegin B\nget B x\n",
        printed: "format ok\nopen commits=0 losers=0\nA begin\nA put x was none\nA commit 1\nlose ok\nhelp ok\n\
            stat commits=1 losers=0 undone=0 repaired=0 pages=1 lost=1 restored=1\nB begin\nB get x = 1\n",
    },
    // So does the first request of one of its pages; a page that was written counts as written no more, and so as no repair.
    // Each loss begins anew.
    Case {
        script: "format\nopen\nbegin A\nput A x 1\ncommit A\nclose\nopen\nlose\nstat\nbegin B\nget B x\nstat\n\
            lose\nstat\nget B x\nstat\n",
        printed: "format ok\nopen commits=0 losers=0\nA begin\nA put x was none\nA commit 1\nclose ok\n\
            open commits=1 losers=0\nlose ok\n\
            stat commits=1 losers=0 undone=0 repaired=0 pages=1 lost=1 restored=0\nB begin\nB get x = 1\n\
            stat commits=1 losers=0 undone=0 repaired=0 pages=1 lost=1 restored=1\nlose ok\n\
            stat commits=1 losers=0 undone=0 repaired=0 pages=1 lost=1 restored=0\nB get x = 1\n\
            stat commits=1 losers=0 undone=0 repaired=0 pages=1 lost=1 restored=1\n",
    },
    // What wasn't committed is in the log too, and is undone from there.
    Case {
        script: "format\nopen\nbegin A\nput A x 1\nlose\nget A x\nput A x 2\nlose\nabort A\nbegin B\nget B x\n",
        printed: "format ok\nopen commits=0 losers=0\nA begin\nA put x was none\nlose ok\nA get x = 1\n\
            A put x was = 1\nlose ok\nA abort\nB begin\nB get x none\n",
    },
    // A loss outlives a stop. A loser of the life before is undone before a segment is restored.
    Case {
        script: "format\nopen\nbegin A\nput A x 1\ncommit A\nbegin B\nput B y 1\nlose\nstop\nopen\nstat\nhelp 2\n\
            stat\nhelp 1\nstat\nbegin C\nget C x\nget C y\n",
        printed: "format ok\nopen commits=0 losers=0\nA begin\nA put x was none\nA commit 1\nB begin\n\
            B put y was none\nlose ok\nstop\nopen commits=1 losers=1\n\
            stat commits=1 losers=1 undone=0 repaired=0 pages=1 lost=1 restored=0\nhelp ok\n\
            stat commits=1 losers=0 undone=1 repaired=0 pages=1 lost=1 restored=1\nhelp ok\n\
            stat commits=1 losers=0 undone=1 repaired=0 pages=1 lost=1 restored=1\nC begin\nC get x = 1\n\
            C get y none\n",
    },
    // The log fails before it says so: that ends the life, and nothing is lost.
    Case {
        script: "format\nopen\nbegin A\nput A x 1\ncommit A\nfuse log 0\nlose\nlose\nstop\nopen\nstat\nbegin B\n\
            get B x\n",
        printed: "format ok\nopen commits=0 losers=0\nA begin\nA put x was none\nA commit 1\nfuse log 0\n\
            lose log failed\nlose ended 3\nstop\nopen commits=1 losers=0\n\
            stat commits=1 losers=0 undone=0 repaired=0 pages=1 lost=0 restored=0\nB begin\nB get x = 1\n",
    },
    // The new device fails, too; no line tells of it.
    Case {
        script: "format\nopen\nbegin A\nput A x 1\ncommit A\nfuse data 0\nlose\nbegin B\nget B x\ncommit B\nlose\n\
            renew data\nbegin C\nget C x\nstat\n",
        printed: "format ok\nopen commits=0 losers=0\nA begin\nA put x was none\nA commit 1\nfuse data 0\n\
            lose ok\nB begin\nB get x = 1\nB commit 2\nlose ok\nrenew data\nC begin\nC get x = 1\n\
            stat commits=2 losers=0 undone=0 repaired=0 pages=1 lost=1 restored=1\n",
    },
];

#[test]
fn a_lost_device_comes_back_from_the_log(rt: HostRuntime) -> Result<(), Fail> {
    try_cases(&rt, rt.alloc(), &LOSSES)
}

/// Two hundred rows with values of 256 letters, on 26 pages; one of them is written twice more. Before the first time stands a
/// backup, where one is made, and before the second one an archive run.
fn two_hundred_rows(alloc: Global, stores: bool) -> Result<(String, String), Fail> {
    let mut script = String::from_str(alloc, "format\nopen\nbegin A\n")?;
    let mut printed = String::from_str(alloc, "format ok\nopen commits=0 losers=0\nA begin\n")?;
    for number in 0..200 {
        script.push_str(&format!(in alloc; "put A k{number:03} V\n")?)?;
        printed.push_str(&format!(in alloc; "A put k{number:03} was none\n")?)?;
    }
    let (backup, archive) = if stores {
        ("backup\n", "archive\n")
    } else {
        ("", "")
    };
    let (backed_up, archived) = if stores {
        ("backup ok\n", "archive runs=1\n")
    } else {
        ("", "")
    };
    script.push_str(&format!(in alloc; "commit A\n{backup}begin B\nput B k000 b\ncommit B\n")?)?;
    script.push_str(&format!(in alloc; "{archive}begin C\nput C k000 c\ncommit C\n")?)?;
    printed.push_str(&format!(in alloc; "A commit 1\n{backed_up}B begin\n")?)?;
    printed.push_str("B put k000 was = V\nB commit 2\n")?;
    printed.push_str(&format!(in alloc; "{archived}C begin\nC put k000 was = b\nC commit 3\n")?)?;
    Ok((script, printed))
}

/// The device is lost, and comes back segment by segment, in this life and in the next one.
const LOST: &str = "lose\nbegin D\nget D k000\ncommit D\nstat\nstop\nopen\nbegin E\nget E k199\n\
    commit E\nstat\n";

const ANSWERED: &str = "lose ok\nD begin\nD get k000 = c\nD commit 4\n\
    stat commits=4 losers=0 undone=0 repaired=0 pages=26 lost=2 restored=1\nstop\n\
    open commits=4 losers=0\nE begin\nE get k199 = V\nE commit 5\n\
    stat commits=5 losers=0 undone=0 repaired=0 pages=26 lost=2 restored=2\n";

#[test]
fn segments_come_back_one_by_one(rt: HostRuntime) -> Result<(), Fail> {
    let alloc = rt.alloc();
    for stores in [false, true] {
        let (rows, answers) = two_hundred_rows(alloc, stores)?;
        let script = format!(in alloc; "{rows}{LOST}")?;
        let printed = format!(in alloc; "{answers}{ANSWERED}")?;
        try_script(&rt, alloc, &script, &printed)?;
    }
    Ok(())
}

/// It is lost once more while it comes back: what was restored is so no longer.
const LOST_AGAIN: &str =
    "lose\nhelp 1\nstat\nlose\nstat\nbegin D\nget D k000\nstat\nget D k199\ncommit D\nstat\n";

const ANSWERED_AGAIN: &str = "lose ok\nhelp ok\n\
    stat commits=3 losers=0 undone=0 repaired=0 pages=26 lost=2 restored=1\nlose ok\n\
    stat commits=3 losers=0 undone=0 repaired=0 pages=26 lost=2 restored=0\nD begin\nD get k000 = c\n\
    stat commits=3 losers=0 undone=0 repaired=0 pages=26 lost=2 restored=1\nD get k199 = V\nD commit 4\n\
    stat commits=4 losers=0 undone=0 repaired=0 pages=26 lost=2 restored=2\n";

#[test]
fn a_loss_during_a_restore_begins_anew(rt: HostRuntime) -> Result<(), Fail> {
    let alloc = rt.alloc();
    for stores in [false, true] {
        let (rows, answers) = two_hundred_rows(alloc, stores)?;
        let script = format!(in alloc; "{rows}{LOST_AGAIN}")?;
        let printed = format!(in alloc; "{answers}{ANSWERED_AGAIN}")?;
        try_script(&rt, alloc, &script, &printed)?;
    }
    Ok(())
}
