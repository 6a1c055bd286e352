//! The answers that are no replies.

use script_runs::{Case, try_cases, try_script};
use std::test::Fail;

/// Another transaction holds a lock, no place is left, or an operator gives no value.
const REFUSED: [Case; 4] = [
    Case {
        script: "format\nopen\nbegin A\nput A x 1\nbegin B\nget B x\nput B x 2\ndel B x\nscan B % %\n\
            scan B a x\nop B add x 1\ncommit A\nop B add x 1\n",
        printed: "format ok\nopen commits=0 losers=0\nA begin\nA put x was none\nB begin\n\
            B get x conflict A\nB put x conflict A\nB del x conflict A\nB scan % % conflict A\n\
            B scan a x pairs=0\nB op add x conflict A\nA commit 1\nB op add x was = 1\n",
    },
    // A write can't be undone where a page and six open writes take up all but one of eight places. A deletion of what isn't
    // there is none, and an operator without a value is refused as such.
    Case {
        script: "format 8\nopen\nbegin A\nput A a 1\nput A b 1\nput A c 1\nput A d 1\nput A e 1\n\
            put A f 1\nput A g 1\nput A a 2\ndel A a\ndel A z\nop A add a 1\nop A add a b\nget A a\n\
            begin B\nput B a 1\nput B g 1\nabort A\nput B g 1\n",
        printed: "format ok\nopen commits=0 losers=0\nA begin\nA put a was none\nA put b was none\n\
            A put c was none\nA put d was none\nA put e was none\nA put f was none\n\
            A put g full 1 6\nA put a full 1 6\nA del a full 1 6\nA del z was none\n\
            A op add a full 1 6\nA op add a refused\nA get a = 1\nB begin\nB put a conflict A\n\
            B put g conflict A\nA abort\nB put g was none\n",
    },
    Case {
        script: "format\nopen\nbegin A\nput A n 18446744073709551615\nop A add n 1\nop A max n 7\n\
            op A join j ab\nget A j\n",
        printed: "format ok\nopen commits=0 losers=0\nA begin\nA put n was none\nA op add n refused\n\
            A op max n was = 18446744073709551615\nA op join j was none\nA get j = ab\n",
    },
    // No decimals are 01, the empty text and a letter, and a joined text has at most 64 bytes.
    Case {
        script: "format\nopen\nbegin A\nop A add n 01\nop A max n %\nput A x a\nop A add x 1\n\
            put A j aaaaaaaaaaaaaaaaaaaaaaaaaaaaaaaaaaaaaaaaaaaaaaaaaaaaaaaaaaaaaaa\n\
            op A join j bb\nop A join j b\nget A n\n",
        printed: "format ok\nopen commits=0 losers=0\nA begin\nA op add n refused\nA op max n refused\n\
            A put x was none\nA op add x refused\nA put j was none\nA op join j refused\n\
            A op join j was = aaaaaaaaaaaaaaaaaaaaaaaaaaaaaaaaaaaaaaaaaaaaaaaaaaaaaaaaaaaaaaa\n\
            A get n none\n",
    },
];

#[test]
fn a_refusal_says_why(rt: HostRuntime) -> Result<(), Fail> {
    try_cases(&rt, rt.alloc(), &REFUSED)
}

#[test]
fn sixty_four_transactions_are_active_at_most(rt: HostRuntime) -> Result<(), Fail> {
    let alloc = rt.alloc();
    let mut script = String::from_str(alloc, "format\nopen\n")?;
    let mut printed = String::from_str(alloc, "format ok\nopen commits=0 losers=0\n")?;
    for number in 1..=64 {
        script.push_str(&format!(in alloc; "begin T{number}\n")?)?;
        printed.push_str(&format!(in alloc; "T{number} begin\n")?)?;
    }
    script.push_str("begin T65\ncommit T1\nbegin T65\nbegin T1\nabort T2\nbegin T1\n")?;
    printed.push_str(
        "T65 begin refused\nT1 commit 1\nT65 begin\nT1 begin refused\nT2 abort\nT1 begin\n",
    )?;
    try_script(&rt, alloc, &script, &printed)
}

/// What the log disk's fuse refuses.
const FUSED: [Case; 4] = [
    // Of a commit whose first call was refused nothing is left, and the life has ended.
    Case {
        script: "format\nopen\nbegin A\nput A x 1\nbegin B\nfuse log 0\ncommit A\nrenew log\nget A x\n\
            put A x 2\ndel A x\nscan A % %\nop A add x 1\nbegin C\nstat\ncheckpoint\ncommit A\n\
            abort A\nabort B\ncommit B\nstop 4096\nopen\n",
        printed: "format ok\nopen commits=0 losers=0\nA begin\nA put x was none\nB begin\nfuse log 0\n\
            A commit log failed\nrenew log\nA get x ended 1\nA put x ended 1\nA del x ended 1\n\
            A scan % % ended 1\nA op add x ended 1\nC begin ended 1\nstat ended 1\n\
            checkpoint ended 1\nA commit ended 1\nA abort ended 1\nB abort ended 1\n\
            B commit ended 1\nstop\nopen commits=0 losers=0\n",
    },
    // An abort reads the log for what it undoes; Format, two writes and a Commit are durable.
    Case {
        script: "format\nopen\nbegin A\nput A x 1\nbegin B\nput B y 1\ncommit B\nfuse log 0\nabort A\n\
            abort A\nstop\nopen\nbegin C\nget C x\nget C y\n",
        printed: "format ok\nopen commits=0 losers=0\nA begin\nA put x was none\nB begin\n\
            B put y was none\nB commit 1\nfuse log 0\nA abort log failed\nA abort ended 4\nstop\n\
            open commits=1 losers=1\nC begin\nC get x none\nC get y = 1\n",
    },
    // A Checkpoint is one more record; without its last sync it isn't acknowledged, but a stop may leave it.
    Case {
        script: "format\nopen\nbegin A\nput A x 1\nfuse log 3\ncheckpoint\ncheckpoint\nstop 4096\nopen\n\
            begin B\nget B x\nstat\n",
        printed: "format ok\nopen commits=0 losers=0\nA begin\nA put x was none\nfuse log 3\n\
            checkpoint log failed\ncheckpoint ended 1\nstop\nopen commits=0 losers=1\nB begin\n\
            B get x none\nstat commits=0 losers=0 undone=1 repaired=0 pages=1 lost=0 restored=0\n",
    },
    Case {
        script: "fuse log 2\nformat\nrenew log\nformat\nfuse log 0\nopen\nstop\nopen\n",
        printed: "fuse log 2\nformat log failed\nrenew log\nformat ok\nfuse log 0\nopen log failed\n\
            stop\nopen commits=0 losers=0\n",
    },
];

/// Requests with their heads.
const ASKED: [(&str, &str); 5] = [
    ("get B x", "B get x"),
    ("put B x 2", "B put x"),
    ("del B x", "B del x"),
    ("scan B % %", "B scan % %"),
    ("op B add x 1", "B op add x"),
];

/// The first request of a life reads its page's records.
#[test]
fn a_call_that_a_fuse_refused_is_a_line(rt: HostRuntime) -> Result<(), Fail> {
    let alloc = rt.alloc();
    for (asked, head) in ASKED {
        let script = format!(in alloc;
            "format\nopen\nbegin A\nput A x 1\ncommit A\nstop\nopen\nbegin B\nfuse log 0\n{asked}\n\
            get B x\nstop\nopen\nbegin C\nget C x\n"
        )?;
        let printed = format!(in alloc;
            "format ok\nopen commits=0 losers=0\nA begin\nA put x was none\nA commit 1\nstop\n\
            open commits=1 losers=0\nB begin\nfuse log 0\n{head} log failed\nB get x ended 3\n\
            stop\nopen commits=1 losers=0\nC begin\nC get x = 1\n"
        )?;
        try_script(&rt, alloc, &script, &printed)?;
    }
    try_cases(&rt, alloc, &FUSED)
}

/// How a stop leaves a commit of which so many calls passed: the bytes behind a closed gate are none.
const PASSED: [(u64, u64, u64); 4] = [(1, 9, 0), (1, 4096, 0), (3, 4096, 1), (3, 0, 0)];

#[test]
fn a_commit_that_a_fuse_refused_is_none_or_whole(rt: HostRuntime) -> Result<(), Fail> {
    let alloc = rt.alloc();
    for (calls, keep, commits) in PASSED {
        let script = format!(in alloc;
            "format\nopen\nbegin A\nput A x 1\nfuse log {calls}\ncommit A\nget A x\nstop {keep}\nopen\n"
        )?;
        let printed = format!(in alloc;
            "format ok\nopen commits=0 losers=0\nA begin\nA put x was none\nfuse log {calls}\n\
            A commit log failed\nA get x ended 1\nstop\nopen commits={commits} losers=0\n"
        )?;
        try_script(&rt, alloc, &script, &printed)?;
    }
    Ok(())
}
