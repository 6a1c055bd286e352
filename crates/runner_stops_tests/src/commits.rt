//! Three transactions, a fuse of the log disk that blows in one of their commits or in none, and a stop.
ghost use Rattle.std.specs.Prelude.{◌≤◌};

use media_mem::MemDisk;
use script_runs::{is_done, run};
use std::alloc::Global;
use std::ops::Range;
use std::sync::Wait;
use std::test::Fail;

/// A transaction of three puts, and what it prints, but for the answer of its commit.
struct Transaction {
    name: &'static str,
    lines: &'static str,
    printed: &'static str,
}

const TRANSACTIONS: [Transaction; 3] = [
    Transaction {
        name: "A",
        lines: "begin A\nput A w 1\nput A x one\nput A y 1\ncommit A\n",
        printed: "A begin\nA put w was none\nA put x was none\nA put y was none\nA commit",
    },
    Transaction {
        name: "B",
        lines: "begin B\nput B x 22\nput B y two\nput B z 2\ncommit B\n",
        printed: "B begin\nB put x was = one\nB put y was = 1\nB put z was none\nB commit",
    },
    Transaction {
        name: "C",
        lines: "begin C\nput C y three\nput C z 33\nput C w 3\ncommit C\n",
        printed: "C begin\nC put y was = two\nC put z was = 2\nC put w was = 1\nC commit",
    },
];

/// No block of theirs has more bytes: 24 of its own, 17 of a Commit, and at most 47 of each put.
const LONGEST: usize = 182;

/// What gets of w, x, y and z answer behind none, one, two and three of the commits.
const ANSWERS: [[&str; 4]; 4] = [
    ["none", "none", "none", "none"],
    ["= 1", "= one", "= 1", "none"],
    ["= 1", "= 22", "= two", "= 2"],
    ["= 3", "= 22", "= three", "= 33"],
];

/// A life that reads all keys and writes one of them, and one more life, that reads two.
const NEXT: &str = "open\nbegin D\nget D w\nget D x\nget D y\nget D z\nput D w next\ncommit D\n\
    stop\nopen\nbegin E\nget E w\nget E x\n";

/// What these two lives print where the first of them finds so many commits.
fn printed_next(alloc: Global, left: usize) -> Result<String, Fail> {
    let Some([w, x, y, z]) = ANSWERS.get(left) else {
        return Err(Fail::new("too many commits"));
    };
    let next = left + 1;
    Ok(format!(in alloc;
        "open commits={left} losers=0\nD begin\nD get w {w}\nD get x {x}\nD get y {y}\nD get z {z}\n\
        D put w was {w}\nD commit {next}\nstop\nopen commits={next} losers=0\nE begin\n\
        E get w = next\nE get x {x}\n"
    )?)
}

/// The get brings the page of the four keys to memory, so that behind it commits alone call the disk. A store with few
/// places is opened in less time, and this is one of some thousands.
const BEFORE: &str = "format 16\nopen\nbegin R\nget R v\n";

const BEFORE_PRINTED: &str = "format ok\nopen commits=0 losers=0\nR begin\nR get v none\n";

/// Then a fuse lets so many calls of the log disk pass. Behind the transactions, or the one whose commit
/// it refused, a stop keeps so many of the bytes written since the last sync.
#[derive(Clone, Copy)]
struct Cut {
    passes: usize,
    keep: usize,
}

impl Cut {
    /// How many commits are acknowledged. Each makes four calls.
    fn acknowledged(&self) -> usize
        ensures { result ≤ 3 }
    {
        (self.passes / 4).min(3)
    }

    /// How many commits the next life finds: those, or one more, where the gate of the refused one was written and kept.
    /// That is the third of its calls, and the fourth is a sync.
    fn left(&self) -> usize {
        if self.passes < 12 && self.passes % 4 == 3 && self.keep > 0 {
            self.acknowledged() + 1
        } else {
            self.acknowledged()
        }
    }

    /// The first life and its stop. A transaction whose commit was refused asks once more, and none begins behind it.
    fn script(&self, alloc: Global) -> Result<String, Fail> {
        let mut script = format!(in alloc; "{BEFORE}fuse log {}\n", self.passes)?;
        let acknowledged = self.acknowledged();
        for transaction in TRANSACTIONS.iter().take(acknowledged + 1) {
            script.push_str(transaction.lines)?;
        }
        if let Some(refused) = TRANSACTIONS.get(acknowledged) {
            script.push_str(&format!(in alloc; "get {} w\n", refused.name)?)?;
        }
        script.push_str(&format!(in alloc; "stop {}\n", self.keep)?)?;
        Ok(script)
    }

    /// What it prints. The life ends at the last acknowledged Commit; each transaction has four records, and a format one.
    fn printed(&self, alloc: Global) -> Result<String, Fail> {
        let mut printed = format!(in alloc; "{BEFORE_PRINTED}fuse log {}\n", self.passes)?;
        let acknowledged = self.acknowledged();
        for (number, transaction) in (1u32..).zip(TRANSACTIONS.iter().take(acknowledged)) {
            printed.push_str(transaction.printed)?;
            printed.push_str(&format!(in alloc; " {number}\n")?)?;
        }
        if let Some(refused) = TRANSACTIONS.get(acknowledged) {
            let (name, end) = (refused.name, 4 * acknowledged + 1);
            printed.push_str(refused.printed)?;
            printed.push_str(&format!(in alloc; " log failed\n{name} get w ended {end}\n")?)?;
        }
        printed.push_str("stop\n")?;
        Ok(printed)
    }
}

fn try_cut<R: Wait>(rt: &R, alloc: Global, cut: Cut) -> Result<(), Fail> {
    let first = run(rt, alloc, &cut.script(alloc)?, MemDisk::new(alloc))?;
    let is_first = is_done(alloc, &first, &cut.printed(alloc)?)?;
    let next = run(rt, alloc, NEXT, first.log)?;
    if is_first && is_done(alloc, &next, &printed_next(alloc, cut.left())?)? {
        return Ok(());
    }
    let Cut { passes, keep } = cut;
    Err(Fail::new(format_args!("{passes} calls and {keep} bytes")))
}

/// These calls are refused first. Behind the first call of a commit the bytes of its block aren't synced, of which all are
/// kept, or fewer; behind the third its gate isn't, which is one byte; and behind the others nothing.
fn try_each<R: Wait>(rt: &R, alloc: Global, refused: Range<usize>) -> Result<(), Fail> {
    for passes in refused {
        let most = if passes % 4 == 1 { LONGEST } else { 2 };
        for keep in 0..=most {
            try_cut(rt, alloc, Cut { passes, keep })?;
        }
        try_cut(rt, alloc, Cut { passes, keep: 4096 })?;
    }
    Ok(())
}

#[test]
fn a_stop_in_the_first_commit_keeps_none_or_one(rt: HostRuntime) -> Result<(), Fail> {
    try_each(&rt, rt.alloc(), 0..4)
}

#[test]
fn a_stop_in_the_second_commit_keeps_one_or_two(rt: HostRuntime) -> Result<(), Fail> {
    try_each(&rt, rt.alloc(), 4..8)
}

/// The fuse of twelve calls doesn't blow.
#[test]
fn a_stop_in_the_third_commit_or_behind_it_keeps_two_or_three(rt: HostRuntime) -> Result<(), Fail> {
    try_each(&rt, rt.alloc(), 8..13)
}
