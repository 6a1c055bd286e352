//! A fuse of the log disk that blows at each call in turn, of a life with a split, an abort and a loser, and then of the life
//! behind it, which undoes what was left open, by requests or by help; and a stop behind either.

use media_mem::MemDisk;
use script_runs::{Ran, is_done, run};
use std::alloc::Global;
use std::sync::Wait;
use std::test::Fail;

/// A page with fifteen rows is split for the sixteenth.
const BEFORE: &str = "format 64\nopen\nbegin A\nbegin B\nbegin C\nbegin D\nbegin L\n\
    put A a V\nput A b V\nput A c V\nput A d V\nput A e V\nput A f V\nput A g V\nput A h V\nput A i V\n\
    put A j V\nput A k V\nput A l V\nput A m V\nput A n V\nput A o V\nput A p V\n";

const BEFORE_PRINTED: &str =
    "format ok\nopen commits=0 losers=0\nA begin\nB begin\nC begin\nD begin\nL begin\n\
    A put a was none\nA put b was none\nA put c was none\nA put d was none\nA put e was none\nA put f was none\n\
    A put g was none\nA put h was none\nA put i was none\nA put j was none\nA put k was none\nA put l was none\n\
    A put m was none\nA put n was none\nA put o was none\nA put p was none\n";

/// The lines behind them, each with what its answer begins with, and the rest of it: the root grows and adopts in the first put, C's commit makes the writes of L and B durable, and D's
/// commit the undo of B.
const LINES: [(&str, &str, &str); 11] = [
    ("commit A", "A commit", " 1"),
    ("put L a 1", "L put a", " was = V"),
    ("put B b 1", "B put b", " was = V"),
    ("del B c", "B del c", " was = V"),
    ("put C q 1", "C put q", " was none"),
    ("commit C", "C commit", " 2"),
    ("abort B", "B abort", ""),
    ("put D b 2", "D put b", " was = V"),
    ("get D c", "D get c", " = V"),
    ("commit D", "D commit", " 3"),
    ("put L p 1", "L put p", " was = V"),
];

/// A line of a script, what its answer begins with, and the rest of it.
#[derive(Drop)]
struct Line {
    asked: String,
    head: String,
    answer: String,
}

fn line_of(alloc: Global, asked: &str, head: &str, answer: &str) -> Result<Line, Fail> {
    Ok(Line {
        asked: String::from_str(alloc, asked)?,
        head: String::from_str(alloc, head)?,
        answer: String::from_str(alloc, answer)?,
    })
}

/// A life: the lines before its fuse, those behind it, and the last durable record behind so many of their commits.
#[derive(Drop)]
struct Life {
    before: String,
    before_printed: String,
    lines: Vec<Line>,
    durable: [u64; 4],
    /// The commits of the first life that this one finds, where it is the second.
    left: Option<usize>,
}

/// The first life, with so many of its lines. The log has Format, then sixteen Writes, a Split and a Commit, then Grow, Adopt,
/// four Writes and a Commit, then two Undos, an End, a Write and a Commit.
fn first_life(alloc: Global, lines: usize) -> Result<Life, Fail> {
    let mut taken = Vec::new(alloc);
    for (asked, head, answer) in LINES.iter().take(lines) {
        taken.push(line_of(alloc, asked, head, answer)?)?;
    }
    Ok(Life {
        before: String::from_str(alloc, BEFORE)?,
        before_printed: String::from_str(alloc, BEFORE_PRINTED)?,
        lines: taken,
        durable: [1, 19, 26, 31],
        left: None,
    })
}

/// What so many commits leave: losers, their writes, and pages. Before D's commit B is one of the losers.
const LEFT: [(u64, u64, u64); 4] = [(0, 0, 1), (0, 0, 2), (2, 3, 3), (1, 1, 3)];

/// The pairs that so many commits of the first life leave, as a scan for Q shows them.
fn pairs_shown(alloc: Global, left: usize) -> Result<String, Fail> {
    let pairs = [0, 16, 17, 17].get(left).copied().unwrap_or(0);
    let mut shown = format!(in alloc; " pairs={pairs}")?;
    for key in "abcdefghijklmnopq".chars().take(pairs) {
        let value = match key {
            'b' if left == 3 => "2",
            'q' => "1",
            _ => "V",
        };
        shown.push_str(&format!(in alloc; "\nQ row {key} = {value}")?)?;
    }
    Ok(shown)
}

/// What a stat shows of a life that has undone so many writes.
fn stat_shown(alloc: Global, commits: usize, undone: u64, pages: u64) -> Result<String, Fail> {
    Ok(format!(in alloc;
        " commits={commits} losers=0 undone={undone} repaired=0 pages={pages} lost=0 restored=0"
    )?)
}

/// A life that reads all.
const AUDIT: &str = "open\nbegin Q\nscan Q % %\nstat\n";

/// What it prints behind so many commits of the first life and of the second.
fn audit(alloc: Global, left: usize, second: usize) -> Result<String, Fail> {
    let (losers, undone, pages) = LEFT.get(left).copied().unwrap_or((0, 0, 0));
    let (losers, undone) = if second == 0 {
        (losers, undone)
    } else {
        (0, 0)
    };
    let commits = left.saturating_add(second);
    let (pairs, stat) = (
        pairs_shown(alloc, left)?,
        stat_shown(alloc, commits, undone, pages)?,
    );
    Ok(format!(in alloc;
        "open commits={commits} losers={losers}\nQ begin\nQ scan % %{pairs}\nstat{stat}\n"
    )?)
}

impl Life {
    fn script(&self, alloc: Global, calls: u64, keep: u64) -> Result<String, Fail> {
        let mut script = format!(in alloc; "{}fuse log {calls}\n", self.before)?;
        for line in &self.lines {
            script.push_str(&line.asked)?;
            script.push_str("\n")?;
        }
        script.push_str(&format!(in alloc; "stop {keep}\n")?)?;
        Ok(script)
    }

    /// How many of the first lines are commits.
    fn commits(&self, lines: usize) -> usize {
        self.lines
            .iter()
            .take(lines)
            .filter(|line| line.asked.starts_with("commit"))
            .count()
    }

    /// What it prints where the fuse blows at this line: those behind it are answered as ended.
    fn printed(&self, alloc: Global, calls: u64, blown: usize) -> Result<String, Fail> {
        let durable = self.durable.get(self.commits(blown)).copied().unwrap_or(0);
        let mut printed = format!(in alloc; "{}fuse log {calls}\n", self.before_printed)?;
        for (place, line) in self.lines.iter().enumerate() {
            printed.push_str(&line.head)?;
            if place < blown {
                printed.push_str(&line.answer)?;
            } else if place == blown {
                printed.push_str(" log failed")?;
            } else {
                printed.push_str(&format!(in alloc; " ended {durable}")?)?;
            }
            printed.push_str("\n")?;
        }
        printed.push_str("stop\n")?;
        Ok(printed)
    }

    /// At which line the fuse blew, from this one on: the number of lines where at none.
    fn blown(&self, alloc: Global, ran: &Ran, calls: u64, from: usize) -> Result<usize, Fail> {
        for blown in from..=self.lines.len() {
            if is_done(alloc, ran, &self.printed(alloc, calls, blown)?)? {
                return Ok(blown);
            }
        }
        Err(Fail::new(format_args!("{calls} calls, from line {from}")))
    }

    /// How many of its commits a stop leaves: those that were acknowledged, and one more where of its four calls the last was
    /// refused, so that it has opened its gate, and that is kept.
    fn commits_left(&self, blown: usize, times: u32, keep: u64) -> usize {
        let one_more = if times == 4 && keep > 0 { 1 } else { 0 };
        self.commits(blown.saturating_add(one_more))
    }

    /// The fuse blows at each call in turn, until it blows at none. Each time the next life finds what is left.
    fn try_each<R: Wait>(
        &self,
        rt: &R,
        alloc: Global,
        bytes: &[u8],
        keep: u64,
    ) -> Result<(), Fail> {
        let (mut line, mut times) = (0usize, 0u32);
        for calls in 0..100 {
            let script = self.script(alloc, calls, keep)?;
            let ran = run(rt, alloc, &script, MemDisk::with_bytes(alloc, bytes)?)?;
            let blown = self.blown(alloc, &ran, calls, line)?;
            times = if blown == line {
                times.saturating_add(1)
            } else {
                1
            };
            line = blown;
            let commits = self.commits_left(blown, times, keep);
            let printed = match self.left {
                None => audit(alloc, commits, 0)?,
                Some(left) => audit(alloc, left, commits)?,
            };
            let next = run(rt, alloc, AUDIT, ran.log)?;
            if !is_done(alloc, &next, &printed)? {
                return Err(Fail::new(format_args!("behind {calls} calls")));
            }
            if blown == self.lines.len() {
                return Ok(());
            }
        }
        Err(Fail::new("the fuse blows always"))
    }
}

#[test]
fn a_stop_at_each_call_leaves_what_was_acknowledged(rt: HostRuntime) -> Result<(), Fail> {
    let alloc = rt.alloc();
    let life = first_life(alloc, LINES.len())?;
    for keep in [0, 4096] {
        life.try_each(&rt, alloc, &[], keep)?;
    }
    Ok(())
}

/// The second life undoes the losers as it reads all, perhaps behind three steps of help, which end a loser, and a stop comes at each of its calls.
fn try_second<R: Wait>(
    rt: &R,
    alloc: Global,
    bytes: &[u8],
    left: usize,
    durable: u64,
    helps: bool,
) -> Result<(), Fail> {
    let (losers, undone, pages) = LEFT.get(left).copied().unwrap_or((0, 0, 0));
    let before_printed = format!(in alloc; "open commits={left} losers={losers}\nQ begin\n")?;
    let pairs = pairs_shown(alloc, left)?;
    let stat = stat_shown(alloc, left, undone, pages)?;
    let committed = format!(in alloc; " {}", left.saturating_add(1))?;
    let mut lines = Vec::new(alloc);
    if helps {
        lines.push(line_of(alloc, "help 3", "help", " ok")?)?;
    }
    lines.push(line_of(alloc, "scan Q % %", "Q scan % %", &pairs)?)?;
    lines.push(line_of(alloc, "stat", "stat", &stat)?)?;
    lines.push(line_of(alloc, "commit Q", "Q commit", &committed)?)?;
    let second = Life {
        before: String::from_str(alloc, "open\nbegin Q\n")?,
        before_printed,
        lines,
        durable: [durable; 4],
        left: Some(left),
    };
    second.try_each(rt, alloc, bytes, 0)?;
    second.try_each(rt, alloc, bytes, 4096)
}

#[test]
fn a_stop_at_each_call_of_an_undo_leaves_the_same(rt: HostRuntime) -> Result<(), Fail> {
    let alloc = rt.alloc();
    for (lines, left, durable) in [(6, 2, 26), (11, 3, 31)] {
        let life = first_life(alloc, lines)?;
        let script = life.script(alloc, 100, 0)?;
        let ran = run(&rt, alloc, &script, MemDisk::new(alloc))?;
        assert!(rt; is_done(alloc, &ran, &life.printed(alloc, 100, lines)?)?);
        for helps in [false, true] {
            try_second(&rt, alloc, ran.log.bytes(), left, durable, helps)?;
        }
    }
    Ok(())
}
