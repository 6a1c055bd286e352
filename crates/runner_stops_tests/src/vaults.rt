//! A life with a backup, an archive run and a lost device: the log disk refuses each of its calls in turn, and then the machine
//! stops; the vault fails at each of its calls in turn, and so does the data device. What the next life finds is written down.

use media::{Devices, PageDevice};
use media_mem::{MemDisk, MemPages, MemVault};
use runner::Status;
use script_runs::{Left, Ran, is_done, run, run_devices};
use std::alloc::Global;
use std::sync::Wait;
use std::test::Fail;

/// A line, what its answer begins with, the rest of it, and up to which LSN the log is durable behind it.
#[derive(Clone, Copy)]
struct Line(&'static str, &'static str, &'static str, u64);

/// A transaction that hasn't begun can't ask in an ended life, so all begin first.
const BEFORE: &str = "format 64\nopen\nbegin A\nbegin B\nbegin C\n";

const BEFORE_PRINTED: &str = "format ok\nopen commits=0 losers=0\nA begin\nB begin\nC begin\n";

/// The lines behind these. The log has Format, then two Writes and a Commit, a BackupDone, a Write and a Commit, a RunDone, a
/// Lost, and a Restored and a Commit.
const LINES: [Line; 12] = [
    Line("put A apple 1", "A put apple", " was none", 1),
    Line("put A pear 2", "A put pear", " was none", 1),
    Line("commit A", "A commit", " 1", 4),
    Line("backup", "backup", " ok", 5),
    Line("put B apple 3", "B put apple", " was = 1", 5),
    Line("commit B", "B commit", " 2", 7),
    Line("archive", "archive", " runs=1", 8),
    Line("lose", "lose", " ok", 9),
    Line("get C apple", "C get apple", " = 3", 9),
    Line("get C pear", "C get pear", " = 2", 9),
    Line("commit C", "C commit", " 3", 11),
    Line("stat", "stat", STAT, 11),
];

/// The page has come back with its segment, which is no repair.
const STAT: &str = " commits=3 losers=0 undone=0 repaired=0 pages=1 lost=1 restored=1";

/// What gets of apple and pear answer behind none, one, two and three of the commits.
const ANSWERS: [[&str; 2]; 4] = [
    ["none", "none"],
    ["= 1", "= 2"],
    ["= 3", "= 2"],
    ["= 3", "= 2"],
];

/// The next life reads both keys, makes a backup and a run, loses the device, and reads both again.
const NEXT: &str = "open\nbegin D\nget D apple\nget D pear\ncommit D\nbackup\narchive\nlose\n\
    begin E\nget E apple\nget E pear\ncommit E\n";

/// What it prints where it finds so many commits.
fn printed_next(alloc: Global, left: usize) -> Result<String, Fail> {
    let Some([apple, pear]) = ANSWERS.get(left) else {
        return Err(Fail::new("too many commits"));
    };
    let (next, last) = (left + 1, left + 2);
    Ok(format!(in alloc;
        "open commits={left} losers=0\nD begin\nD get apple {apple}\nD get pear {pear}\nD commit {next}\n\
        backup ok\narchive runs=1\nlose ok\nE begin\nE get apple {apple}\nE get pear {pear}\nE commit {last}\n"
    )?)
}

/// How many of the first lines are commits.
fn commits(lines: usize) -> usize {
    LINES
        .iter()
        .take(lines)
        .filter(|line| line.0.starts_with("commit"))
        .count()
}

/// All lines, or all but `stat`.
fn script(alloc: Global, stats: bool) -> Result<String, Fail> {
    let mut script = String::new(alloc);
    for Line(asked, ..) in &LINES {
        if stats || *asked != "stat" {
            script.push_str(&format!(in alloc; "{asked}\n")?)?;
        }
    }
    Ok(script)
}

/// What so many of the first lines print, or what they print but for `stat`.
fn printed(alloc: Global, lines: usize, stats: bool) -> Result<String, Fail> {
    let mut printed = String::from_str(alloc, BEFORE_PRINTED)?;
    for Line(asked, head, answer, _) in LINES.iter().take(lines) {
        if stats || *asked != "stat" {
            printed.push_str(&format!(in alloc; "{head}{answer}\n")?)?;
        }
    }
    Ok(printed)
}

/// What all of them print, or all but `stat`, and the close.
fn printed_all(alloc: Global, stats: bool) -> Result<String, Fail> {
    let lines = printed(alloc, LINES.len(), stats)?;
    Ok(format!(in alloc; "{lines}close ok\n")?)
}

/// At which line a fuse has blown, and at which of its calls of the log disk.
#[derive(Clone, Copy)]
struct Blown {
    line: usize,
    call: u32,
}

/// So many calls of the log disk pass, and behind the lines a stop keeps so many of the bytes written since the last sync.
#[derive(Clone, Copy)]
struct Cut {
    passes: u64,
    keep: u64,
}

impl Cut {
    /// All lines, the stop, and the next life over the same devices.
    fn script(&self, alloc: Global) -> Result<String, Fail> {
        let Cut { passes, keep } = self;
        let lines = script(alloc, true)?;
        Ok(format!(in alloc; "{BEFORE}fuse log {passes}\n{lines}stop {keep}\n{NEXT}")?)
    }

    /// What it prints: the lines behind the one at which the fuse has blown are answered as ended.
    fn printed(&self, alloc: Global, blown: Blown) -> Result<String, Fail> {
        let mut printed = format!(in alloc; "{BEFORE_PRINTED}fuse log {}\n", self.passes)?;
        let mut durable = 1;
        for (place, Line(_, head, answer, behind)) in LINES.iter().enumerate() {
            printed.push_str(head)?;
            if place < blown.line {
                printed.push_str(answer)?;
                durable = *behind;
            } else if place == blown.line {
                printed.push_str(" log failed")?;
            } else {
                printed.push_str(&format!(in alloc; " ended {durable}")?)?;
            }
            printed.push_str("\n")?;
        }
        printed.push_str("stop\n")?;
        printed.push_str(&printed_next(alloc, self.left(blown))?)?;
        Ok(printed)
    }

    /// How many commits the stop leaves: those that were acknowledged, and one more where of a commit's four calls the last was
    /// refused, so that it has opened its gate, and that is kept.
    fn left(&self, blown: Blown) -> usize {
        if blown.call == 4 && self.keep > 0 {
            commits(blown.line.saturating_add(1))
        } else {
            commits(blown.line)
        }
    }

    /// Where the fuse has blown, if one with a call less has blown here: at the next call of that line, or at a line behind it.
    fn blown(&self, alloc: Global, ran: &Ran, last: Blown) -> Result<Blown, Fail> {
        for line in last.line..=LINES.len() {
            let call = if line == last.line {
                last.call.saturating_add(1)
            } else {
                1
            };
            let blown = Blown { line, call };
            if is_done(alloc, ran, &self.printed(alloc, blown)?)? {
                return Ok(blown);
            }
        }
        let Cut { passes, keep } = self;
        Err(Fail::new(format_args!("{passes} calls and {keep} bytes")))
    }
}

/// The fuse blows at each call in turn, until it blows at none.
fn try_each<R: Wait>(rt: &R, alloc: Global, keep: u64) -> Result<(), Fail> {
    let mut blown = Blown { line: 0, call: 0 };
    for passes in 0..100 {
        let cut = Cut { passes, keep };
        let ran = run(rt, alloc, &cut.script(alloc)?, MemDisk::new(alloc))?;
        blown = cut.blown(alloc, &ran, blown)?;
        if blown.line == LINES.len() {
            return Ok(());
        }
    }
    Err(Fail::new("the fuse blows always"))
}

#[test]
fn a_stop_at_each_call_of_a_life_with_a_vault_leaves_what_was_acknowledged(
    rt: HostRuntime,
) -> Result<(), Fail> {
    for keep in [0, 4096] {
        try_each(&rt, rt.alloc(), keep)?;
    }
    Ok(())
}

/// The lines, or all but `stat`, and a close, on blank devices. Of the data device and of the vault the calls with these numbers fail.
fn run_lines<R: Wait>(
    rt: &R,
    alloc: Global,
    stats: bool,
    pages: &[u64],
    vault: &[u64],
) -> Result<Left, Fail> {
    let lines = script(alloc, stats)?;
    let devices = Devices {
        log: MemDisk::new(alloc),
        pages: MemPages::failing(alloc, pages.to_vec(alloc)?),
        vault: MemVault::failing(alloc, vault.to_vec(alloc)?),
    };
    run_devices(
        rt,
        alloc,
        &format!(in alloc; "{BEFORE}{lines}close\n")?,
        devices,
    )
}

/// A backup puts an object and syncs it, and so does an archive; a page whose place in a backup's object is its own is read in two
/// calls. The run ends before this line is answered.
#[test]
fn each_call_of_the_vault_that_fails_ends_the_run_and_no_more(rt: HostRuntime) -> Result<(), Fail> {
    let alloc = rt.alloc();
    for (call, line) in [(1, 3), (2, 3), (3, 6), (4, 6), (5, 8), (6, 8)] {
        let first = run_lines(&rt, alloc, true, &[], &[call])?;
        assert_eq!(rt; first.status, Status::VaultFault, "{call}");
        assert_eq!(rt;
            first.printed.as_str(),
            printed(alloc, line, true)?.as_str(),
            "{call}"
        );
        let next = run_devices(&rt, alloc, NEXT, first.devices)?;
        let wanted = printed_next(alloc, commits(line))?;
        assert_eq!(rt; next.status, Status::Done, "{call}");
        assert_eq!(rt; next.printed.as_str(), wanted.as_str(), "{call}");
    }
    let last = run_lines(&rt, alloc, true, &[], &[7])?;
    assert_eq!(rt; last.status, Status::Done);
    assert_eq!(rt; last.printed.as_str(), printed_all(alloc, true)?.as_str());
    Ok(())
}

/// It fails at one call more each time, until that call isn't made.
#[test]
fn each_call_of_the_data_device_that_fails_changes_no_answer(rt: HostRuntime) -> Result<(), Fail> {
    let alloc = rt.alloc();
    let wanted = printed_all(alloc, false)?;
    for call in 1..100 {
        let left = run_lines(&rt, alloc, false, &[call], &[])?;
        assert_eq!(rt; left.status, Status::Done, "{call}");
        assert_eq!(rt; left.printed.as_str(), wanted.as_str(), "{call}");
        let next = run_devices(&rt, alloc, NEXT, left.devices)?;
        assert_eq!(rt;
            next.printed.as_str(),
            printed_next(alloc, 3)?.as_str(),
            "{call}"
        );
        if next.devices.pages.faults() == 0 {
            return Ok(());
        }
    }
    Err(Fail::new("the device fails always"))
}
