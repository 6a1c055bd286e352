//! Stores of several pages. A leaf has room for 4,045 bytes of rows, four less beside a fence of four bytes, and a row has
//! four more than its key and its value.

use script_runs::{Case, try_cases, try_script};
use std::alloc::Global;
use std::ops::Range;
use std::test::Fail;

const LETTERS: &str = "abcdefghijklmnopqrst";

/// A script that puts three hundred rows of 28 bytes, and the first page is split behind 144 of them.
fn rows_put(alloc: Global) -> Result<String, Fail> {
    let mut script = String::from_str(alloc, "format\nopen\nbegin A\n")?;
    for number in 0..300 {
        script.push_str(&format!(in alloc; "put A k{number:03} {LETTERS}\n")?)?;
        if number == 144 {
            script.push_str("stat\n")?;
        }
    }
    Ok(script)
}

/// What it prints.
fn rows_answered(alloc: Global) -> Result<String, Fail> {
    let mut printed = String::from_str(alloc, "format ok\nopen commits=0 losers=0\nA begin\n")?;
    for number in 0..300 {
        printed.push_str(&format!(in alloc; "A put k{number:03} was none\n")?)?;
        if number == 144 {
            printed.push_str(
                "stat commits=0 losers=0 undone=0 repaired=0 pages=2 lost=0 restored=0\n",
            )?;
        }
    }
    Ok(printed)
}

/// The lines of a scan for rows with these numbers.
fn add_rows(alloc: Global, printed: &mut String, name: &str, rows: Range<u32>) -> Result<(), Fail> {
    for number in rows {
        printed.push_str(&format!(in alloc; "{name} row k{number:03} = {LETTERS}\n")?)?;
    }
    Ok(())
}

/// All rows are read, one is deleted, and a later life finds the others.
const BEHIND: &str = "stat\ncommit A\nbegin S\nscan S % %\nabort S\nbegin B\ndel B k150\ncommit B\n\
    begin C\nscan C k149 k152\nstat\nstop\nopen\nbegin D\nget D k150\nget D k299\nstat\nscan D % %\n";

#[test]
fn three_hundred_rows_have_five_pages(rt: HostRuntime) -> Result<(), Fail> {
    let alloc = rt.alloc();
    let script = format!(in alloc; "{}{BEHIND}", rows_put(alloc)?)?;
    let mut printed = rows_answered(alloc)?;
    printed.push_str(
        "stat commits=0 losers=0 undone=0 repaired=0 pages=5 lost=0 restored=0\n\
        A commit 1\nS begin\nS scan % % pairs=300\n",
    )?;
    add_rows(alloc, &mut printed, "S", 0..300)?;
    printed.push_str("S abort\nB begin\n")?;
    printed.push_str(&format!(in alloc; "B del k150 was = {LETTERS}\n")?)?;
    printed.push_str("B commit 2\nC begin\nC scan k149 k152 pairs=2\n")?;
    add_rows(alloc, &mut printed, "C", 149..150)?;
    add_rows(alloc, &mut printed, "C", 151..152)?;
    printed.push_str(
        "stat commits=2 losers=0 undone=0 repaired=0 pages=5 lost=0 restored=0\n\
        stop\nopen commits=2 losers=0\nD begin\nD get k150 none\n",
    )?;
    printed.push_str(&format!(in alloc; "D get k299 = {LETTERS}\n")?)?;
    printed.push_str(
        "stat commits=2 losers=0 undone=0 repaired=0 pages=5 lost=0 restored=0\n\
        D scan % % pairs=299\n",
    )?;
    add_rows(alloc, &mut printed, "D", 0..150)?;
    add_rows(alloc, &mut printed, "D", 151..300)?;
    try_script(&rt, alloc, &script, &printed)
}

/// Rows of 261 bytes, of which fifteen are on a page.
const PURGED: [Case; 1] = [
    // Where three rows are deleted and three others put in their place, the undo of the first deletion finds no room: it
    // purges the page of its deleted rows, and then splits it.
    Case {
        script: "format 8\nopen\nbegin A\nput A a V\nput A b V\nput A c V\nput A d V\nput A e V\n\
            put A f V\nput A g V\ncommit A\nbegin B\nput B g V\nput B h V\nput B i V\nput B j V\n\
            put B k V\nput B l V\ncommit B\nbegin C\nput C m V\nput C n V\nput C o V\ncommit C\n\
            begin D\ndel D a\ndel D b\ndel D c\nbegin E\nput E p V\nput E q V\nput E r V\ncommit E\n\
            abort D\nstat\nbegin F\nget F a\n",
        printed: "format ok\nopen commits=0 losers=0\nA begin\nA put a was none\nA put b was none\n\
            A put c was none\nA put d was none\nA put e was none\nA put f was none\n\
            A put g full 1 6\nA commit 1\nB begin\nB put g was none\nB put h was none\n\
            B put i was none\nB put j was none\nB put k was none\nB put l was none\nB commit 2\n\
            C begin\nC put m was none\nC put n was none\nC put o was none\nC commit 3\n\
            D begin\nD del a was = V\nD del b was = V\nD del c was = V\nE begin\n\
            E put p was none\nE put q was none\nE put r was none\nE commit 4\nD abort\n\
            stat commits=4 losers=0 undone=3 repaired=0 pages=2 lost=0 restored=0\n\
            F begin\nF get a = V\n",
    },
];

#[test]
fn an_undo_purges_and_splits_a_page_without_room(rt: HostRuntime) -> Result<(), Fail> {
    try_cases(&rt, rt.alloc(), &PURGED)
}
