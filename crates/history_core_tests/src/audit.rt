//! A history that is judged as it stands, and with one entry damaged.
use crate::reading::{entry_of, log_of};
use history_core::Judge;
use operators::Operators;
use std::alloc::Global;
use store_model::Memory;

/// A history behind an opening log, with its damages. Where one is refused is told by the place of the first entry that is,
/// from 0 on, and where it is legal all the same, why (see the head of the crate).
#[derive(Clone, Copy)]
pub struct History<'a> {
    pub opening: &'a str,
    /// An entry a line. Behind it stands what becomes of the history without it, and then with the next one before it.
    pub entries: &'a str,
    /// Another entry a line, with the place at which it stands, and what becomes of the history with it.
    pub changes: &'a str,
}

/// What was done to a history.
#[derive(Clone, Copy)]
enum Damage<'a> {
    Nothing,
    /// The entry at this place was left out.
    Dropped(usize),
    /// It was swapped with the next one.
    Swapped(usize),
    /// This one stands there.
    Changed(usize, &'a str),
}

/// Where an entry can't be read.
const NOT_READ: Option<usize> = Some(usize::MAX);

/// The text in this column of a line.
fn column(line: &str, place: usize) -> &str {
    line.split('|').nth(place).unwrap_or("").trim()
}

/// Which entry stands at this place where the one at that place was swapped with the next one.
fn swapped_place(place: usize, at: usize) -> usize {
    if place == at {
        place.saturating_add(1)
    } else if place > 0 && place - 1 == at {
        at
    } else {
        place
    }
}

/// Which entry stands at this place where the one at that place was left out.
fn dropped_place(place: usize, at: usize) -> usize {
    if place < at {
        place
    } else {
        place.saturating_add(1)
    }
}

/// The entry at this place of the damaged history.
fn entry_at<'a>(entries: &'a str, damage: Damage<'a>, place: usize) -> Option<&'a str> {
    let place = match damage {
        Damage::Dropped(at) => dropped_place(place, at),
        Damage::Swapped(at) => swapped_place(place, at),
        Damage::Changed(at, entry) if at == place => return Some(entry),
        _ => place,
    };
    Some(column(entries.lines().nth(place)?, 0))
}

/// Whether the judge takes an entry. None where that can't be read.
fn takes(
    alloc: Global,
    operators: &Operators,
    judge: &mut Judge,
    entry: &str,
) -> Result<Option<bool>, Memory> {
    match entry_of(alloc, entry) {
        Some(entry) => Ok(Some(judge.step(operators, &entry)?)),
        None => Ok(None),
    }
}

/// Where the first entry of the damaged history stands that the judge refuses, if it refuses one.
fn first_refused(
    alloc: Global,
    operators: &Operators,
    judge: &mut Judge,
    entries: &str,
    damage: Damage<'_>,
) -> Result<Option<usize>, Memory> {
    let mut place = 0usize;
    for _ in entries.lines() {
        let Some(entry) = entry_at(entries, damage, place) else {
            return Ok(None);
        };
        match takes(alloc, operators, judge, entry)? {
            Some(true) => {}
            Some(false) => return Ok(Some(place)),
            None => return Ok(NOT_READ),
        }
        place = place.saturating_add(1);
    }
    Ok(None)
}

/// The judge of the empty history behind the log of these lines, if that is lawful.
fn start(alloc: Global, operators: &Operators, opening: &str) -> Result<Option<Judge>, Memory> {
    match log_of(alloc, opening) {
        Some(log) => Judge::start(alloc, operators, &log),
        None => Ok(None),
    }
}

/// As [`first_refused`]. Behind a log that isn't lawful it is the first entry.
fn refused_at(
    alloc: Global,
    operators: &Operators,
    history: History<'_>,
    damage: Damage<'_>,
) -> Result<Option<usize>, Memory> {
    match start(alloc, operators, history.opening)? {
        Some(mut judge) => first_refused(alloc, operators, &mut judge, history.entries, damage),
        None => Ok(Some(0)),
    }
}

/// Whether the damaged history is judged as the table says.
fn is_judged(
    alloc: Global,
    operators: &Operators,
    history: History<'_>,
    damage: Damage<'_>,
    told: &str,
) -> Result<bool, Memory> {
    let refused = refused_at(alloc, operators, history, damage)?;
    Ok(match told {
        "last" | "told" | "unused" | "apart" | "either" => refused.is_none(),
        number => refused.is_some() && refused == number.parse::<usize>().ok(),
    })
}

/// The first entry whose leaving out, or whose swap with the next one, is judged otherwise.
fn other_entry<'a>(
    alloc: Global,
    operators: &Operators,
    history: History<'a>,
) -> Result<Option<&'a str>, Memory> {
    let mut place = 0usize;
    for line in history.entries.lines() {
        let (dropped, swapped) = (column(line, 1), column(line, 2));
        if !is_judged(alloc, operators, history, Damage::Dropped(place), dropped)? {
            return Ok(Some(line));
        }
        // the last one has no next one
        if !swapped.is_empty()
            && !is_judged(alloc, operators, history, Damage::Swapped(place), swapped)?
        {
            return Ok(Some(line));
        }
        place = place.saturating_add(1);
    }
    Ok(None)
}

/// The first change that is judged otherwise.
fn other_change<'a>(
    alloc: Global,
    operators: &Operators,
    history: History<'a>,
) -> Result<Option<&'a str>, Memory> {
    for line in history.changes.lines() {
        let (entry, told) = (column(line, 0), column(line, 2));
        let Some(at) = column(line, 1).parse::<usize>().ok() else {
            return Ok(Some(line));
        };
        if !is_judged(alloc, operators, history, Damage::Changed(at, entry), told)? {
            return Ok(Some(line));
        }
    }
    Ok(None)
}

/// The first line of a table that is judged otherwise than it says; its opening log where the history is refused as it
/// stands. None where all is as it should be.
pub fn first_other<'a>(
    alloc: Global,
    operators: &Operators,
    history: History<'a>,
) -> Result<Option<&'a str>, Memory> {
    if refused_at(alloc, operators, history, Damage::Nothing)?.is_some() {
        return Ok(Some(history.opening));
    }
    match other_entry(alloc, operators, history)? {
        Some(line) => Ok(Some(line)),
        None => other_change(alloc, operators, history),
    }
}
