//! Lines, by the number of words behind the first.
ghost use Rattle.std.specs.Prelude.{◌≡◌, IfOk, OnOk};
ghost use Rattle.script.specs.Line.{upkeep, alone, with_number, or_step, with_one, with_two, with_three, with_four, parallel_of, fuse_of, device_of, asks, steps, reads, behind_one, behind_two, behind_three, by_words};
ghost use Rattle.std.specs.Option.{option_copied};

use crate::command::Command;
use crate::field::{device, number_from};
use crate::name::Name;
use crate::request::{request_of_one, request_of_three, request_of_two};
use crate::word::cut;
use std::alloc::{AllocError, Global};
use store_model::{LEAST_LIMIT, MOST_PAGES, Request, number_in};

#[tactic(auto, unfolding(crate::specs::Line::upkeep))]
fn upkeep(word: &[u8]) -> Option<Command>
    ensures { result ≡ upkeep word.now }
{
    if word == b"checkpoint".as_slice() {
        Some(Command::Checkpoint)
    } else if word == b"backup".as_slice() {
        Some(Command::Backup)
    } else if word == b"archive".as_slice() {
        Some(Command::Archive)
    } else if word == b"merge".as_slice() {
        Some(Command::Merge)
    } else if word == b"recycle".as_slice() {
        Some(Command::Recycle)
    } else if word == b"lose".as_slice() {
        Some(Command::Lose)
    } else {
        None
    }
}

#[tactic(auto, unfolding(crate::specs::Line::alone))]
fn alone(word: &[u8]) -> Option<Command>
    ensures { result ≡ alone word.now }
{
    if word == b"format".as_slice() {
        Some(Command::Format { limit: None })
    } else if word == b"open".as_slice() {
        Some(Command::Open)
    } else if word == b"stat".as_slice() {
        Some(Command::Stat)
    } else if word == b"close".as_slice() {
        Some(Command::Close)
    } else if word == b"stop".as_slice() {
        Some(Command::Stop { keep: None })
    } else if word == b"end".as_slice() {
        Some(Command::End)
    } else {
        upkeep(word)
    }
}

#[tactic(auto, unfolding(crate::specs::Line::with_number))]
fn with_number(word: &[u8], first: &[u8]) -> Option<Command>
    ensures { result ≡ with_number word.now first.now }
{
    if word == b"format".as_slice() {
        number_from(LEAST_LIMIT, MOST_PAGES, first).map(|limit| Command::Format {
            limit: Some(limit),
        })
    } else if word == b"help".as_slice() {
        number_from(1, 1_000_000, first).map(|steps| Command::Help { steps })
    } else if word == b"stop".as_slice() {
        number_in(first).map(|keep| Command::Stop { keep: Some(keep) })
    } else if word == b"damage".as_slice() {
        number_from(1, MOST_PAGES, first).map(|page| Command::Damage { page })
    } else if word == b"worker".as_slice() {
        number_from(1, 1_000, first).map(|transactions| Command::Worker { transactions })
    } else {
        None
    }
}

#[tactic(auto, unfolding(crate::specs::Line::with_one))]
fn with_one(
    alloc: Global,
    word: &[u8],
    first: &[u8],
    into: &mut Option<Command>,
) -> Result<(), AllocError>
    ensures { OnOk result (into.new ≡ with_one word.now first.now) }
{
    if word == b"begin".as_slice() {
        *into = Name::new(first).map(|name| Command::Begin(name));
    } else if word == b"commit".as_slice() {
        *into = Name::new(first).map(|name| Command::Commit(name));
    } else if word == b"abort".as_slice() {
        *into = Name::new(first).map(|name| Command::Abort(name));
    } else if word == b"renew".as_slice() {
        *into = device(first).map(|device| Command::Renew { device });
    } else {
        *into = match with_number(word, first) {
            Some(command) => Some(command),
            None => request_of_one(alloc, word, first)?.map(|request| Command::Step(request)),
        };
    }
    Ok(())
}

fn parallel(workers: Option<u32>, retries: Option<u32>, show: bool) -> Option<Command>
    ensures { result ≡ parallel_of workers retries show }
{
    match workers {
        None => None,
        Some(workers) => retries.map(|retries| Command::Parallel {
            workers,
            retries,
            show,
        }),
    }
}

fn fuse(first: &[u8], calls: Option<u64>) -> Option<Command>
    ensures { result ≡ fuse_of (device_of first.now) calls }
{
    match device(first) {
        None => None,
        Some(device) => calls.map(|calls| Command::Fuse { device, calls }),
    }
}

/// A request of the transaction that a word names.
fn asks(name: &[u8], request: Option<Request>, into: &mut Option<Command>)
    ensures { into.new ≡ asks name.now request }
{
    match request {
        None => *into = None,
        Some(request) => match Name::new(name) {
            None => *into = None,
            Some(name) => *into = Some(Command::Ask(name, request)),
        },
    }
}

#[tactic(auto, unfolding(crate::specs::Line::with_two))]
fn with_two(
    alloc: Global,
    word: &[u8],
    first: &[u8],
    second: &[u8],
    into: &mut Option<Command>,
) -> Result<(), AllocError>
    ensures { OnOk result (into.new ≡ with_two word.now first.now second.now) }
{
    if word == b"fuse".as_slice() {
        *into = fuse(first, number_in(second));
    } else if word == b"parallel".as_slice() {
        *into = parallel(
            number_from(1, 16, first),
            number_from(0, 1_000_000, second),
            false,
        );
    } else {
        match request_of_two(alloc, word, first, second)? {
            Some(request) => *into = Some(Command::Step(request)),
            None => asks(first, request_of_one(alloc, word, second)?, into),
        }
    }
    Ok(())
}

#[tactic(auto, unfolding(crate::specs::Line::with_three))]
fn with_three(
    alloc: Global,
    word: &[u8],
    first: &[u8],
    second: &[u8],
    third: &[u8],
    into: &mut Option<Command>,
) -> Result<(), AllocError>
    ensures { OnOk result (into.new ≡ with_three word.now first.now second.now third.now) }
{
    if word == b"parallel".as_slice() {
        *into = None;
        if third == b"show".as_slice() {
            *into = parallel(
                number_from(1, 16, first),
                number_from(0, 1_000_000, second),
                true,
            );
        }
        return Ok(());
    }
    match request_of_three(alloc, word, first, second, third)? {
        Some(request) => *into = Some(Command::Step(request)),
        None => asks(first, request_of_two(alloc, word, second, third)?, into),
    }
    Ok(())
}

#[tactic(auto, unfolding(crate::specs::Line::with_four))]
fn with_four(
    alloc: Global,
    word: &[u8],
    first: &[u8],
    second: &[u8],
    third: &[u8],
    fourth: &[u8],
    into: &mut Option<Command>,
) -> Result<(), AllocError>
    ensures { OnOk result (into.new ≡ with_four word.now first.now second.now third.now fourth.now) }
{
    asks(
        first,
        request_of_three(alloc, word, second, third, fourth)?,
        into,
    );
    Ok(())
}

fn behind_three(
    alloc: Global,
    word: &[u8],
    first: &[u8],
    second: &[u8],
    third: &[u8],
    rest: Option<&[u8]>,
    into: &mut Option<Command>,
) -> Result<(), AllocError>
    ensures { OnOk result (into.new ≡ behind_three word.now first.now second.now third.now (option_copied rest.entry)) }
{
    match rest {
        None => with_three(alloc, word, first, second, third, into),
        Some(fourth) => with_four(alloc, word, first, second, third, fourth, into),
    }
}

fn behind_two(
    alloc: Global,
    word: &[u8],
    first: &[u8],
    second: &[u8],
    rest: Option<&[u8]>,
    into: &mut Option<Command>,
) -> Result<(), AllocError>
    ensures { OnOk result (into.new ≡ behind_two word.now first.now second.now (option_copied rest.entry)) }
{
    match rest {
        None => with_two(alloc, word, first, second, into),
        Some(rest) => {
            let (third, rest) = cut(rest);
            behind_three(alloc, word, first, second, third, rest, into)
        }
    }
}

fn behind_one(
    alloc: Global,
    word: &[u8],
    first: &[u8],
    rest: Option<&[u8]>,
    into: &mut Option<Command>,
) -> Result<(), AllocError>
    ensures { OnOk result (into.new ≡ behind_one word.now first.now (option_copied rest.entry)) }
{
    match rest {
        None => with_one(alloc, word, first, into),
        Some(rest) => {
            let (second, rest) = cut(rest);
            behind_two(alloc, word, first, second, rest, into)
        }
    }
}

/// Reads a command into its place. It has some 400 bytes, and each function that hands it on would move it.
fn by_words(
    alloc: Global,
    word: &[u8],
    rest: Option<&[u8]>,
    into: &mut Option<Command>,
) -> Result<(), AllocError>
    ensures { OnOk result (into.new ≡ by_words word.now (option_copied rest.entry)) }
{
    match rest {
        None => {
            *into = alone(word);
            Ok(())
        }
        Some(rest) => {
            let (first, rest) = cut(rest);
            behind_one(alloc, word, first, rest, into)
        }
    }
}

/// The command that a line without its end spells, if it spells one.
#[tactic(auto, unfolding(crate::specs::Line::reads))]
pub fn command_of(alloc: Global, line: &[u8]) -> Result<Option<Command>, AllocError>
    ensures { IfOk result (λ r. r ≡ reads line.now) }
{
    match line {
        [] => Ok(Some(Command::Nothing)),
        [b'#', ..] => Ok(Some(Command::Nothing)),
        _ => {
            let (word, rest) = cut(line);
            let mut command = None;
            by_words(alloc, word, rest, &mut command)?;
            Ok(command)
        }
    }
}
