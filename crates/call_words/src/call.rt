//! What a call asks for.
ghost use Rattle.std.specs.Prelude.{◌≡◌, IfOk, None, Some, map, option_map};
ghost use Rattle.clap.specs.Words.{found_of, rows_of};
ghost use Rattle.call_words.specs.Calls.{asked, asked_by, call_of, mode_of, number_of};
ghost use Rattle.call_words.specs.declared.refusal.Refusal.TheVariants as refusals;

use crate::grammar::command;
use crate::refusal::{Refusal, refusal_of};
use clap::ArgMatches;
use std::alloc::Global;

/// What the program is asked to do.
#[derive(Clone, Copy, Debug, PartialEq, Eq)]
pub enum Mode {
    /// To run the script on standard input.
    Run,
    /// To run the generated script of this number.
    Generate(u64),
}

/// What a call asks for.
#[derive(Clone, Copy, Debug, PartialEq, Eq)]
pub struct Call {
    pub mode: Mode,
    /// Threads that serve a section of a script, 1 to 16.
    pub workers: u64,
    /// Pages that are kept in memory, 12 to 4,096, and at least `4 * workers + 8`.
    pub frames: u64,
}

/// The call that the words spell: MODE, N and the options.
pub fn call_of(alloc: Global, words: &[String]) -> Result<Call, Refusal>
    ensures asked { IfOk result (λ call. call_of (map (λ word. word.bytes.items) words.now) ≡ Some call) }
    ensures usage { result ≡ Err refusals.Usage → call_of (map (λ word. word.bytes.items) words.now) ≡ None }
{
    match command(alloc)?.try_get_matches_from(words) {
        Ok(matches) => asked_by(&matches).ok_or(Refusal::Usage),
        Err(error) => Err(refusal_of(&error)),
    }
}

/// What the arguments that were read ask for. None where they don't fit together.
fn asked_by(matches: &ArgMatches<'_>) -> Option<Call>
    ensures { result ≡ asked_by (rows_of (found_of matches.now)) }
{
    let mode = mode_of(matches.get_str("MODE"), number_of(matches, "N"));
    asked(
        mode,
        number_of(matches, "workers"),
        number_of(matches, "frames"),
    )
}

/// The number that was read for an argument.
fn number_of(matches: &ArgMatches<'_>, name: &str) -> Option<u64>
    ensures { result ≡ number_of name.now (rows_of (found_of matches.now)) }
{
    matches.get_one(name)
}

/// The mode with its number, which `generate` alone has.
fn mode_of(mode: Option<&str>, number: Option<u64>) -> Option<Mode>
    ensures { result ≡ mode_of (option_map (λ word. word.now) mode.entry) number }
{
    match (mode?, number) {
        ("run", None) => Some(Mode::Run),
        ("generate", Some(number)) => Some(Mode::Generate(number)),
        _ => None,
    }
}

/// The call, where its frames are enough for its workers.
fn asked(mode: Option<Mode>, workers: Option<u64>, frames: Option<u64>) -> Option<Call>
    ensures { result ≡ asked mode workers frames }
{
    let (mode, workers, frames) = (mode?, workers?, frames?);
    if u128::from(frames) < 4 * u128::from(workers) + 8 {
        return None;
    }
    Some(Call {
        mode,
        workers,
        frames,
    })
}
