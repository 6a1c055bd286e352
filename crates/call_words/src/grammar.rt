//! The command that `clap` is told.
ghost use Rattle.std.specs.Prelude.{◌≡◌, IfOk, false};
ghost use Rattle.clap.specs.Words.{app_of, rule_of};
ghost use Rattle.call_words.specs.Grammar.{command, mode_rule, number_rule, option_rule};

use clap::builder::ValueParser;
use clap::{Arg, ArgAction, Command};
use std::alloc::{AllocError, Global};

/// Two optional words and two options. No option asks for help, so a word that does is an unknown one.
pub fn command<'a>(alloc: Global) -> Result<Command<'a>, AllocError>
    ensures { IfOk result (λ made. app_of made ≡ command) }
{
    Command::new(alloc, "instant")
        .no_binary_name(true)
        .disable_help_flag(true)
        .arg(mode(alloc))?
        .arg(number(alloc))?
        .arg(option(alloc, "workers", 1, 16, "4"))?
        .arg(option(alloc, "frames", 12, 4096, "64"))
}

/// What to do, `run` where nothing is said.
fn mode<'a>(alloc: Global) -> Arg<'a>
    ensures rule { rule_of result ≡ mode_rule }
    ensures local { result.global ≡ false }
{
    Arg::new(alloc, "MODE")
        .action(ArgAction::Set)
        .default_value("run")
}

/// The number of a generated script.
fn number<'a>(alloc: Global) -> Arg<'a>
    ensures rule { rule_of result ≡ number_rule }
    ensures local { result.global ≡ false }
{
    Arg::new(alloc, "N")
        .action(ArgAction::Set)
        .value_parser(ValueParser::unsigned(0, u64::MAX))
}

/// An option with a number from `least` to `most`, with its text where nothing is said.
fn option<'a>(alloc: Global, name: &'a str, least: u64, most: u64, usual: &'a str) -> Arg<'a>
    ensures rule { rule_of result ≡ option_rule name.entry.now least most usual.entry.now }
    ensures local { result.global ≡ false }
{
    Arg::new(alloc, name)
        .long(name)
        .action(ArgAction::Set)
        .value_parser(ValueParser::unsigned(least, most))
        .default_value(usual)
}
