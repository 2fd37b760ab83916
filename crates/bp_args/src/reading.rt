//! Words in the normal form, read by `clap`.
ghost use Rattle.std.specs.Prelude.{◌≡◌, false, IfOk, IfErr, map, string_bytes};
ghost use Rattle.clap.specs.Words.{kind_of, found_of, rule_of, app_of, matches_of};
ghost use Rattle.clap.specs.Walk.{rows_of};
ghost use Rattle.bp_args.specs.declared.values.Values.{Values};
ghost use Rattle.bp_args.specs.inner.NormalWords.{normal_words};
ghost use Rattle.bp_args.specs.inner.Reading.{option_rule, names_rule, bare, program};

use crate::key::Key;
use clap::error::ErrorKind;
use clap::{Arg, ArgAction, ArgMatches, Command, Error};
use std::alloc::{AllocError, Global};

/// The id of the words that are not options.
pub(crate) const NAMES: &str = "names";

/// An option with one value.
fn option<'a>(alloc: Global, name: &'a str) -> Arg<'a>
    ensures rule { rule_of result ≡ option_rule name.entry.now }
    ensures local { result.global ≡ false }
{
    Arg::new(alloc, name).long(name).action(ArgAction::Set)
}

/// The words that are not options, any number of them.
fn names<'a>(alloc: Global) -> Arg<'a>
    ensures rule { rule_of result ≡ names_rule }
    ensures local { result.global ≡ false }
{
    Arg::new(alloc, NAMES)
        .action(ArgAction::Append)
        .num_args(0..)
}

/// The command without its arguments.
fn bare<'a>(alloc: Global) -> Command<'a>
    ensures { app_of result ≡ bare }
{
    Command::new(alloc, "bp")
        .no_binary_name(true)
        .disable_help_flag(true)
}

/// The command as `clap` is told it: options with one value each, and any words after them.
fn clap_command<'a>(alloc: Global) -> Result<Command<'a>, AllocError>
    ensures { IfOk result (λ c. app_of c ≡ program) }
{
    bare(alloc)
        .arg(option(alloc, Key::Log.name()))?
        .arg(option(alloc, Key::Strategy.name()))?
        .arg(option(alloc, Key::Seed.name()))?
        .arg(option(alloc, Key::Budget.name()))?
        .arg(option(alloc, Key::Steps.name()))?
        .arg(option(alloc, Key::Workers.name()))?
        .arg(option(alloc, Key::Slice.name()))?
        .arg(option(alloc, Key::Wait.name()))?
        .arg(names(alloc))
}

/// The matches of a list in the normal form. Only out of memory refuses it.
pub(crate) fn matches_of<'a>(alloc: Global, words: &'a [String]) -> Result<ArgMatches<'a>, Error>
    ensures ok { (v : Values) → map string_bytes words.entry.now ≡ normal_words v
        → IfOk result (λ m. rows_of (found_of m) ≡ matches_of program (normal_words v)) }
    ensures err { (v : Values) → map string_bytes words.entry.now ≡ normal_words v
        → IfErr result (λ e. kind_of e ≡ ErrorKind.OutOfMemory) }
{
    let command = clap_command(alloc)?;
    command.try_get_matches_from(words)
}
