//! The words, read by a parser of command lines.

ghost use Rattle.std.specs.Prelude.{◌≡◌, IfOk, false, map, string_bytes};
ghost use Rattle.clap.specs.Faults.{fault_of};
ghost use Rattle.clap.specs.Kinds.{FailsBy};
ghost use Rattle.clap.specs.Matches.{found_of};
ghost use Rattle.clap.specs.Simple.{matches_of};
ghost use Rattle.clap.specs.Walk.{rows_of, rule_of};
ghost use Rattle.esc_words.specs.CommandInside.{command, flag_rule, setting_rule};

use crate::setting::{Flag, Setting};
use clap::{Arg, ArgAction, ArgMatches, Command, Error};
use std::alloc::Global;

fn flag_argument<'a>(alloc: Global, name: &'a str) -> Arg<'a>
    ensures rule { rule_of result ≡ flag_rule name.entry.now }
    ensures local { result.global ≡ false }
{
    Arg::new(alloc, name).long(name).action(ArgAction::SetTrue)
}

fn setting_argument<'a>(alloc: Global, name: &'a str) -> Arg<'a>
    ensures rule { rule_of result ≡ setting_rule name.entry.now }
    ensures local { result.global ≡ false }
{
    Arg::new(alloc, name).long(name).action(ArgAction::Set)
}

/// What is found in the words, read as those of one simple command. It has the flags and the
/// settings and nothing else, so no help either, and any text is a value of a setting: a parser of
/// numbers would also take a plus sign.
pub(crate) fn matches_in<'a>(alloc: Global, words: &'a [String]) -> Result<ArgMatches<'a>, Error>
    ensures rows { IfOk result (λ m.
        rows_of (found_of m) ≡ matches_of command (map string_bytes words.entry.now)) }
    ensures kinds { FailsBy (fault_of command (map string_bytes words.entry.now)) result }
{
    let command = Command::new(alloc, "simplify")
        .disable_help_flag(true)
        .arg(flag_argument(alloc, Flag::Log.name()))?
        .arg(flag_argument(alloc, Flag::Model.name()))?
        .arg(setting_argument(alloc, Setting::Depth.name()))?
        .arg(setting_argument(alloc, Setting::Rounds.name()))?
        .arg(setting_argument(alloc, Setting::Facts.name()))?
        .arg(setting_argument(alloc, Setting::Splits.name()))?
        .arg(setting_argument(alloc, Setting::Pivots.name()))?;
    command.try_get_matches_from(words)
}
