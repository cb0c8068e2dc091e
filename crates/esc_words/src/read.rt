//! Reads the words of the command line.

ghost use Rattle.std.specs.Prelude.{◌≡◌, MatchResult, map, string_bytes};
ghost use Rattle.clap.specs.Matches.{first_value, found_of};
ghost use Rattle.clap.specs.Values.{kind_of};
ghost use Rattle.esc_words.specs.FoundInside.{AreAsked, IsAsked, IsSomeWrong, IsWrong, StopsBy};
ghost use Rattle.esc_words.specs.Uses.{setting_name};
ghost use Rattle.esc_words.specs.Words.{AsksFor};

use crate::command::matches_in;
use crate::number::number;
use crate::setting::{Flag, Setting};
use clap::ArgMatches;
use clap::error::ErrorKind;
use esc_options::{Limits, Options, Show};
use std::alloc::Global;
use thiserror::Error;

/// Why the words ask for nothing.
#[derive(Clone, Copy, Debug, Error)]
pub enum WordsStop {
    #[error("the words are no options")]
    Bad,
    #[error("out of memory")]
    Memory,
}

/// What the parser's refusal says of the words.
fn stop_of(error: &clap::Error) -> WordsStop
    ensures { StopsBy (kind_of error.now) result }
{
    match error.kind() {
        ErrorKind::OutOfMemory => WordsStop::Memory,
        _ => WordsStop::Bad,
    }
}

/// The number of the setting, by the value that was found.
fn number_of(matches: &ArgMatches<'_>, setting: Setting) -> Result<u64, WordsStop>
    ensures { MatchResult result
        (IsAsked setting (first_value (found_of matches.now) (setting_name setting)))
        (λ e. (e ≡ WordsStop.Bad)
        × IsWrong setting (first_value (found_of matches.now) (setting_name setting))) }
{
    match matches.get_str(setting.name()) {
        Some(value) => number(value, setting.most()).ok_or(WordsStop::Bad),
        None => Ok(setting.usual()),
    }
}

/// The options, by what was found.
fn options_in(matches: &ArgMatches<'_>) -> Result<Options, WordsStop>
    ensures { MatchResult result (AreAsked (found_of matches.now))
        (λ e. (e ≡ WordsStop.Bad) × IsSomeWrong (found_of matches.now)) }
{
    Ok(Options {
        limits: Limits {
            depth: number_of(matches, Setting::Depth)?,
            rounds: number_of(matches, Setting::Rounds)?,
            facts: number_of(matches, Setting::Facts)?,
            splits: number_of(matches, Setting::Splits)?,
            pivots: number_of(matches, Setting::Pivots)?,
        },
        show: Show {
            log: matches.get_flag(Flag::Log.name()),
            model: matches.get_flag(Flag::Model.name()),
        },
    })
}

/// Reads the words of the command line, of which the first is the program's name.
pub fn read_words(alloc: Global, words: &[String]) -> Result<Options, WordsStop>
    ensures asks { AsksFor (map string_bytes words.now) result }
{
    match matches_in(alloc, words) {
        Ok(matches) => options_in(&matches),
        Err(error) => Err(stop_of(&error)),
    }
}
