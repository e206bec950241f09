//! What the words give, as text.
ghost use Rattle.std.specs.Prelude.{map, string_bytes};
ghost use Rattle.clap.specs.Matches.{found_of};
ghost use Rattle.ntfe_words.specs.Parse.{IsParse, AreGetters};

use crate::command_line::command_line;
use crate::fault::WordFault;
use clap::ArgMatches;
use std::alloc::Global;

/// The plain words and the options' values as they are written, where they are given.
#[derive(Clone, Copy, Drop)]
pub struct Given<'a> {
    /// The first plain word.
    pub name: Option<&'a str>,
    /// The second plain word.
    pub number: Option<&'a str>,
    pub workers: Option<&'a str>,
    pub limit: Option<&'a str>,
    pub width: Option<&'a str>,
    pub push: Option<&'a str>,
    /// Whether `--stars` is given.
    pub stars: bool,
}

/// What `clap` read.
fn read_matches<'a>(matches: &ArgMatches<'a>) -> Given<'a>
    ensures { AreGetters (found_of matches.now) result }
{
    Given {
        name: matches.get_str("name"),
        number: matches.get_str("number"),
        workers: matches.get_str("workers"),
        limit: matches.get_str("limit"),
        width: matches.get_str("width"),
        push: matches.get_str("push"),
        stars: matches.get_flag("stars"),
    }
}

/// What the words give; `Usage` only where they have no meaning, or `Memory`.
pub fn parse(alloc: Global, words: &[String]) -> Result<Given<'_>, WordFault>
    ensures { IsParse (map string_bytes words.now) result }
{
    match command_line(alloc)?.try_get_matches_from(words) {
        Ok(matches) => Ok(read_matches(&matches)),
        Err(error) => Err(WordFault::of_error(&error)),
    }
}
