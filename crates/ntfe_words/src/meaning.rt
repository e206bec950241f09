//! The command that words mean.
ghost use Rattle.std.specs.Prelude.{◌≡◌, [], ◌∷◌, codes, map, string_bytes, IfOk};
ghost use Rattle.ntfe_words.specs.CommandLine.{Reading, IsMeaning, HasMeaning};
ghost use Rattle.ntfe_words.specs.Parse.{IsGiven, IsCommandOf};

use crate::command::Command;
use crate::fault::WordFault;
use crate::given::{Given, parse};
use crate::number::number;
use crate::options::{has_demo_option, has_list_option, options_of, width, workers};
use std::alloc::Global;

/// The command that the words mean, without the program's name; `Usage` exactly where they have no meaning, or `Memory`.
pub fn read_words(alloc: Global, words: &[String]) -> Result<Command, WordFault>
    ensures meaning { IfOk result (λ command. IsMeaning (map string_bytes words.now) command) }
    ensures only { IfOk result (λ command. (other : Command) → IsMeaning (map string_bytes words.now) other → other ≡ command) }
    ensures usage { result ≡ Err WordFault.Usage → ¬ (HasMeaning (map string_bytes words.now)) }
{
    let given = parse(alloc, words)?;
    match command_of(&given) {
        Some(command) => Ok(command),
        None => Err(WordFault::Usage),
    }
}

/// The command that the plain words name, where it takes the options that are given.
fn command_of(given: &Given) -> Option<Command>
    ensures { (r : Reading) → IsGiven r given.now → IsCommandOf r result }
{
    match (given.name, given.number) {
        (Some("classes"), None) => Some(Command::Classes(options_of(given)?)),
        (Some("resume"), None) => Some(Command::Resume(options_of(given)?)),
        (Some("faces"), None) => faces(given),
        (Some("demo"), Some(word)) => demo(given, word),
        _ => None,
    }
}

/// The listing of points and two-faces, which takes no option.
fn faces(given: &Given) -> Option<Command>
    ensures { (r : Reading) → IsGiven r given.now → r.plains ≡ codes "faces" ∷ [] → IsCommandOf r result }
{
    if has_demo_option(given) || has_list_option(given) {
        None
    } else {
        Some(Command::Faces)
    }
}

/// The command `demo` of the number that this word is, which takes two of the options.
fn demo(given: &Given, word: &str) -> Option<Command>
    ensures { (r : Reading) → IsGiven r given.now → r.plains ≡ codes "demo" ∷ word.entry.now ∷ [] → IsCommandOf r result }
{
    if has_list_option(given) {
        return None;
    }
    Some(Command::Demo {
        number: number(word.as_bytes(), 1, 5)? as u8,
        workers: workers(given.workers)?,
        width: width(given.width)?,
    })
}
