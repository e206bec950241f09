//! What options stand for.
ghost use Rattle.std.specs.Prelude.{◌≡◌, ◌≤◌, MatchOption, IfSome, option_and_then};
ghost use Rattle.ntfe_words.specs.CommandLine.{Reading, AreOptions, setting_of, limit_read};
ghost use Rattle.ntfe_words.specs.CommandLine.{push_named, stars_of};
ghost use Rattle.ntfe_words.specs.CommandLine.{number as number_in};
ghost use Rattle.ntfe_words.specs.Parse.{IsGiven, text_of, values_given, has_demo_option, has_list_option};
ghost use Rattle.ntfe_model.specs.declared.nogood.Push.TheVariants.{Up};

use crate::command::Options;
use crate::given::Given;
use crate::number::number;
use ntfe_model::Push;

/// The number of an option with this value: `default` where it is not given, else one from `low` to `high`.
fn number_or(value: Option<&str>, default: u32, low: u32, high: u32) -> Option<u32>
    requires { default ≤ high }
    ensures value { result ≡ setting_of default (option_and_then (number_in low high)) (values_given (text_of value.entry)) }
    ensures bound { IfSome result (λ n. n ≤ high) }
{
    match value {
        None => Some(default),
        Some(text) => number(text.as_bytes(), low, high),
    }
}

/// The number of workers.
pub fn workers(value: Option<&str>) -> Option<u16>
    ensures { result ≡ setting_of 1 (option_and_then (number_in 1 16)) (values_given (text_of value.entry)) }
{
    let workers = number_or(value, 1, 1, 16)?;
    Some(workers as u16)
}

/// The width of the solver's numbers.
pub fn width(value: Option<&str>) -> Option<u8>
    ensures { result ≡ setting_of 62 (option_and_then (number_in 1 62)) (values_given (text_of value.entry)) }
{
    let width = number_or(value, 62, 1, 62)?;
    Some(width as u8)
}

/// The limit on the number of classes, `None` where there is none.
fn limit(value: Option<&str>) -> Option<Option<u32>>
    ensures { result ≡ setting_of None limit_read (values_given (text_of value.entry)) }
{
    match value {
        None => Some(None),
        Some(text) => Some(Some(number(text.as_bytes(), 0, u32::MAX)?)),
    }
}

/// The order in which points are pushed.
fn push(value: Option<&str>) -> Option<Push>
    ensures { result ≡ setting_of Up (option_and_then push_named) (values_given (text_of value.entry)) }
{
    match value {
        None | Some("up") => Some(Push::Up),
        Some("down") => Some(Push::Down),
        Some(_) => None,
    }
}

/// The options of a listing of classes, if these are such.
pub fn options_of(given: &Given) -> Option<Options>
    ensures { (r : Reading) → IsGiven r given.now
        → MatchOption result ((o : Options) → ¬ (AreOptions r.settings o)) (AreOptions r.settings) }
{
    Some(Options {
        workers: workers(given.workers)?,
        limit: limit(given.limit)?,
        width: width(given.width)?,
        push: push(given.push)?,
        stars: given.stars,
    })
}

/// Whether an option is given that `demo` takes.
pub fn has_demo_option(given: &Given) -> bool
    ensures { result ≡ has_demo_option given.now }
{
    given.workers.is_some() || given.width.is_some()
}

/// Whether an option is given that only a listing of classes takes.
pub fn has_list_option(given: &Given) -> bool
    ensures { result ≡ has_list_option given.now }
{
    given.limit.is_some() || given.push.is_some() || given.stars
}
