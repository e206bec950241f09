//! The command line as `clap` knows it.
ghost use Rattle.std.specs.Prelude.{◌≡◌, IfOk, false};
ghost use Rattle.clap.specs.Walk.{rule_of};
ghost use Rattle.clap.specs.Simple.{app_of};
ghost use Rattle.ntfe_words.specs.Grammar.{command_line, flag, valued};

use clap::{Arg, ArgAction, Command};
use std::alloc::{AllocError, Global};

/// The option `--name`, which takes one value.
fn valued<'a>(alloc: Global, name: &'a str) -> Arg<'a>
    ensures rule { rule_of result ≡ valued name.entry.now }
    ensures local { result.global ≡ false }
{
    Arg::new(alloc, name).long(name).action(ArgAction::Set)
}

/// The option `--name`, which takes no value.
fn flag<'a>(alloc: Global, name: &'a str) -> Arg<'a>
    ensures rule { rule_of result ≡ flag name.entry.now }
    ensures local { result.global ≡ false }
{
    Arg::new(alloc, name).long(name).action(ArgAction::SetTrue)
}

/// The five options and two plain words. Nothing is built in: `--help` is unknown, and the words don't begin with the program's name.
pub fn command_line<'a>(alloc: Global) -> Result<Command<'a>, AllocError>
    ensures { IfOk result (λ c. app_of c ≡ command_line) }
{
    Command::new(alloc, "ntfe")
        .no_binary_name(true)
        .disable_help_flag(true)
        .arg(valued(alloc, "workers"))?
        .arg(valued(alloc, "limit"))?
        .arg(valued(alloc, "width"))?
        .arg(valued(alloc, "push"))?
        .arg(flag(alloc, "stars"))?
        .arg(Arg::new(alloc, "name"))?
        .arg(Arg::new(alloc, "number"))
}
