//! The program's one command for clap.

ghost use Rattle.std.specs.Prelude.{◌≡◌, IfOk, codes, false, List, ℕ};
ghost use Rattle.clap.specs.Words.{app_of, rule_of, with_rule};
ghost use Rattle.wal_words.specs.CommandLine.{option_rule, program, values_rule};

use clap::{Arg, Command};
use std::alloc::{AllocError, Global};

/// One or more values that are no options.
fn values_arg<'a>(alloc: Global) -> Arg<'a>
    ensures rule { rule_of result ≡ values_rule }
    ensures local { result.global ≡ false }
{
    Arg::new(alloc, "words").num_args(1..)
}

/// An option with one value.
fn option_arg<'a>(alloc: Global, name: &'a str) -> Arg<'a>
    ensures rule { rule_of result ≡ option_rule name.entry.now }
    ensures local { result.global ≡ false }
{
    Arg::new(alloc, name).long(name)
}

/// The command with one more option.
fn with_option<'a>(
    alloc: Global,
    command: Command<'a>,
    name: &'a str,
) -> Result<Command<'a>, AllocError>
    ensures { IfOk result
        (λ c. app_of c ≡ with_rule (app_of command.entry) (option_rule name.entry.now)) }
{
    command.arg(option_arg(alloc, name))
}

/// The command: its words are all arguments.
pub(crate) fn command<'a>(alloc: Global) -> Result<Command<'a>, AllocError>
    ensures app { IfOk result (λ c. app_of c ≡ program) }
{
    let command = Command::new(alloc, "walrus")
        .no_binary_name(true)
        .arg(values_arg(alloc))?;
    let command = with_option(alloc, command, "blobs")?;
    let command = with_option(alloc, command, "pages")?;
    with_option(alloc, command, "format")
}
