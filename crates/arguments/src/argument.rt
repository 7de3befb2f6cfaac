//! The arguments of a command.
ghost use Rattle.std.specs.Prelude.{◌≡◌, IfOk, map};
ghost use Rattle.clap.specs.Walk.{rule_of};
ghost use Rattle.clap.specs.Simple.{app_of};
ghost use Rattle.arguments.specs.CommandLine.{counted_rule, flag_rule, free, with_rules};
ghost use Rattle.arguments.specs.machine.Tables.{rule_for};

use clap::{Arg, ArgAction, Command};
use std::alloc::{AllocError, Global};

/// An argument of a command: its name, the name of an option's value in help, its default, and its
/// help.
#[derive(Clone, Copy)]
pub enum Argument<'a> {
    /// A required positional argument.
    Positional(&'a str, &'a str),
    /// A positional argument that is given at least once.
    Several(&'a str, &'a str),
    /// A required option.
    Needed(&'a str, &'a str, &'a str),
    /// An option with a default.
    Default(&'a str, &'a str, &'a str, &'a str),
    /// An option that may be omitted.
    Free(&'a str, &'a str, &'a str),
    /// An option with a default that may be repeated.
    Defaults(&'a str, &'a str, &'a str, &'a str),
    /// An option that may be repeated.
    Repeated(&'a str, &'a str, &'a str),
    /// An option without a value.
    Flag(&'a str, &'a str),
    /// An option without a value that also has a letter.
    Letter(&'a str, char, &'a str),
    /// An option without a value that also has a letter and whose uses are counted.
    Counted(&'a str, char, &'a str),
}

/// Returns an option that may be omitted.
fn free_option<'a>(alloc: Global, name: &'a str, value: &'a str, help: &'a str) -> Arg<'a>
    ensures { rule_of result ≡ free name.entry.now }
{
    Arg::new(alloc, name)
        .long(name)
        .value_name(value)
        .help(help)
}

/// Returns an option without a value.
fn flag<'a>(alloc: Global, name: &'a str, help: &'a str) -> Arg<'a>
    ensures { rule_of result ≡ flag_rule name.entry.now }
{
    Arg::new(alloc, name)
        .long(name)
        .action(ArgAction::SetTrue)
        .help(help)
}

/// Returns an option without a value whose uses are counted.
fn counted<'a>(alloc: Global, name: &'a str, letter: char, help: &'a str) -> Arg<'a>
    ensures { rule_of result ≡ counted_rule name.entry.now letter }
{
    Arg::new(alloc, name)
        .long(name)
        .short(letter)
        .action(ArgAction::Count)
        .help(help)
}

/// Returns clap's argument for this argument.
fn argument_for<'a>(alloc: Global, argument: Argument<'a>) -> Arg<'a>
    ensures { rule_of result ≡ rule_for argument.entry }
{
    match argument {
        Argument::Positional(name, help) => Arg::new(alloc, name).required(true).help(help),
        Argument::Several(name, help) => Arg::new(alloc, name)
            .required(true)
            .action(ArgAction::Append)
            .help(help),
        Argument::Needed(name, value, help) => {
            free_option(alloc, name, value, help).required(true)
        }
        Argument::Default(name, value, default, help) => {
            free_option(alloc, name, value, help).default_value(default)
        }
        Argument::Defaults(name, value, default, help) => free_option(alloc, name, value, help)
            .default_value(default)
            .action(ArgAction::Append),
        Argument::Free(name, value, help) => free_option(alloc, name, value, help),
        Argument::Repeated(name, value, help) => {
            free_option(alloc, name, value, help).action(ArgAction::Append)
        }
        Argument::Flag(name, help) => flag(alloc, name, help),
        Argument::Letter(name, letter, help) => flag(alloc, name, help).short(letter),
        Argument::Counted(name, letter, help) => counted(alloc, name, letter, help),
    }
}

/// Appends arguments to the command, in order.
pub fn add_arguments<'a>(
    alloc: Global,
    command: Command<'a>,
    arguments: &[Argument<'a>],
) -> Result<Command<'a>, AllocError>
    ensures { IfOk result (λ c. app_of c ≡ with_rules (app_of command.entry) (map rule_for arguments.now)) }
{
    let mut command = command;
    for argument in arguments {
        command = command.arg(argument_for(alloc, *argument))?;
    }
    Ok(command)
}
