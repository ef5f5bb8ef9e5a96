//! The commands, declared to clap.

ghost use Rattle.std.specs.Prelude.{◌≡◌, IfOk, Some, false, fold, option_map};
ghost use Rattle.clap.specs.Words.{app_of, rule_of, new_app, with_rule, with_subcommand};
ghost use Rattle.clap.specs.declared.Command.TheViews.{out-Command};
ghost use Rattle.tb_cli.specs.Arguments.{with_argument};
ghost use Rattle.tb_cli.specs.Help.{about_text, ending_text, IsExplainedBy};
ghost use Rattle.tb_cli.specs.Tree.{app_by, desk_app, program_app, top_app, word_of, IsKnownAs};
ghost use Rattle.tb_cli.specs.declared.help.TheConstants.{ABOUT, ENDING};
ghost use Rattle.tb_cli.specs.declared.tree.TheConstants.{VERSION};

use crate::arguments::{Argument, arg_of};
use crate::help::{ABOUT, ENDING, about, ending};
use crate::verbs::{VERBS, Verb, word_of};
use clap::{Arg, Command};
use std::alloc::{AllocError, Global};

/// A command of this name with its help, and without an argument.
pub(crate) fn named<'a>(alloc: Global, name: &'a str, about: &'a str, end: &'a str) -> Command<'a>
    ensures known { IsKnownAs (new_app name.entry.now) result }
    ensures help { IsExplainedBy about.entry.now end.entry.now result }
{
    Command::new(alloc, name).about(about).after_help(end)
}

/// What `--version` prints after a program's name: the version, and the toolchain that proves the program. tools/lint
/// compares the second line with what `rt version` prints.
pub(crate) const VERSION: &str = "0.1.0\nproved with rattle-kit-13f logic dac8208d650f15bf";

/// A program of this name, with its version and what its help says.
pub(crate) fn program<'a>(alloc: Global, name: &'a str, about: &'a str, end: &'a str) -> Command<'a>
    ensures known { IsKnownAs (program_app name.entry.now) result }
    ensures help { IsExplainedBy about.entry.now end.entry.now result }
    ensures version { option_map (λ text. text.now) (out-Command result).version ≡ Some VERSION.now }
{
    named(alloc, name, about, end).version(VERSION)
}

/// Adds an argument to the command.
pub(crate) fn with<'a>(command: Command<'a>, arg: Arg<'a>) -> Result<Command<'a>, AllocError>
    requires local { arg.global ≡ false }
    requires whole { (out-Command command).has_globals ≡ false }
    ensures { IfOk result (IsKnownAs (with_rule (app_of command.entry) (rule_of arg.entry))) }
{
    command.arg(arg)
}

/// Adds a subcommand to the command.
pub(crate) fn with_sub<'a>(
    command: Command<'a>,
    sub: Command<'a>,
) -> Result<Command<'a>, AllocError>
    requires whole { (out-Command command).has_globals ≡ false }
    requires local { (out-Command sub).has_globals ≡ false }
    ensures { IfOk result (IsKnownAs (with_subcommand (app_of command.entry) (app_of sub.entry).top)) }
{
    command.subcommand(sub)
}

/// Adds these arguments to the command, in their order.
pub(crate) fn with_all<'a>(
    alloc: Global,
    mut command: Command<'a>,
    arguments: &[Argument],
) -> Result<Command<'a>, AllocError>
    requires whole { (out-Command command).has_globals ≡ false }
    ensures { IfOk result (IsKnownAs (fold with_argument (app_of command.entry) arguments.now)) }
{
    for argument in arguments {
        command = with(command, arg_of(alloc, *argument))?;
    }
    Ok(command)
}

/// A command with these arguments.
macro_rules! taking {
    ($alloc:ident, $verb:ident: $($argument:ident)+) => {
        with_all($alloc, command($alloc, $verb), &[$(Argument::$argument),+])
    };
}

pub(crate) use taking;

/// The whole command: each of these commands is added, in this order.
macro_rules! with_each {
    ($alloc:ident, $verbs:ident) => {{
        let mut command = top($alloc);
        for verb in &$verbs {
            command = with_sub(command, subcommand($alloc, *verb)?)?;
        }
        Ok(command)
    }};
}

pub(crate) use with_each;

/// A command with its help, and without an argument.
fn command<'a>(alloc: Global, verb: Verb) -> Command<'a>
    ensures known { IsKnownAs (new_app (word_of verb)) result }
    ensures help { IsExplainedBy (about_text verb) (ending_text verb) result }
{
    named(alloc, word_of(verb), about(verb), ending(verb))
}

/// The program: its name, its version and what its help says.
fn top<'a>(alloc: Global) -> Command<'a>
    ensures known { IsKnownAs top_app result }
    ensures help { IsExplainedBy ABOUT.now ENDING.now result }
    ensures version { option_map (λ text. text.now) (out-Command result).version ≡ Some VERSION.now }
{
    program(alloc, "treedesk", ABOUT, ENDING)
}

/// A command, as it is declared to clap.
fn subcommand<'a>(alloc: Global, verb: Verb) -> Result<Command<'a>, AllocError>
    ensures { IfOk result (IsKnownAs (app_by verb)) }
{
    match verb {
        Verb::Check => Ok(command(alloc, verb)),
        Verb::New => taking!(alloc, verb: DeskNeeded),
        Verb::Migrate => taking!(alloc, verb: DeskNeeded),
        Verb::Import => taking!(alloc, verb: Desk User BatchNew),
        Verb::Event => taking!(alloc, verb: Desk User Batch Step),
        Verb::Correct => taking!(alloc, verb: Desk User Sentence Base),
        Verb::Pull => taking!(alloc, verb: Desk User Sentence),
        Verb::Restore => taking!(alloc, verb: Desk User Sentence),
        Verb::Show => taking!(alloc, verb: Desk Revision Sentence),
        Verb::Export => taking!(alloc, verb: Desk BatchIfAny),
        Verb::Totals => taking!(alloc, verb: Desk),
        Verb::Moves => taking!(alloc, verb: Desk),
        Verb::Search => taking!(alloc, verb: Desk Strategy Context Query),
        Verb::Count => taking!(alloc, verb: Desk Strategy Attribute Query),
        Verb::Serve => taking!(alloc, verb: Desk Port Requests),
    }
}

/// The whole command, with its subcommands in the order of help.
pub fn desk<'a>(alloc: Global) -> Result<Command<'a>, AllocError>
    ensures { IfOk result (λ r. app_of r ≡ desk_app) }
{
    with_each!(alloc, VERBS)
}
