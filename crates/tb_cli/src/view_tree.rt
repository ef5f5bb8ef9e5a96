//! The commands of `deskview`, declared to clap.

ghost use Rattle.std.specs.Prelude.{◌≡◌, IfOk, Some, option_map};
ghost use Rattle.clap.specs.Words.{app_of, new_app};
ghost use Rattle.clap.specs.declared.Command.TheViews.{out-Command};
ghost use Rattle.tb_cli.specs.Help.{view_about_text, view_ending_text, IsExplainedBy};
ghost use Rattle.tb_cli.specs.Tree.{IsKnownAs};
ghost use Rattle.tb_cli.specs.View.{view_app, view_app_by, view_top, view_word};
ghost use Rattle.tb_cli.specs.declared.tree.TheConstants.{VERSION};
ghost use Rattle.tb_cli.specs.declared.view_help.TheConstants.{ABOUT, ENDING};

use crate::arguments::Argument;
use crate::tree::{named, program, taking, with_all, with_each, with_sub};
use crate::view_help::{ABOUT, ENDING, view_about, view_ending};
use crate::view_verbs::{VIEW_VERBS, ViewVerb, view_word};
use clap::Command;
use std::alloc::{AllocError, Global};

/// The program: its name, its version and what its help says.
fn top<'a>(alloc: Global) -> Command<'a>
    ensures known { IsKnownAs view_top result }
    ensures help { IsExplainedBy ABOUT.now ENDING.now result }
    ensures version { option_map (λ text. text.now) (out-Command result).version ≡ Some VERSION.now }
{
    program(alloc, "deskview", ABOUT, ENDING)
}

/// A command with its help, and without an argument.
fn command<'a>(alloc: Global, verb: ViewVerb) -> Command<'a>
    ensures known { IsKnownAs (new_app (view_word verb)) result }
    ensures help { IsExplainedBy (view_about_text verb) (view_ending_text verb) result }
{
    named(alloc, view_word(verb), view_about(verb), view_ending(verb))
}

/// A command, as it is declared to clap.
fn subcommand<'a>(alloc: Global, verb: ViewVerb) -> Result<Command<'a>, AllocError>
    ensures { IfOk result (IsKnownAs (view_app_by verb)) }
{
    match verb {
        ViewVerb::Batches => taking!(alloc, verb: DeskShown),
        ViewVerb::Sentences => taking!(alloc, verb: DeskShown Batch),
        ViewVerb::Revisions => taking!(alloc, verb: DeskShown Sentence),
        ViewVerb::Find => taking!(alloc, verb: DeskShown SentId),
        ViewVerb::Tree => taking!(alloc, verb: DeskDrawn SentenceDrawn),
        ViewVerb::Check => taking!(alloc, verb: Most),
        ViewVerb::Page => taking!(alloc, verb: DeskShown PortShown),
    }
}

/// The whole command, with its subcommands in the order of help.
pub fn deskview<'a>(alloc: Global) -> Result<Command<'a>, AllocError>
    ensures { IfOk result (λ r. app_of r ≡ view_app) }
{
    with_each!(alloc, VIEW_VERBS)
}
