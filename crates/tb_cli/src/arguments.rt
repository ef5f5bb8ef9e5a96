//! The arguments of the commands, declared to clap.

ghost use Rattle.tb_cli.specs.Arguments.{argument_help, argument_rule, rule_in, HasHelp};
ghost use Rattle.tb_cli.specs.Tree.{HasRule};

use crate::hints;
use clap::Arg;
use std::alloc::Global;

/// An argument of a command.
#[derive(Clone, Copy)]
pub(crate) enum Argument {
    /// `--db`, which may be missing: then the desk is in memory.
    Desk,
    /// `--db`, which is required.
    DeskNeeded,
    /// `--db` of a command of deskview.
    DeskShown,
    /// `--db` of the command `tree`.
    DeskDrawn,
    /// `--user`.
    User,
    /// `--strategy`.
    Strategy,
    /// The name of a batch.
    Batch,
    /// The name of a batch that is imported.
    BatchNew,
    /// The name of a batch, which may be missing.
    BatchIfAny,
    /// The step of a batch.
    Step,
    /// The number of a sentence.
    Sentence,
    /// The number of a sentence, which may be missing.
    SentenceDrawn,
    /// The `sent_id` of a sentence.
    SentId,
    /// The revision that was corrected.
    Base,
    /// `--rev`.
    Revision,
    /// A query.
    Query,
    /// `--context`.
    Context,
    /// What is counted.
    Attribute,
    /// `--port` of the command `serve`.
    Port,
    /// `--port` of the command `page`.
    PortShown,
    /// `--requests`.
    Requests,
    /// `--most`.
    Most,
}

/// How an argument is given.
#[derive(Clone, Copy)]
pub(crate) enum Form<'a> {
    /// By an option that takes a value.
    Option,
    /// By an option that is required.
    Needed,
    /// By an option with a default.
    Default(&'a str),
    /// By a word that is required.
    Word,
    /// By a word that may be missing.
    Optional,
}

/// An argument of this form and name, with its help.
fn arg_in<'a>(alloc: Global, form: Form<'a>, name: &'a str, help: &'a str) -> Arg<'a>
    ensures rule { HasRule (rule_in form.entry name.entry.now) result }
    ensures help { HasHelp help.entry.now result }
{
    let arg = Arg::new(alloc, name);
    match form {
        Form::Option => arg.long(name).help(help),
        Form::Needed => arg.long(name).required(true).help(help),
        Form::Default(value) => arg.long(name).default_value(value).help(help),
        Form::Word => arg.required(true).help(help),
        Form::Optional => arg.help(help),
    }
}

/// An argument with its help.
pub(crate) fn arg_of<'a>(alloc: Global, which: Argument) -> Arg<'a>
    ensures rule { HasRule (argument_rule which) result }
    ensures help { HasHelp (argument_help which) result }
{
    match which {
        Argument::Desk => arg_in(alloc, Form::Option, "db", hints::DESK),
        Argument::DeskNeeded => arg_in(alloc, Form::Needed, "db", hints::DESK_NEEDED),
        Argument::DeskShown => arg_in(alloc, Form::Option, "db", hints::DESK_SHOWN),
        Argument::DeskDrawn => arg_in(alloc, Form::Option, "db", hints::DESK_DRAWN),
        Argument::User => arg_in(alloc, Form::Needed, "user", hints::USER),
        Argument::Strategy => arg_in(alloc, Form::Default("longest"), "strategy", hints::STRATEGY),
        Argument::Batch => arg_in(alloc, Form::Word, "name", hints::BATCH),
        Argument::BatchNew => arg_in(alloc, Form::Word, "name", hints::BATCH_NEW),
        Argument::BatchIfAny => arg_in(alloc, Form::Optional, "name", hints::BATCH_IF_ANY),
        Argument::Step => arg_in(alloc, Form::Word, "event", hints::STEP),
        Argument::Sentence => arg_in(alloc, Form::Word, "no", hints::SENTENCE),
        Argument::SentenceDrawn => arg_in(alloc, Form::Optional, "no", hints::SENTENCE_DRAWN),
        Argument::SentId => arg_in(alloc, Form::Word, "sent_id", hints::SENT_ID),
        Argument::Base => arg_in(alloc, Form::Word, "base", hints::BASE),
        Argument::Revision => arg_in(alloc, Form::Option, "rev", hints::REVISION),
        Argument::Query => arg_in(alloc, Form::Word, "query", hints::QUERY),
        Argument::Context => arg_in(alloc, Form::Default("5"), "context", hints::CONTEXT),
        Argument::Attribute => arg_in(alloc, Form::Word, "attribute", hints::ATTRIBUTE),
        Argument::Port => arg_in(alloc, Form::Needed, "port", hints::PORT),
        Argument::PortShown => arg_in(alloc, Form::Needed, "port", hints::PORT_SHOWN),
        Argument::Requests => arg_in(
            alloc,
            Form::Default("1000000000"),
            "requests",
            hints::REQUESTS,
        ),
        Argument::Most => arg_in(alloc, Form::Default("100"), "most", hints::MOST),
    }
}
