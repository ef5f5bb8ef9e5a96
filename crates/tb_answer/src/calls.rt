//! The calls of a desk, as a line of words makes them.

ghost use Rattle.std.specs.Prelude.{◌≡◌, option_map};
ghost use Rattle.tb_answer.specs.Prelude.{act_by, said_by};
ghost use Rattle.tb_answer.specs.Calls.{call_by, call_in, call_asked, question_of};

use crate::questions::Question;
use tb_cli::Line;
use tb_core::Event;
use tb_http::Action;

/// A command of a user.
#[derive(Clone, Copy, Debug)]
pub enum DeskCommand<'a> {
    Import {
        name: &'a str,
        user: &'a str,
        body: &'a [u8],
    },
    Event {
        name: &'a str,
        event: Event,
        user: &'a str,
    },
    Correct {
        number: u64,
        base: u64,
        user: &'a str,
        body: &'a [u8],
    },
    Pull {
        number: u64,
        user: &'a str,
    },
    Restore {
        number: u64,
        user: &'a str,
    },
}

/// A call that changes a desk, or asks it for a text.
#[derive(Clone, Copy, Debug)]
pub enum DeskCall<'a> {
    Command(DeskCommand<'a>),
    Question(Question),
}

/// The question for a sentence, or for one of its revisions.
fn shown(number: u64, rev: Option<u64>) -> Question
    ensures { result ≡ question_of number rev }
{
    match rev {
        None => Question::Sentence { number },
        Some(rev) => Question::Revision { number, rev },
    }
}

impl<'a> DeskCall<'a> {
    /// The call that a line makes, with this body for an import or a correction, if it makes one.
    pub fn of_line(line: &'a Line, body: &'a [u8]) -> Option<DeskCall<'a>>
        ensures { option_map call_by result ≡ call_in (said_by line.now) body.now }
    {
        let command = match line {
            Line::Import { db: _, user, name } => DeskCommand::Import {
                name: name.as_str(),
                user: user.as_str(),
                body,
            },
            Line::Event {
                db: _,
                user,
                name,
                event,
            } => DeskCommand::Event {
                name: name.as_str(),
                event: *event,
                user: user.as_str(),
            },
            Line::Correct {
                db: _,
                user,
                no,
                base,
            } => DeskCommand::Correct {
                number: *no,
                base: *base,
                user: user.as_str(),
                body,
            },
            Line::Pull { db: _, user, no } => DeskCommand::Pull {
                number: *no,
                user: user.as_str(),
            },
            Line::Restore { db: _, user, no } => DeskCommand::Restore {
                number: *no,
                user: user.as_str(),
            },
            Line::Show { db: _, no, rev } => return Some(DeskCall::Question(shown(*no, *rev))),
            Line::Totals { db: _ } => return Some(DeskCall::Question(Question::Totals)),
            Line::Moves { db: _ } => return Some(DeskCall::Question(Question::Moves)),
            _ => return None,
        };
        Some(DeskCall::Command(command))
    }

    /// The call that an action of a request asks for, by this user and with this body, if it asks for one.
    pub fn of_action(action: Action<'a>, user: &'a str, body: &'a [u8]) -> Option<DeskCall<'a>>
        ensures { option_map call_by result ≡ call_asked (act_by action.entry) user.now body.now }
    {
        let command = match action {
            Action::Import { name } => DeskCommand::Import { name, user, body },
            Action::Step { name, event } => DeskCommand::Event { name, event, user },
            Action::Correct { no, base } => DeskCommand::Correct {
                number: no,
                base,
                user,
                body,
            },
            Action::Pull { no } => DeskCommand::Pull { number: no, user },
            Action::Restore { no } => DeskCommand::Restore { number: no, user },
            Action::Sentence { no } => return Some(DeskCall::Question(Question::Sentence {
                number: no,
            })),
            Action::Revision { no, rev } => return Some(DeskCall::Question(Question::Revision {
                number: no,
                rev,
            })),
            Action::Totals => return Some(DeskCall::Question(Question::Totals)),
            Action::Moves => return Some(DeskCall::Question(Question::Moves)),
            _ => return None,
        };
        Some(DeskCall::Command(command))
    }
}
