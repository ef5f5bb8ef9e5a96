//! What the program says on standard error, beside the answer. It never changes what is printed, nor the exit status.

ghost use Rattle.std.specs.Prelude.{◌≡◌, ◌↔◌, IsOkAnd, IsTrue, IfSome, codes, string_bytes};
ghost use Rattle.tb_host.specs.Reported.{IsOfAnswer};

use crate::causes::Cause;
use std::env::{self, VarError};
use std::fmt::{self, Display, Formatter};
use std::io::IsTerminal;

/// A cause, and the place that it is about: a file, a port, or a value on the command line.
#[derive(Drop)]
pub struct Diagnostic {
    pub place: Option<String>,
    pub cause: Cause,
}

impl Diagnostic {
    /// Whether it explains an answer of the desk or the check.
    pub fn is_of_answer(&self) -> bool
        ensures { IsTrue result ↔ IsOfAnswer self.now.cause }
    {
        matches!(self.cause, Cause::Words(_))
    }

    /// A cause at a place. Without memory for the place it is the cause alone.
    pub fn at(rt: &HostRuntime, place: &str, cause: Cause) -> Diagnostic
        ensures cause { result.cause ≡ cause }
        ensures place { IfSome result.place (λ text. string_bytes text ≡ place.now) }
    {
        Diagnostic {
            place: String::from_str(rt.alloc(), place).ok(),
            cause,
        }
    }
}

impl From<Cause> for Diagnostic {
    ghost use Rattle.std.specs.Prelude.{◌≡◌, None};

    ghost from_gives = { λ cause diagnostic. (diagnostic.cause ≡ cause) × (diagnostic.place ≡ None) };

    fn from(cause: Cause) -> Diagnostic {
        Diagnostic { place: None, cause }
    }
}

impl Display for Diagnostic {
    ghost use Rattle.tb_host.specs.Reported.{output_of_diagnostic};

    ghost output = { output_of_diagnostic };

    fn fmt<W: fmt::Write>(&self, f: &mut Formatter<W>) -> fmt::Result {
        match &self.place {
            Some(place) => write!(f, "{place}: {}", self.cause),
            None => write!(f, "{}", self.cause),
        }
    }
}

/// How a run ended: its exit status, and the reason for it where the printed line does not say that.
#[derive(Drop)]
pub struct Outcome {
    pub status: u8,
    pub reported: Option<Diagnostic>,
}

impl From<u8> for Outcome {
    ghost use Rattle.std.specs.Prelude.{◌≡◌, None};

    ghost from_gives = { λ status outcome. (outcome.status ≡ status) × (outcome.reported ≡ None) };

    fn from(status: u8) -> Outcome {
        Outcome {
            status,
            reported: None,
        }
    }
}

/// The environment variable that asks for words even where standard error is not a terminal.
const ASKS: &str = "TREEDESK_EXPLAIN";

/// Whether the environment asks for words, by the value of that variable.
fn asks(value: Result<String, VarError>) -> bool
    ensures { IsTrue result ↔ IsOkAnd value (λ text. string_bytes text ≡ codes "1") }
{
    match value {
        Ok(value) => value.as_str() == "1",
        Err(_) => false,
    }
}

/// Whether words are wanted on standard error: it is a terminal, or the environment asks for them.
pub fn wants_words(rt: &HostRuntime) -> bool {
    rt.stderr().is_terminal() || asks(env::var(rt, ASKS))
}
