//! The words for a refused command, and for what may come next.

ghost use Rattle.std.specs.Prelude.{◌≡◌, None, IfSome, is_some};
ghost use Rattle.tb_words.specs.declared.sentences.TheConstants.{PATTERN_LARGE, STALE};
ghost use Rattle.tb_words.specs.Explained.{BeginWith, Explains, IsNumbered, Say, SaysOfCode, SaysOfMemory};
ghost use Rattle.tb_words.specs.Explained.{SaysMissing, SaysOfRefusal, base_of, batch_place, is_explained, missing_sentence};
ghost use Rattle.tb_words.specs.Explained.{next_sentence, refusal_sentence, stale_place, state_place, state_sentence};
ghost use Rattle.tb_words.specs.Explaining.{ExplainsBody};

use crate::queries::words_of_query;
use crate::sentences as reported;
use crate::telling::{words_of_line, words_of_rule};
use crate::words::{Page, Words, shown};
use std::alloc::Global;
use tb_core::{Refusal, State};
use tb_http::{Reply, RequestFault};
use tb_query::{QueryFault, parse};

/// What was asked, as far as the words depend on it.
#[derive(Clone, Copy)]
pub enum Asked<'a> {
    Event,
    /// A correction that was made on this revision.
    Correction(u64),
    /// A pull or a restore.
    Pull,
    /// A search or a count of what this query finds.
    Query(&'a str),
    /// The sentence with this `sent_id`.
    SentId(&'a str),
    Other,
}

/// The sentence that says what may come after this state of a batch.
fn next_of(state: State) -> &'static str
    ensures { result.now ≡ next_sentence state }
{
    match state {
        State::Opened => reported::OPEN,
        State::Assigned => reported::ASSIGNED,
        State::Submitted => reported::SUBMITTED,
        State::Adjudicated => reported::ADJUDICATED,
        State::Released => reported::RELEASED,
        State::Withdrawn => reported::WITHDRAWN,
    }
}

/// The words for a batch in this state.
fn words_of_move(alloc: Global, state: State) -> Words
    ensures says { Say result (next_sentence state) None }
    ensures place { BeginWith result (batch_place state) }
{
    let word = state.word();
    Words::at(format!(in alloc; "the batch is {word}"), next_of(state))
}

/// The sentence for a refusal that has no place.
fn sentence_of(refusal: Refusal) -> &'static str
    ensures { result.now ≡ refusal_sentence refusal }
{
    match refusal {
        Refusal::BadName => reported::BAD_NAME,
        Refusal::NoSuchBatch => reported::NO_SUCH_BATCH,
        Refusal::NoSuchSentence => reported::NO_SUCH_SENTENCE,
        Refusal::WrongState(state) => next_of(state),
        Refusal::NotYours => reported::NOT_YOURS,
        Refusal::OwnWork => reported::OWN_WORK,
        Refusal::Stale(_) => reported::STALE,
        Refusal::Read(_, _) | Refusal::Rule(_, _, _) => reported::BROKEN,
        Refusal::Empty => reported::EMPTY,
        Refusal::NotOne => reported::NOT_ONE,
        Refusal::SentIdChanged => reported::SENT_ID_CHANGED,
        Refusal::TextChanged => reported::TEXT_CHANGED,
        Refusal::NothingChanged => reported::NOTHING_CHANGED,
        Refusal::NameTaken => reported::NAME_TAKEN,
        Refusal::SentIdTaken(_) => reported::SENT_ID_TAKEN,
        Refusal::Full => reported::FULL,
        Refusal::NoSuchRevision => reported::NO_SUCH_REVISION,
        Refusal::Query(_, _) => reported::SYNTAX,
        Refusal::Pulled => reported::PULLED,
        Refusal::NotPulled => reported::NOT_PULLED,
        Refusal::TooManyHits => reported::TOO_MANY_HITS,
    }
}

/// The words for a state that does not allow what was asked.
fn wrong_state(alloc: Global, state: State, asked: Asked<'_>) -> Words
    ensures says { Say result (state_sentence asked.entry state) (Some Page.Batches) }
    ensures place { BeginWith result (state_place asked.entry state) }
{
    let word = state.word();
    let words = match asked {
        Asked::Correction(_) => Words::at(
            format!(in alloc; "the sentence is {word}"),
            reported::CORRECT_STATE,
        ),
        Asked::Pull => Words::at(
            format!(in alloc; "the batch is {word}"),
            reported::PULL_STATE,
        ),
        Asked::Event | Asked::Query(_) | Asked::SentId(_) | Asked::Other => {
            words_of_move(alloc, state)
        }
    };
    words.on(Page::Batches)
}

/// The revision that a correction was made on; 0 where nothing was corrected.
fn base_of(asked: Asked<'_>) -> u64
    ensures { result ≡ base_of asked.entry }
{
    match asked {
        Asked::Correction(base) => base,
        Asked::Event | Asked::Pull | Asked::Query(_) | Asked::SentId(_) | Asked::Other => 0,
    }
}

/// The words for a correction that was not made on the current revision.
fn stale(alloc: Global, base: u64, current: u64) -> Words
    ensures says { Say result STALE.now None }
    ensures place { BeginWith result (stale_place base current) }
{
    Words::at(
        format!(in alloc; "made on revision {base}, the current one is {current}"),
        reported::STALE,
    )
}

/// The words for a sentence that does not exist: it was asked for by its `sent_id`, or by its number.
fn no_such_sentence(alloc: Global, asked: Asked<'_>) -> Words
    ensures says { Say result (missing_sentence asked.entry) None }
    ensures place { SaysMissing asked.entry result }
{
    match asked {
        Asked::SentId(sent_id) => {
            let sent_id = shown(sent_id);
            Words::at(
                format!(in alloc; "<sent_id> {sent_id}"),
                reported::NO_SUCH_SENT_ID,
            )
        }
        _ => Words::alone(reported::NO_SUCH_SENTENCE),
    }
}

/// The fault of a query with this code, at this place.
fn query_fault(code: u8, at: u64) -> Option<QueryFault>
    ensures known { IfSome result (λ e. IsNumbered e code at) }
    ensures all { (e : QueryFault) → IsNumbered e code at → result ≡ Some e }
{
    match code {
        1 => Some(QueryFault::TooLong),
        2 => Some(QueryFault::Syntax(at)),
        3 => Some(QueryFault::TooMany),
        4 => Some(QueryFault::TooDeep),
        5 => Some(QueryFault::Repeat),
        6 => Some(QueryFault::Pattern(at)),
        _ => None,
    }
}

/// The words for a query that is refused with this code, at this place.
fn of_query(alloc: Global, code: u8, at: u64, asked: Asked<'_>) -> Words
    ensures { SaysOfCode asked.entry code at result }
{
    match (asked, query_fault(code, at)) {
        (Asked::Query(text), Some(fault)) => words_of_query(alloc, text, fault),
        _ => Words::alone(reported::SYNTAX),
    }
}

/// The words for a query with a pattern that is too large.
fn of_large(alloc: Global, text: &str) -> Words
    ensures { Say result PATTERN_LARGE.now (Some Page.Queries) }
{
    words_of_query(alloc, text, QueryFault::Memory)
}

/// The words for want of memory. A query that wants memory whenever it is read has a pattern that is too large.
fn of_memory(alloc: Global, asked: Asked<'_>) -> Words
    ensures { SaysOfMemory result }
{
    match asked {
        Asked::Query(text) if matches!(parse(alloc, text), Err(QueryFault::Memory)) => {
            of_large(alloc, text)
        }
        _ => Words::alone(reported::MEMORY),
    }
}

fn of_refusal(alloc: Global, refusal: Refusal, asked: Asked<'_>) -> Words
    ensures { SaysOfRefusal refusal asked.entry result }
{
    match refusal {
        Refusal::Query(code, at) => of_query(alloc, code, at, asked),
        Refusal::WrongState(state) => wrong_state(alloc, state, asked),
        Refusal::Stale(current) => stale(alloc, base_of(asked), current),
        Refusal::NoSuchSentence => no_such_sentence(alloc, asked),
        Refusal::SentIdTaken(sentence) => Words::at(
            format!(in alloc; "sentence {sentence} of the input"),
            reported::SENT_ID_TAKEN,
        ),
        other => Words::alone(sentence_of(other)),
    }
}

/// The words for a reply. A refusal gets what is wrong in the body, and a batch that moved gets what may come next.
pub fn words_of_reply(alloc: Global, reply: Reply, body: &[u8], asked: Asked<'_>) -> Option<Words>
    ensures some { is_some result ≡ is_explained reply }
    ensures says { IfSome result (λ words. Explains reply asked.entry words) }
    ensures body { IfSome result (ExplainsBody reply body.now) }
{
    match reply {
        Reply::Moved(moved) => Some(words_of_move(alloc, moved.state)),
        Reply::Refused(Refusal::Read(line, code)) => {
            Some(words_of_line(alloc, body, line as usize, code))
        }
        Reply::Refused(Refusal::Rule(sentence, rule, row)) => {
            Some(words_of_rule(alloc, body, sentence, rule, row))
        }
        Reply::Refused(refusal) => Some(of_refusal(alloc, refusal, asked)),
        Reply::Faulty(RequestFault::Long) => Some(Words::alone(reported::LONG)),
        Reply::Memory => Some(of_memory(alloc, asked)),
        Reply::Device => Some(Words::alone(reported::DEVICE)),
        Reply::Desk => Some(Words::alone(reported::DESK)),
        _ => None,
    }
}
