//! Commands of a desk and questions to it, and what the desk holds after them, each as a line of text.

use crate::files::body_of;
use crate::telling::{assert_reported, error_text, joined, put, replaced, reported, said, text_of};
use sqlite::Alter;
use std::alloc::Global;
use std::process::Abort;
use tb_answer::{DeskCommand, obey};
use tb_conllu::Sink;
use tb_core::{Event, Fault};
use tb_http::{Reply, attribute_of, event_of, strategy_of};
use tb_query::{Query, Strategy, parse};
use tb_report::{Freq, Table, write_csv};
use tb_store::Desk;

const NOUN_PHRASES: &str =
    "[upos=\"DET\"]? [upos=\"ADJ\"]* [upos=\"NOUN\"] ([upos=\"ADP\"] [upos=\"DET\"]? [upos=\"ADJ\"]* [upos=\"NOUN\"])* within s;";

/// The word at a place, from 0; empty past the end.
fn word_at(line: &str, place: usize) -> &str {
    line.split(' ').nth(place).unwrap_or("")
}

pub(crate) fn number_at(rt: &impl Abort, line: &str, place: usize) -> u64 {
    word_at(line, place).parse::<u64>().ok().expect(rt, line)
}

fn event_at(rt: &impl Abort, line: &str) -> Event {
    event_of(word_at(line, 0)).expect(rt, line)
}

fn strategy_at(rt: &impl Abort, line: &str) -> Strategy {
    strategy_of(word_at(line, 1)).expect(rt, line)
}

/// The query that follows three words; `phrases` means the query of noun phrases.
fn query_of(rt: &impl Abort, alloc: Global, line: &str) -> Query {
    let text = line.splitn(4, ' ').nth(3).expect(rt, line);
    let text = if *text == *"phrases" {
        NOUN_PHRASES
    } else {
        text
    };
    parse(alloc, text).expect(rt, line)
}

/// The command of a line, with the body of its file: `import NAME USER FILE`, `correct NUMBER BASE USER FILE`,
/// `pull NUMBER USER`, `restore NUMBER USER` or `EVENT NAME USER`.
fn command_of<'a>(rt: &impl Abort, line: &'a str, body: &'a [u8]) -> DeskCommand<'a> {
    match word_at(line, 0) {
        "import" => DeskCommand::Import {
            name: word_at(line, 1),
            user: word_at(line, 2),
            body,
        },
        "correct" => DeskCommand::Correct {
            number: number_at(rt, line, 1),
            base: number_at(rt, line, 2),
            user: word_at(line, 3),
            body,
        },
        "pull" => DeskCommand::Pull {
            number: number_at(rt, line, 1),
            user: word_at(line, 2),
        },
        "restore" => DeskCommand::Restore {
            number: number_at(rt, line, 1),
            user: word_at(line, 2),
        },
        _ => DeskCommand::Event {
            name: word_at(line, 1),
            event: event_at(rt, line),
            user: word_at(line, 2),
        },
    }
}

/// The reply to a command. Its contract is not repeated where it is called.
fn reply_to<S: Alter>(desk: &mut Desk<S>, command: DeskCommand<'_>) -> Reply {
    obey(desk, command)
}

/// The line of a reply, without its line feed.
fn reply_text(rt: &impl Abort, alloc: Global, reply: Reply) -> String {
    let line = reply.line();
    let text = line.as_str().strip_suffix('\n').expect(rt, "a line");
    said(rt, alloc, text)
}

/// The answer to a command.
fn commanded<S: Alter>(rt: &impl Abort, alloc: Global, desk: &mut Desk<S>, line: &str) -> String {
    let place = if *word_at(line, 0) == *"correct" {
        4
    } else {
        3
    };
    let body = body_of(rt, alloc, word_at(line, place));
    let reply = reply_to(desk, command_of(rt, line, body.as_bytes()));
    reply_text(rt, alloc, reply)
}

/// What brings a file to release. `NAME` stands for the batch, and `FILE` for the file.
const PUBLISHING: &str = "\
    import NAME ann FILE\n\
    assign NAME ann\n\
    submit NAME ann\n\
    adjudicate NAME ben\n\
    release NAME cem\n";

/// `publish NAME FILE`: imports a file as a batch, and releases it. The answer is the last one.
fn published<S: Alter>(rt: &impl Abort, alloc: Global, desk: &mut Desk<S>, line: &str) -> String {
    let commands = replaced(rt, alloc, PUBLISHING, "NAME", word_at(line, 1));
    let commands = replaced(rt, alloc, commands.as_str(), "FILE", word_at(line, 2));
    let mut answer = String::new(alloc);
    for command in commands.as_str().lines() {
        answer = commanded(rt, alloc, desk, command);
    }
    answer
}

/// `revision NUMBER REV`.
fn revised<S: Alter>(rt: &impl Abort, alloc: Global, desk: &mut Desk<S>, line: &str) -> String {
    let revision = desk.revision(number_at(rt, line, 1), number_at(rt, line, 2));
    reported(rt, alloc, &revision)
}

/// `number STRATEGY of QUERY`.
fn numbered<S: Alter>(rt: &impl Abort, alloc: Global, desk: &mut Desk<S>, line: &str) -> String {
    let query = query_of(rt, alloc, line);
    let number = desk.number(&query, strategy_at(rt, line));
    reported(rt, alloc, &number)
}

/// An answer and the text that came with it, on one line: `/` replaces a tab, and `;` the end of a line.
fn shown(rt: &impl Abort, alloc: Global, answer: &Result<u64, Fault>, out: &[u8]) -> String {
    let answer = reported(rt, alloc, answer);
    let text = replaced(rt, alloc, text_of(rt, out), "\t", "/");
    let text = replaced(rt, alloc, text.as_str(), "\n", ";");
    joined(rt, alloc, &[answer.as_str(), " ", text.as_str()])
}

/// Writes the hits of the query that follows `search STRATEGY CONTEXT` or `cut STRATEGY BYTES`.
fn put_hits<S: Alter, W: Sink>(
    rt: &impl Abort,
    alloc: Global,
    desk: &mut Desk<S>,
    line: &str,
    context: u8,
    out: &mut W,
) -> Result<u64, Fault> {
    let query = query_of(rt, alloc, line);
    desk.search(&query, strategy_at(rt, line), context, out)
}

/// `cut STRATEGY BYTES QUERY`: a search with two words of context, whose output has room for so many bytes.
fn cut<S: Alter>(rt: &impl Abort, alloc: Global, desk: &mut Desk<S>, line: &str) -> String {
    let size = number_at(rt, line, 2).min(1000) as usize;
    let mut room = vec![in alloc; 0u8; size].expect(rt, "memory");
    let mut out: &mut [u8] = &mut room;
    let answer = put_hits(rt, alloc, desk, line, 2, &mut out);
    shown(rt, alloc, &answer, room.as_slice())
}

/// `search STRATEGY CONTEXT QUERY`.
fn searched<S: Alter>(rt: &impl Abort, alloc: Global, desk: &mut Desk<S>, line: &str) -> String {
    let context = number_at(rt, line, 2).min(20) as u8;
    let mut out: Vec<u8> = Vec::new(alloc);
    let answer = put_hits(rt, alloc, desk, line, context, &mut out);
    shown(rt, alloc, &answer, out.as_slice())
}

/// What a question is answered that lists.
type Answer = Result<String, Fault>;

/// A table, after a number.
fn listed(rt: &impl Abort, alloc: Global, number: u64, table: &impl Table) -> String {
    let mut csv: Vec<u8> = Vec::new(alloc);
    write_csv(alloc, table, &mut csv).expect(rt, "a table");
    shown(rt, alloc, &Ok(number), csv.as_slice())
}

/// `count STRATEGY COLUMN QUERY`: the sum of the rows, and the table.
fn count<S: Alter>(rt: &impl Abort, alloc: Global, desk: &mut Desk<S>, line: &str) -> Answer {
    let query = query_of(rt, alloc, line);
    let column = attribute_of(word_at(line, 2)).expect(rt, line);
    let counted = desk.count(&query, strategy_at(rt, line), column);
    table_of(rt, alloc, counted)
}

/// The table of a count. The query is no value here, so that no exit drops it.
fn table_of(rt: &impl Abort, alloc: Global, counted: Result<Freq, Fault>) -> Answer {
    let table = counted?;
    Ok(listed(rt, alloc, table.total(), &table))
}

/// `batches`: how many there are, and their list.
fn batches<S: Alter>(rt: &impl Abort, alloc: Global, desk: &mut Desk<S>) -> Answer {
    let lines = desk.batches()?;
    Ok(listed(rt, alloc, lines.len() as u64, &lines))
}

/// `sentences NAME`: how many a batch has, and their list.
fn sentences<S: Alter>(rt: &impl Abort, alloc: Global, desk: &mut Desk<S>, line: &str) -> Answer {
    let lines = desk.sentences(word_at(line, 1))?;
    Ok(listed(rt, alloc, lines.len() as u64, &lines))
}

/// `revisions NUMBER`: how many a sentence has, and their list.
fn revisions<S: Alter>(rt: &impl Abort, alloc: Global, desk: &mut Desk<S>, line: &str) -> Answer {
    let lines = desk.revisions(number_at(rt, line, 1))?;
    Ok(listed(rt, alloc, lines.len() as u64, &lines))
}

/// `find SENT_ID`: the number of the sentence, and its line.
fn find<S: Alter>(rt: &impl Abort, alloc: Global, desk: &mut Desk<S>, line: &str) -> Answer {
    let found = desk.find(word_at(line, 1))?;
    Ok(listed(rt, alloc, found.no, &found))
}

/// The answer to a question that lists. `None` where the line asks none.
fn ask<S: Alter>(rt: &impl Abort, alloc: Global, desk: &mut Desk<S>, line: &str) -> Option<Answer> {
    match word_at(line, 0) {
        "count" => Some(count(rt, alloc, desk, line)),
        "batches" => Some(batches(rt, alloc, desk)),
        "sentences" => Some(sentences(rt, alloc, desk, line)),
        "revisions" => Some(revisions(rt, alloc, desk, line)),
        "find" => Some(find(rt, alloc, desk, line)),
        _ => None,
    }
}

/// The answer to a question that lists, or to a command.
fn answered<S: Alter>(rt: &impl Abort, alloc: Global, desk: &mut Desk<S>, line: &str) -> String {
    match ask(rt, alloc, desk, line) {
        Some(Ok(text)) => text,
        Some(Err(fault)) => error_text(rt, alloc, &fault),
        None => commanded(rt, alloc, desk, line),
    }
}

/// The answer to a command or a question.
pub(crate) fn obeyed<S: Alter>(
    rt: &impl Abort,
    alloc: Global,
    desk: &mut Desk<S>,
    line: &str,
) -> String {
    match word_at(line, 0) {
        "publish" => published(rt, alloc, desk, line),
        "revision" => revised(rt, alloc, desk, line),
        "number" => numbered(rt, alloc, desk, line),
        "cut" => cut(rt, alloc, desk, line),
        "search" => searched(rt, alloc, desk, line),
        "standing" => standing(rt, alloc, desk),
        _ => answered(rt, alloc, desk, line),
    }
}

/// Asserts the answer of a desk to a line.
pub(crate) fn assert_obeyed<S: Alter>(
    rt: &impl Abort,
    alloc: Global,
    desk: &mut Desk<S>,
    line: &str,
    wanted: &str,
) {
    let answer = obeyed(rt, alloc, desk, line);
    assert_reported(rt, answer.as_str(), wanted, line);
}

/// Appends the lines of a table, each after a space, without the header and without those that end in `but`.
fn push_lines(rt: &impl Abort, alloc: Global, text: &mut String, table: &impl Table, but: &str) {
    let mut csv: Vec<u8> = Vec::new(alloc);
    write_csv(alloc, table, &mut csv).expect(rt, "a table");
    for line in text_of(rt, csv.as_slice()).lines().skip(1) {
        if !line.ends_with(but) {
            put(rt, text, " ");
            put(rt, text, line);
        }
    }
}

/// Appends the totals that are not zero, and the moves.
fn push_standing<S: Alter>(
    rt: &impl Abort,
    alloc: Global,
    desk: &mut Desk<S>,
    text: &mut String,
) -> Result<(), Fault> {
    let totals = desk.totals()?;
    push_lines(rt, alloc, text, &totals, ",0,0");
    let moves = desk.moves()?;
    push_lines(rt, alloc, text, &moves, "\n");
    Ok(())
}

/// The totals that are not zero, and the moves; or why the desk does not answer.
fn standing<S: Alter>(rt: &impl Abort, alloc: Global, desk: &mut Desk<S>) -> String {
    let mut text = said(rt, alloc, "desk");
    match push_standing(rt, alloc, desk, &mut text) {
        Ok(()) => text,
        Err(fault) => error_text(rt, alloc, &fault),
    }
}
