//! The lines, statuses and heads of answers.

use crate::cases::{Question, assert_alternatives, cut};
use crate::reading::refusal_named;
use crate::telling::{push_value, put, replaced, shown, without_end};
use std::alloc::Global;
use std::process::Abort;
use tb_core::{Corrected, Imported, Moved, Pulled, Restored, State};
use tb_http::{Allow, Extra, Reply, RequestFault, Status, head_of_reply, response_head};

/// A reply, by a name, or by the number and the words of a refusal.
fn reply_named(rt: &impl Abort, name: &str) -> Reply {
    match name {
        "imported" => Reply::Imported(Imported {
            batch: 1,
            first: 2,
            sentences: 3,
            words: 4,
        }),
        "moved" => Reply::Moved(Moved {
            batch: 1,
            state: State::Adjudicated,
            sentences: 3,
            words: 4,
        }),
        "corrected" => Reply::Corrected(Corrected {
            sentence: 1,
            rev: 2,
            words: 4,
        }),
        "pulled" => Reply::Pulled(Pulled {
            sentence: 2,
            words: 1,
        }),
        "restored" => Reply::Restored(Restored {
            sentence: 2,
            state: State::Withdrawn,
            words: 1,
        }),
        "head" => Reply::Faulty(RequestFault::Head),
        "length" => Reply::Faulty(RequestFault::Length),
        "path" => Reply::Faulty(RequestFault::Path),
        "method" => Reply::Faulty(RequestFault::Method(Allow::GetAndPost)),
        "long" => Reply::Faulty(RequestFault::Long),
        "body" => Reply::Faulty(RequestFault::Body),
        "memory" => Reply::Memory,
        "device" => Reply::Device,
        "desk" => Reply::Desk,
        number => Reply::Refused(refusal_named(rt, number)),
    }
}

/// The text with `¶` in the place of each CR LF.
fn folded(rt: &impl Abort, alloc: Global, text: &str) -> String {
    replaced(rt, alloc, text, "\r\n", "¶")
}

/// The status over HTTP, the exit status and the line of a reply.
fn line_reported(rt: &impl Abort, alloc: Global, reply: Reply) -> String {
    let line = reply.line();
    let mut text = shown(rt, alloc, &reply.status().code().as_u16());
    put(rt, &mut text, " ");
    push_value(rt, &mut text, &reply.exit());
    put(rt, &mut text, " ");
    put(rt, &mut text, without_end(rt, line.as_str()));
    text
}

/// The head of a response: of a revision, of a search, or of a reply.
fn head_reported(rt: &impl Abort, alloc: Global, name: &str) -> String {
    let head = match name {
        "revision" => response_head(Status::Ok, Some(9), Extra::Revision(2)),
        "search" => response_head(Status::Ok, None, Extra::Nothing),
        name => head_of_reply(reply_named(rt, name)),
    };
    folded(rt, alloc, head.as_str())
}

/// The line of a reply with its statuses, or the head of a response.
struct Reported;

impl Question for Reported {
    fn answer(&self, rt: &impl Abort, alloc: Global, asked: &str) -> String {
        let (part, name) = cut(rt, asked, " ");
        if *part == *"head" {
            head_reported(rt, alloc, name)
        } else {
            line_reported(rt, alloc, reply_named(rt, name))
        }
    }
}

const CASES: &str = "\
    line imported => 200 0 imported batch=1 first=2 sentences=3 words=4\n\
    line moved => 200 0 moved batch=1 state=adjudicated sentences=3 words=4\n\
    line corrected => 200 0 corrected sentence=1 rev=2 words=4\n\
    line pulled => 200 0 pulled sentence=2 words=1\n\
    line restored => 200 0 restored sentence=2 state=withdrawn words=1\n\
    line 1 => 400 1 refused 1 BadName\n\
    line 2 => 404 1 refused 2 NoSuchBatch\n\
    line 3 => 404 1 refused 3 NoSuchSentence\n\
    line 4 open => 409 1 refused 4 WrongState open\n\
    line 5 => 403 1 refused 5 NotYours\n\
    line 6 => 403 1 refused 6 OwnWork\n\
    line 7 21 => 409 1 refused 7 Stale 21\n\
    line 8 21 22 => 422 1 refused 8 Read 21 22\n\
    line 9 21 22 23 => 422 1 refused 9 Rule 21 22 23\n\
    line 10 => 422 1 refused 10 Empty\n\
    line 11 => 422 1 refused 11 NotOne\n\
    line 12 => 422 1 refused 12 SentIdChanged\n\
    line 13 => 422 1 refused 13 TextChanged\n\
    line 14 => 422 1 refused 14 NothingChanged\n\
    line 15 => 409 1 refused 15 NameTaken\n\
    line 16 21 => 409 1 refused 16 SentIdTaken 21\n\
    line 17 => 507 1 refused 17 Full\n\
    line 18 => 404 1 refused 18 NoSuchRevision\n\
    line 19 21 18446744073709551615 => 422 1 refused 19 Query 21 18446744073709551615\n\
    line 20 => 409 1 refused 20 Pulled\n\
    line 21 => 409 1 refused 21 NotPulled\n\
    line 22 => 422 1 refused 22 TooManyHits\n\
    line head => 400 1 refused head\n\
    line length => 400 1 refused length\n\
    line path => 404 1 refused path\n\
    line method => 405 1 refused method\n\
    line long => 413 1 refused long\n\
    line body => 400 1 refused body\n\
    line memory => 503 3 refused memory\n\
    line device => 503 3 refused device\n\
    line desk => 503 1 refused desk\n\
    head imported => HTTP/1.1 200 OK¶Content-Type: text/plain; charset=utf-8¶Content-Length: 45¶Connection: close¶¶\n\
    head revision => HTTP/1.1 200 OK¶Content-Type: text/plain; charset=utf-8¶Content-Length: 9¶Connection: close¶Desk-Revision: 2¶¶\n\
    head search => HTTP/1.1 200 OK¶Content-Type: text/plain; charset=utf-8¶Connection: close¶¶\n\
    head head => HTTP/1.1 400 Bad Request¶Content-Type: text/plain; charset=utf-8¶Content-Length: 13¶Connection: close¶¶\n\
    head 5 => HTTP/1.1 403 Forbidden¶Content-Type: text/plain; charset=utf-8¶Content-Length: 19¶Connection: close¶¶\n\
    head path => HTTP/1.1 404 Not Found¶Content-Type: text/plain; charset=utf-8¶Content-Length: 13¶Connection: close¶¶\n\
    head method => HTTP/1.1 405 Method Not Allowed¶Content-Type: text/plain; charset=utf-8¶Content-Length: 15¶Connection: close¶Allow: GET, POST¶¶\n\
    head 15 => HTTP/1.1 409 Conflict¶Content-Type: text/plain; charset=utf-8¶Content-Length: 21¶Connection: close¶¶\n\
    head long => HTTP/1.1 413 Payload Too Large¶Content-Type: text/plain; charset=utf-8¶Content-Length: 13¶Connection: close¶¶\n\
    head 10 => HTTP/1.1 422 Unprocessable Entity¶Content-Type: text/plain; charset=utf-8¶Content-Length: 17¶Connection: close¶¶\n\
    head memory => HTTP/1.1 503 Service Unavailable¶Content-Type: text/plain; charset=utf-8¶Content-Length: 15¶Connection: close¶¶\n\
    head 17 => HTTP/1.1 507 Insufficient Storage¶Content-Type: text/plain; charset=utf-8¶Content-Length: 16¶Connection: close¶¶\n";

#[test]
fn lines_statuses_and_heads(rt: HostRuntime) {
    assert_alternatives(&rt, rt.alloc(), &Reported, CASES, 48)
}
