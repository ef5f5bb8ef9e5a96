//! Lists of requests on one desk in memory. One call answers each list. Requests and responses are written with signs:
//! `¶` represents CR LF, `␊` LF, `…` a file of one sentence, 150 bytes, and `§` what a head has from its status to its
//! length.

use crate::files::DOGS;
use crate::server::Server;
use crate::telling::{assert_holds, assert_reported, assert_same, replaced, text_of};
use std::alloc::Global;
use std::process::Abort;
use tb_answer::Broken;
use tb_conllu::Sink;

const HEAD: &str = "¶Content-Type: text/plain; charset=utf-8¶Content-Length: ";

/// An import, twice, and everything that may be asked of its batch up to the release, with requests that are refused
/// in between.
const ASKED: &str = "\
    POST /batches/b1 HTTP/1.1¶Host: x¶Desk-User: ann¶Content-Length: 150¶¶…\n\
    POST /batches/b1 HTTP/1.1¶Desk-User: bea¶Content-Length: 150¶¶…\n\
    POST /batches/b2 HTTP/1.1¶Desk-User: ann¶Content-Length: 150¶¶…\n\
    GET /moves HTTP/1.1¶¶\n\
    POST /batches/b1/assign HTTP/1.1¶Desk-User: ann¶¶\n\
    GET /batches/b1 HTTP/1.1¶¶\n\
    GET /sentences/1 HTTP/1.1¶¶\n\
    GET /sentences/1/1 HTTP/1.1¶¶\n\
    GET /batches/b2 HTTP/1.1¶¶\n\
    GET /released HTTP/1.1¶¶\n\
    POST /batches/b1 HTTP/1.1¶Content-Length: 150¶¶one\n\
    GET /total HTTP/1.1¶¶\n\
    POST /batches/b1/submit HTTP/1.1¶Desk-User: ann¶¶\n\
    POST /batches/b1/adjudicate HTTP/1.1¶Desk-User: ben¶¶\n\
    POST /batches/b1/release HTTP/1.1¶Desk-User: cem¶¶\n\
    GET /totals HTTP/1.1¶¶\n\
    GET /released HTTP/1.1¶¶\n\
    POST /count/shortest/upos HTTP/1.1¶Content-Length: 2¶¶[]\n\
    POST /search/longest/5 HTTP/1.1¶Content-Length: 13¶¶[lemma=\"dog\"]";

const ANSWERED: &str = "\
    HTTP/1.1 200 OK§45¶Connection: close¶¶imported batch=1 first=1 sentences=1 words=3␊\
    HTTP/1.1 200 OK§45¶Connection: close¶¶imported batch=1 first=1 sentences=1 words=3␊\
    HTTP/1.1 409 Conflict§25¶Connection: close¶¶refused 16 SentIdTaken 1␊\
    HTTP/1.1 200 OK§97¶Connection: close¶¶no,kind,batch,sentence,from,to,sentences,words_out,words_in,who␊\
    1,import,1,0,none,open,1,0,3,ann␊\
    HTTP/1.1 200 OK§49¶Connection: close¶¶moved batch=1 state=assigned sentences=1 words=3␊\
    HTTP/1.1 200 OK§150¶Connection: close¶¶…\
    HTTP/1.1 200 OK§150¶Connection: close¶Desk-Revision: 1¶¶…\
    HTTP/1.1 200 OK§150¶Connection: close¶¶…\
    HTTP/1.1 404 Not Found§22¶Connection: close¶¶refused 2 NoSuchBatch␊\
    HTTP/1.1 200 OK§0¶Connection: close¶¶\
    HTTP/1.1 400 Bad Request§13¶Connection: close¶¶refused body␊\
    HTTP/1.1 404 Not Found§13¶Connection: close¶¶refused path␊\
    HTTP/1.1 200 OK§50¶Connection: close¶¶moved batch=1 state=submitted sentences=1 words=3␊\
    HTTP/1.1 200 OK§52¶Connection: close¶¶moved batch=1 state=adjudicated sentences=1 words=3␊\
    HTTP/1.1 200 OK§49¶Connection: close¶¶moved batch=1 state=released sentences=1 words=3␊\
    HTTP/1.1 200 OK§101¶Connection: close¶¶state,sentences,words␊\
    open,0,0␊assigned,0,0␊submitted,0,0␊adjudicated,0,0␊released,1,3␊withdrawn,0,0␊\
    HTTP/1.1 200 OK§150¶Connection: close¶¶…\
    HTTP/1.1 200 OK§32¶Connection: close¶¶key,count␊NOUN,1␊PUNCT,1␊VERB,1␊\
    HTTP/1.1 200 OK¶Content-Type: text/plain; charset=utf-8¶Connection: close¶¶s1\t1\t1\t\tDogs\tbark .␊hits 1␊";

/// Three commands on one batch.
const COMMANDS: &str = "\
    POST /batches/b1 HTTP/1.1¶Desk-User: ann¶Content-Length: 150¶¶…\n\
    POST /batches/b1/assign HTTP/1.1¶Desk-User: ann¶¶\n\
    POST /batches/b1/submit HTTP/1.1¶Desk-User: ann¶¶";

/// The response to the first of them, and 74 bytes of the response to the second: 218 bytes.
const CUT: &str = "\
    HTTP/1.1 200 OK§45¶Connection: close¶¶imported batch=1 first=1 sentences=1 words=3␊\
    HTTP/1.1 200 OK§";

/// The text with one sign written out.
fn spelled(rt: &impl Abort, alloc: Global, text: String, sign: &str, meaning: &str) -> String {
    replaced(rt, alloc, text.as_str(), sign, meaning)
}

/// The text with its signs written out.
pub(crate) fn plain(rt: &impl Abort, alloc: Global, text: &str) -> String {
    let headed = replaced(rt, alloc, text, "§", HEAD);
    let whole = spelled(rt, alloc, headed, "…", DOGS);
    let ended = spelled(rt, alloc, whole, "¶", "\r\n");
    spelled(rt, alloc, ended, "␊", "\n")
}

/// The requests of these lines, one each.
fn requests_in(rt: &impl Abort, alloc: Global, list: &str) -> Vec<Vec<u8>> {
    let mut requests = Vec::new(alloc);
    for line in list.lines() {
        let request = plain(rt, alloc, line).into_bytes();
        requests.push(request).expect(rt, line);
    }
    requests
}

/// Has a desk answer the requests of these lines, and asserts how that ends.
fn assert_ends<W: Sink>(
    rt: &impl Abort,
    alloc: Global,
    server: &mut Server,
    list: &str,
    out: &mut W,
    wanted: Result<(), Broken>,
) {
    let requests = requests_in(rt, alloc, list);
    let ended = server.answer_all(&requests, out);
    assert_same(rt, &ended, &wanted, list);
}

/// Asserts that the bytes are a text whose signs are written out.
pub(crate) fn assert_written(rt: &impl Abort, alloc: Global, bytes: &[u8], wanted: &str) {
    let wanted = plain(rt, alloc, wanted);
    assert_reported(rt, text_of(rt, bytes), wanted.as_str(), "a list");
}

fn assert_answered(rt: &impl Abort, alloc: Global, server: &mut Server) {
    let mut out: Vec<u8> = Vec::new(alloc);
    assert_ends(rt, alloc, server, ASKED, &mut out, Ok(()));
    assert_written(rt, alloc, &out, ANSWERED);
}

#[test]
fn a_list_is_answered_in_turn(rt: HostRuntime) {
    let mut server = Server::new(&rt, rt.alloc());
    assert_answered(&rt, rt.alloc(), &mut server);
}

/// Asserts that the list of moves ends with this line.
fn assert_last_move(rt: &impl Abort, alloc: Global, server: &mut Server, line: &str) {
    let mut out: Vec<u8> = Vec::new(alloc);
    let asked = "GET /moves HTTP/1.1¶¶";
    assert_ends(rt, alloc, server, asked, &mut out, Ok(()));
    let moves = text_of(rt, &out);
    assert_holds(rt, moves.ends_with(line), moves);
}

/// A sink that refuses the second response.
fn assert_refused(rt: &impl Abort, alloc: Global, server: &mut Server) {
    let mut room = [0; 218];
    let mut out = room.as_mut_slice();
    let refused = Err(Broken::Write);
    assert_ends(rt, alloc, server, COMMANDS, &mut out, refused);
    assert_written(rt, alloc, &room, CUT);
}

/// The second command was done, and the third was not.
#[test]
fn a_list_stops_where_the_sink_refuses(rt: HostRuntime) {
    let mut server = Server::new(&rt, rt.alloc());
    assert_refused(&rt, rt.alloc(), &mut server);
    let line = "2,assign,1,0,open,assigned,1,3,3,ann\n";
    assert_last_move(&rt, rt.alloc(), &mut server, line);
}
