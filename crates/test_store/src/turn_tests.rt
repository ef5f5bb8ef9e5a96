//! Long lists of requests, and single requests: the returned status beside the written head, a sink that refuses at
//! each place, and more hits than an answer may have.

use crate::files::{DOGS, body_of};
use crate::server::{Server, answer_into};
use crate::telling::{
    assert_holds, assert_reported, assert_same, error_text, joined, put, replaced, text_of,
};
use std::alloc::Global;
use std::process::Abort;
use tb_answer::Broken;
use tb_http::Status;

/// The events that release a batch, each with its user.
const RELEASE: &str = "assign ann,submit ann,adjudicate ben,release cem";

/// A request by a user, with this body.
fn request(rt: &impl Abort, alloc: Global, target: &str, user: &str, body: &str) -> Vec<u8> {
    let size = error_text(rt, alloc, &body.len());
    let mut text = String::new(alloc);
    put(rt, &mut text, "POST ");
    put(rt, &mut text, target);
    put(rt, &mut text, " HTTP/1.1\r\nDesk-User: ");
    put(rt, &mut text, user);
    put(rt, &mut text, "\r\nContent-Length: ");
    put(rt, &mut text, size.as_str());
    put(rt, &mut text, "\r\n\r\n");
    put(rt, &mut text, body);
    text.into_bytes()
}

/// Appends a request.
fn push_request(
    rt: &impl Abort,
    alloc: Global,
    requests: &mut Vec<Vec<u8>>,
    target: &[&str],
    user: &str,
    body: &str,
) {
    let target = joined(rt, alloc, target);
    let request = request(rt, alloc, target.as_str(), user, body);
    requests.push(request).expect(rt, user);
}

/// Appends the requests that import a batch and release it.
fn push_batch(rt: &impl Abort, alloc: Global, requests: &mut Vec<Vec<u8>>, name: &str, body: &str) {
    push_request(rt, alloc, requests, &["/batches/", name], "ann", body);
    for step in RELEASE.split(',') {
        let (event, user) = step.split_once(' ').expect(rt, step);
        push_request(
            rt,
            alloc,
            requests,
            &["/batches/", name, "/", event],
            user,
            "",
        );
    }
}

/// Appends the requests that import and release the batch of this number, whose sentence has the number in its name.
fn push_numbered(rt: &impl Abort, alloc: Global, requests: &mut Vec<Vec<u8>>, number: u32) {
    let number = error_text(rt, alloc, &number);
    let name = joined(rt, alloc, &["b", number.as_str()]);
    let id = joined(rt, alloc, &["= s", number.as_str()]);
    let body = replaced(rt, alloc, DOGS, "= s1", id.as_str());
    push_batch(rt, alloc, requests, name.as_str(), body.as_str());
}

/// A hundred batches of one sentence, each imported and released.
fn hundred(rt: &impl Abort, alloc: Global) -> Vec<Vec<u8>> {
    let mut requests = Vec::new(alloc);
    for number in 1..=100u32 {
        push_numbered(rt, alloc, &mut requests, number);
    }
    requests
}

/// The search that follows them.
fn search_of_dogs(rt: &impl Abort, alloc: Global) -> Vec<u8> {
    request(rt, alloc, "/search/longest/1", "", "[lemma=\"dog\"]")
}

/// The response to that search: a line for each of the hundred sentences.
fn hundred_hits(rt: &impl Abort, alloc: Global) -> String {
    let mut text = String::new(alloc);
    put(
        rt,
        &mut text,
        "HTTP/1.1 200 OK\r\nContent-Type: text/plain; charset=utf-8\r\nConnection: close\r\n\r\n",
    );
    for number in 1..=100u32 {
        put(rt, &mut text, "s");
        put(rt, &mut text, error_text(rt, alloc, &number).as_str());
        put(rt, &mut text, "\t1\t1\t\tDogs\tbark\n");
    }
    put(rt, &mut text, "hits 100\n");
    text
}

/// Has a desk answer the requests, and asserts that it does. Returns the responses.
fn answered(rt: &impl Abort, alloc: Global, server: &mut Server, requests: &[Vec<u8>]) -> Vec<u8> {
    let mut out: Vec<u8> = Vec::new(alloc);
    let ended = server.answer_all(requests, &mut out);
    assert_same(rt, &ended, &Ok(()), "a list");
    out
}

/// The last of these responses.
fn last_of<'a>(rt: &impl Abort, responses: &'a str) -> &'a str {
    let place = responses.rfind("HTTP/1.1 ").expect(rt, responses);
    responses.get(place..).expect(rt, responses)
}

/// Asserts that the responses are those of five hundred commands and that search.
fn assert_searched(rt: &impl Abort, alloc: Global, responses: &str) {
    let count = responses.matches("HTTP/1.1 200 OK\r\n").count();
    assert_same(rt, &count, &501, "responses");
    let hits = hundred_hits(rt, alloc);
    assert_reported(rt, last_of(rt, responses), hits.as_str(), "the search");
}

/// The responses to five hundred commands and that search.
fn responses(rt: &impl Abort, alloc: Global, server: &mut Server) -> Vec<u8> {
    let mut requests = hundred(rt, alloc);
    let search = search_of_dogs(rt, alloc);
    requests.push(search).expect(rt, "a search");
    answered(rt, alloc, server, &requests)
}

/// Five hundred commands and a search, as one list.
#[test]
fn a_hundred_batches_are_released_and_searched(rt: HostRuntime) {
    let mut server = Server::new(&rt, rt.alloc());
    let out = responses(&rt, rt.alloc(), &mut server);
    assert_searched(&rt, rt.alloc(), text_of(&rt, &out));
}

/// Answers a search into a buffer of this size, and asserts how that ends. The buffer holds what comes before in the
/// whole response.
fn assert_refused_at(
    rt: &impl Abort,
    alloc: Global,
    server: &mut Server,
    search: &[u8],
    size: usize,
    whole: &str,
) {
    let (ended, held) = answer_into(rt, alloc, server, search, size);
    let wanted = if size < whole.len() {
        Err(Broken::Write)
    } else {
        Ok(Status::Ok)
    };
    assert_same(rt, &ended, &wanted, text_of(rt, &held));
    let begins = whole.as_bytes().starts_with(held.as_slice());
    assert_holds(rt, begins, text_of(rt, &held));
}

/// The search of a hundred sentences, whose sink refuses at each of its bytes.
fn assert_refused(rt: &impl Abort, alloc: Global, server: &mut Server) {
    let search = search_of_dogs(rt, alloc);
    let whole = hundred_hits(rt, alloc);
    for size in 0..=whole.len() {
        assert_refused_at(rt, alloc, server, &search, size, whole.as_str());
    }
}

/// The sink holds what came before, and the desk answers the next request.
#[test]
fn a_search_is_refused_at_each_byte(rt: HostRuntime) {
    let mut server = Server::new(&rt, rt.alloc());
    let requests = hundred(&rt, rt.alloc());
    answered(&rt, rt.alloc(), &mut server, &requests);
    assert_refused(&rt, rt.alloc(), &mut server);
}

/// The words of a head before the reason: the version and the code of a status.
fn head_of(rt: &impl Abort, alloc: Global, status: Status) -> String {
    let code = error_text(rt, alloc, &status.code().as_u16());
    joined(rt, alloc, &["HTTP/1.1 ", code.as_str(), " "])
}

/// Answers a request, and asserts that the returned status is the one in the head.
fn assert_answered(
    rt: &impl Abort,
    alloc: Global,
    server: &mut Server,
    asked: &[u8],
    wanted: &str,
) {
    let mut out: Vec<u8> = Vec::new(alloc);
    let mut reader = asked;
    let status = server.answer(&mut reader, &mut out).ok().expect(rt, wanted);
    let head = head_of(rt, alloc, status);
    let said = text_of(rt, &out);
    assert_holds(rt, said.starts_with(head.as_str()), said);
    assert_holds(rt, said.ends_with(wanted), said);
}

/// Releases a batch of a sentence of 1,000 words.
fn release(rt: &impl Abort, alloc: Global, server: &mut Server, name: &str, body: &str) {
    let mut requests = Vec::new(alloc);
    push_batch(rt, alloc, &mut requests, name, body);
    for asked in &requests {
        assert_answered(rt, alloc, server, asked.as_slice(), "words=1000\n");
    }
}

/// Releases a sentence, and asserts what a search for some words in a row says then.
fn assert_hits(
    rt: &impl Abort,
    alloc: Global,
    server: &mut Server,
    name: &str,
    body: &str,
    wanted: &str,
) {
    release(rt, alloc, server, name, body);
    let every = request(rt, alloc, "/search/every/0", "", "[]+");
    assert_answered(rt, alloc, server, &every, wanted);
}

/// A sentence of 1,000 words, and another one with another name.
fn assert_thousands(rt: &impl Abort, alloc: Global, server: &mut Server) {
    let body = body_of(rt, alloc, "thousand");
    assert_hits(rt, alloc, server, "one", body.as_str(), "hits 500500\n");
    let body = replaced(rt, alloc, body.as_str(), "= s9", "= s10");
    let wanted = "refused 22 TooManyHits\n";
    assert_hits(rt, alloc, server, "other", body.as_str(), wanted);
}

/// Two released sentences of 1,000 words have 1,001,000 matches of some words in a row, above the limit of 1,000,000.
#[test]
fn too_many_hits_are_refused(rt: HostRuntime) {
    let mut server = Server::new(&rt, rt.alloc());
    assert_thousands(&rt, rt.alloc(), &mut server);
}
