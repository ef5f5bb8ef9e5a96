//! What the bytes of requests ask.

use crate::cases::{Question, assert_alternatives};
use crate::requests::{bytes_of, reported_by};
use std::alloc::Global;
use std::process::Abort;

/// What a request asks.
struct Request;

impl Question for Request {
    fn answer(&self, rt: &impl Abort, alloc: Global, asked: &str) -> String {
        let bytes = bytes_of(rt, alloc, asked);
        reported_by(rt, alloc, &mut bytes.as_slice())
    }
}

/// Heads and users; lengths and bodies; paths and methods; no header, 32 and 33. Then all 48 sets of faults, of
/// which the first is reported: two users, a coding, an unknown path, a wrong method, a body too long, a body too
/// short.
const REQUESTS: &str = "\
    GET /totals HTTP/1.1¶¶ => Totals by \"\" with 0\n\
    GET /totals HTTP/1.1¶¶more => Totals by \"\" with 0\n\
    GET /totals HTTP/1.1␊␊ => Totals by \"\" with 0\n\
    ¶¶GET /totals HTTP/1.1¶¶ => Totals by \"\" with 0\n\
    GET /totals HTTP/1.1¶ => BadRequest refused head\n\
    GET /totals¶¶ => BadRequest refused head\n\
    GET /totals HTTP/1.1¶X: …a¶¶ => Totals by \"\" with 0\n\
    GET /totals HTTP/1.1¶X: …aa¶¶ => BadRequest refused head\n\
    GET /totals HTTP/1.1¶Desk-User: a¶Desk-User: a¶¶ => BadRequest refused head\n\
    GET /totals HTTP/1.1¶Desk-User: a¶dESK-uSER: b¶¶ => BadRequest refused head\n\
    POST /pull/3 HTTP/1.1¶DESK-user: ␉ ann ␉¶¶ => Pull { no: 3 } by \"ann\" with 0\n\
    POST /pull/3 HTTP/1.1¶Desk-User: ÿ¶¶ => Pull { no: 3 } by \"\" with 0\n\
    POST /pull/3 HTTP/1.1¶Desk-User:¶¶ => Pull { no: 3 } by \"\" with 0\n\
    POST /pull/3 HTTP/1.1¶Desk-Users: a¶Desk-Use: b¶¶ => Pull { no: 3 } by \"\" with 0\n\
    POST /batches/b1 HTTP/1.1¶content-LENGTH:  2␉¶¶abc => Import { name: \"b1\" } by \"\" with 2\n\
    POST /batches/b1 HTTP/1.1¶Content-Length: 00000000000000000000003¶¶abc => Import { name: \"b1\" } by \"\" with 3\n\
    POST /batches/b1 HTTP/1.1¶Content-Length: 4¶¶abc => BadRequest refused body\n\
    POST /batches/b1 HTTP/1.1¶Content-Length: 3¶¶á => BadRequest refused body\n\
    POST /batches/b1 HTTP/1.1¶Content-Length: 4194304¶¶abc => BadRequest refused body\n\
    POST /batches/b1 HTTP/1.1¶Content-Length: 4194305¶¶abc => PayloadTooLarge refused long\n\
    POST /batches/b1 HTTP/1.1¶Content-Length: 99999999999999999999¶¶abc => PayloadTooLarge refused long\n\
    POST /batches/b1 HTTP/1.1¶Content-Length: 18446744073709551617¶¶abc => PayloadTooLarge refused long\n\
    GET /totals HTTP/1.1¶Content-Length: 1¶¶ => BadRequest refused body\n\
    GET /totals HTTP/1.1¶Content-Length: 0¶Content-Length: 0¶¶ => BadRequest refused length\n\
    GET /totals HTTP/1.1¶Content-Length: +1¶¶a => BadRequest refused length\n\
    GET /totals HTTP/1.1¶Content-Length: -1¶¶ => BadRequest refused length\n\
    GET /totals HTTP/1.1¶Content-Length: 1, 1¶¶a => BadRequest refused length\n\
    GET /totals HTTP/1.1¶Content-Length: 0x1¶¶a => BadRequest refused length\n\
    GET /totals HTTP/1.1¶Content-Length: 1 2¶¶a => BadRequest refused length\n\
    GET /totals HTTP/1.1¶Content-Length:¶¶ => BadRequest refused length\n\
    GET /totals HTTP/1.1¶TRANSFER-encoding: identity¶¶ => BadRequest refused length\n\
    GET /totals HTTP/1.1¶Transfer-Encoding: chunked¶Content-Length: 0¶¶ => BadRequest refused length\n\
    GET /totals HTTP/1.1¶Expect: 100-continue¶¶ => Totals by \"\" with 0\n\
    POST /batches/b1 HTTP/1.1¶¶ => Import { name: \"b1\" } by \"\" with 0\n\
    GET /batches/b1 HTTP/1.1¶¶ => Export { name: \"b1\" } by \"\" with 0\n\
    GET /batches/a%20b HTTP/1.1¶¶ => Export { name: \"a%20b\" } by \"\" with 0\n\
    PUT /batches/b1 HTTP/1.1¶¶ => MethodNotAllowed refused method GetAndPost\n\
    get /batches/b1 HTTP/1.1¶¶ => MethodNotAllowed refused method GetAndPost\n\
    GET /batches/ HTTP/1.1¶¶ => NotFound refused path\n\
    GET /batches HTTP/1.1¶¶ => NotFound refused path\n\
    GET /batches//assign HTTP/1.1¶¶ => NotFound refused path\n\
    POST /batches/b1/assign HTTP/1.1¶¶ => Step { name: \"b1\", event: Assign } by \"\" with 0\n\
    POST /batches/b1/unassign HTTP/1.1¶¶ => Step { name: \"b1\", event: Unassign } by \"\" with 0\n\
    POST /batches/b1/submit HTTP/1.1¶¶ => Step { name: \"b1\", event: Submit } by \"\" with 0\n\
    POST /batches/b1/send-back HTTP/1.1¶¶ => Step { name: \"b1\", event: SendBack } by \"\" with 0\n\
    POST /batches/b1/adjudicate HTTP/1.1¶¶ => Step { name: \"b1\", event: Adjudicate } by \"\" with 0\n\
    POST /batches/b1/release HTTP/1.1¶¶ => Step { name: \"b1\", event: Release } by \"\" with 0\n\
    POST /batches/b1/withdraw HTTP/1.1¶¶ => Step { name: \"b1\", event: Withdraw } by \"\" with 0\n\
    POST /batches/b1/reopen HTTP/1.1¶¶ => Step { name: \"b1\", event: Reopen } by \"\" with 0\n\
    POST /batches/b1/opened HTTP/1.1¶¶ => NotFound refused path\n\
    POST /batches/b1/Assign HTTP/1.1¶¶ => NotFound refused path\n\
    POST /batches/b1/assign/ HTTP/1.1¶¶ => NotFound refused path\n\
    GET /batches/b1/assign HTTP/1.1¶¶ => MethodNotAllowed refused method Post\n\
    POST /sentences/17/after/1 HTTP/1.1¶¶ => Correct { no: 17, base: 1 } by \"\" with 0\n\
    POST /sentences/17/after/0 HTTP/1.1¶¶ => Correct { no: 17, base: 0 } by \"\" with 0\n\
    POST /sentences/17/after/01 HTTP/1.1¶¶ => NotFound refused path\n\
    POST /sentences/0/after/1 HTTP/1.1¶¶ => NotFound refused path\n\
    GET /sentences/17/after/1 HTTP/1.1¶¶ => MethodNotAllowed refused method Post\n\
    GET /sentences/17/after HTTP/1.1¶¶ => NotFound refused path\n\
    GET /sentences/9999999999 HTTP/1.1¶¶ => Sentence { no: 9999999999 } by \"\" with 0\n\
    GET /sentences/10000000000 HTTP/1.1¶¶ => NotFound refused path\n\
    GET /sentences/0 HTTP/1.1¶¶ => NotFound refused path\n\
    GET /sentences/017 HTTP/1.1¶¶ => NotFound refused path\n\
    GET /sentences/+17 HTTP/1.1¶¶ => NotFound refused path\n\
    GET /sentences/1a HTTP/1.1¶¶ => NotFound refused path\n\
    POST /sentences/17 HTTP/1.1¶¶ => MethodNotAllowed refused method Get\n\
    GET /sentences/17/2 HTTP/1.1¶¶ => Revision { no: 17, rev: 2 } by \"\" with 0\n\
    GET /sentences/17/0 HTTP/1.1¶¶ => NotFound refused path\n\
    POST /pull/17 HTTP/1.1¶¶ => Pull { no: 17 } by \"\" with 0\n\
    POST /restore/17 HTTP/1.1¶¶ => Restore { no: 17 } by \"\" with 0\n\
    POST /pull/0 HTTP/1.1¶¶ => NotFound refused path\n\
    GET /restore/17 HTTP/1.1¶¶ => MethodNotAllowed refused method Post\n\
    GET /released HTTP/1.1¶¶ => Released by \"\" with 0\n\
    POST /released HTTP/1.1¶¶ => MethodNotAllowed refused method Get\n\
    GET /totals HTTP/1.1¶¶ => Totals by \"\" with 0\n\
    HEAD /totals HTTP/1.1¶¶ => MethodNotAllowed refused method Get\n\
    GET /totals?x=1 HTTP/1.1¶¶ => NotFound refused path\n\
    GET /totals/ HTTP/1.1¶¶ => NotFound refused path\n\
    GET /moves HTTP/1.1¶¶ => Moves by \"\" with 0\n\
    OPTIONS /moves HTTP/1.1¶¶ => MethodNotAllowed refused method Get\n\
    GET /nothing HTTP/1.1¶¶ => NotFound refused path\n\
    PUT /nothing HTTP/1.1¶¶ => NotFound refused path\n\
    POST /search/longest/5 HTTP/1.1¶¶ => Search { strategy: Longest, context: 5 } by \"\" with 0\n\
    POST /search/shortest/0 HTTP/1.1¶¶ => Search { strategy: Shortest, context: 0 } by \"\" with 0\n\
    POST /search/every/20 HTTP/1.1¶¶ => Search { strategy: Every, context: 20 } by \"\" with 0\n\
    GET /search/longest/5 HTTP/1.1¶¶ => MethodNotAllowed refused method Post\n\
    POST /search/longest/21 HTTP/1.1¶¶ => NotFound refused path\n\
    POST /search/longest/05 HTTP/1.1¶¶ => NotFound refused path\n\
    POST /search/longest HTTP/1.1¶¶ => NotFound refused path\n\
    POST /search/standard/5 HTTP/1.1¶¶ => NotFound refused path\n\
    POST /count/longest/word HTTP/1.1¶¶ => Count { strategy: Longest, attribute: Form } by \"\" with 0\n\
    POST /count/longest/lemma HTTP/1.1¶¶ => Count { strategy: Longest, attribute: Lemma } by \"\" with 0\n\
    POST /count/longest/upos HTTP/1.1¶¶ => Count { strategy: Longest, attribute: Upos } by \"\" with 0\n\
    POST /count/longest/xpos HTTP/1.1¶¶ => Count { strategy: Longest, attribute: Xpos } by \"\" with 0\n\
    POST /count/longest/feats HTTP/1.1¶¶ => Count { strategy: Longest, attribute: Feats } by \"\" with 0\n\
    POST /count/every/deprel HTTP/1.1¶¶ => Count { strategy: Every, attribute: Deprel } by \"\" with 0\n\
    POST /count/longest/form HTTP/1.1¶¶ => NotFound refused path\n\
    GET /count/longest/lemma HTTP/1.1¶¶ => MethodNotAllowed refused method Post\n\
    GET /moves HTTP/1.1¶¶ => Moves by \"\" with 0\n\
    GET /moves HTTP/1.1¶X-0: y¶X-1: y¶X-2: y¶X-3: y¶X-4: y¶X-5: y¶X-6: y¶X-7: y¶X-8: y¶X-9: y¶X-10: y¶X-11: y¶X-12: y¶X-13: y¶X-14: y¶X-15: y¶X-16: y¶X-17: y¶X-18: y¶X-19: y¶X-20: y¶X-21: y¶X-22: y¶X-23: y¶X-24: y¶X-25: y¶X-26: y¶X-27: y¶X-28: y¶X-29: y¶X-30: y¶X-31: y¶¶ => Moves by \"\" with 0\n\
    GET /moves HTTP/1.1¶X-0: y¶X-1: y¶X-2: y¶X-3: y¶X-4: y¶X-5: y¶X-6: y¶X-7: y¶X-8: y¶X-9: y¶X-10: y¶X-11: y¶X-12: y¶X-13: y¶X-14: y¶X-15: y¶X-16: y¶X-17: y¶X-18: y¶X-19: y¶X-20: y¶X-21: y¶X-22: y¶X-23: y¶X-24: y¶X-25: y¶X-26: y¶X-27: y¶X-28: y¶X-29: y¶X-30: y¶X-31: y¶X-32: y¶¶ => BadRequest refused head\n\
    POST /batches/b1 HTTP/1.1¶Desk-User: a¶Content-Length: 3¶¶abc => Import { name: \"b1\" } by \"a\" with 3\n\
    (POST|PUT) /(batches|batch)/b1 HTTP/1.1¶Desk-User: a¶Desk-User: b¶(|Transfer-Encoding: chunked¶)Content-Length: (3|4|4194305)¶¶abc => BadRequest refused head\n\
    (POST|PUT) /(batches|batch)/b1 HTTP/1.1¶Desk-User: a¶Transfer-Encoding: chunked¶Content-Length: (3|4|4194305)¶¶abc => BadRequest refused length\n\
    (POST|PUT) /batch/b1 HTTP/1.1¶Desk-User: a¶Content-Length: (3|4|4194305)¶¶abc => NotFound refused path\n\
    PUT /batches/b1 HTTP/1.1¶Desk-User: a¶Content-Length: (3|4|4194305)¶¶abc => MethodNotAllowed refused method GetAndPost\n\
    POST /batches/b1 HTTP/1.1¶Desk-User: a¶Content-Length: 4194305¶¶abc => PayloadTooLarge refused long\n\
    POST /batches/b1 HTTP/1.1¶Desk-User: a¶Content-Length: 4¶¶abc => BadRequest refused body\n";

#[test]
fn requests_are_read(rt: HostRuntime) {
    assert_alternatives(&rt, rt.alloc(), &Request, REQUESTS, 149)
}
