//! Serving one request with the page: the page answers what is its own, and the desk all else.

ghost use Rattle.std.specs.Prelude.{◌≡◌, ◌≢◌, ℕ, List, [], Err as ErrOf};
ghost use Rattle.tb_conllu.specs.Pieces.{AskedFor};
ghost use Rattle.tb_http.specs.Asks.{body_limit};
ghost use Rattle.tb_http.specs.Faults.{AwaitsMore, IsAtMostOne, TakenAfter};
ghost use Rattle.tb_page.specs.Answered.{AnswersVisit, LeavesFor, ReadsFor, SendsList};
ghost use Rattle.tb_page.specs.Lists.{LeavesForList};
ghost use Rattle.tb_page.specs.Paths.{list_by};
ghost use Rattle.tb_page.specs.Visits.{VisitText, Visits};

use crate::lists::list_text;
use crate::paths::PageList;
use crate::responses::{
    respond_check, respond_file, respond_foreign, respond_no_method, respond_refusal, respond_text,
};
use crate::visits::{Visit, read_visit};
use sqlite::Alter;
use std::alloc::Global;
use tb_answer::{Broken, answer, outcome};
use tb_conllu::{Sink, SliceSource, Source};
use tb_http::{HEAD_BYTES, Reply, Routes, Status};
use tb_store::Desk;

/// Answers with a list.
fn send_list<S: Alter, W: Sink>(
    alloc: Global,
    desk: &mut Desk<S>,
    list: PageList<'_>,
    out: &mut W,
) -> Result<Status, Broken>
    ensures sends { SendsList S.Store desk.old desk.new (W.held out.old) (W.held out.new) (W.IsRefusal out.new) result
        (list_by list.entry) }
    ensures kept { LeavesForList desk.old desk.new (list_by list.entry) }
    ensures reads_none { result ≢ ErrOf Broken.Read }
    ensures limits { desk.new.limits ≡ desk.old.limits }
{
    match list_text(alloc, desk, list) {
        Ok(text) => outcome(respond_text(out, text.as_slice())),
        Err(reply) => outcome(respond_refusal(out, reply)),
    }
}

/// Reads one request, does what it asks, and answers it, on a server with the page at this port. Returns the status of a
/// response that was written whole.
///
/// `came` has the first bytes that the reader gives: the whole head, if there is one, and the text of a check. By them the
/// page's requests are told from the desk's. The page's are answered here, and those from elsewhere are refused. All others
/// go to `answer` with the same reader.
///
/// # Errors
///
/// As `answer`. The reader fails only where the desk reads it: for what the page answers, and for a request without a
/// head, it is left as it was.
pub fn answer_with_page<S: Alter, R: Source, W: Sink>(
    alloc: Global,
    routes: &Routes,
    port: u16,
    came: &[u8],
    desk: &mut Desk<S>,
    reader: &mut R,
    out: &mut W,
) -> Result<Status, Broken>
    ensures answered { (v : VisitText) × Visits port came.now v × AnswersVisit S.Store desk.old desk.new
        (W.held out.old) (W.held out.new) (W.IsRefusal out.new) result came.now (R.left reader.old) v }
    ensures asked { (v : VisitText) × Visits port came.now v × ReadsFor reader.old reader.new v
        ((result ≢ ErrOf Broken.Read → (taken : List ℕ)
        × AskedFor (AwaitsMore body_limit) [] (R.pieces reader.old) (R.pieces reader.new) taken)
        × TakenAfter [] (R.left reader.old) (R.left reader.new) (IsAtMostOne body_limit)) }
    ensures kept { (v : VisitText) × Visits port came.now v × LeavesFor desk.old desk.new v }
    ensures cause { result ≡ ErrOf Broken.Read → ((why : R.Failure) × R.IsFailure reader.new why)
        × TakenAfter [] (R.left reader.old) (R.left reader.new) (AwaitsMore body_limit) }
    ensures limits { desk.new.limits ≡ desk.old.limits }
{
    let mut buf = [0; HEAD_BYTES];
    match read_visit(port, came, &mut buf) {
        Visit::NoHead => answer(alloc, routes, desk, &mut SliceSource { bytes: came }, out),
        Visit::Foreign(why) => outcome(respond_foreign(out, why)),
        Visit::File(file) => outcome(respond_file(out, file)),
        Visit::List(list) => send_list(alloc, desk, list, out),
        Visit::Check(text) => outcome(respond_check(alloc, out, text)),
        Visit::NoText(why) => outcome(respond_refusal(out, Reply::Faulty(why))),
        Visit::NoMethod(allow) => outcome(respond_no_method(out, allow)),
        Visit::Desk => answer(alloc, routes, desk, reader, out),
    }
}
