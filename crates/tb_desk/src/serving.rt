//! Serves the desk over HTTP on loopback: one connection after another, with one request each.

ghost use Rattle.std.specs.Prelude.{◌≡◌, ◌≢◌, ◌↔◌, ◌⊎◌, [], IfErr, IfOk, IfSome, IsTrue};
ghost use Rattle.std.specs.Prelude.{None, Err as ErrOf, Ok as OkOf, IsSomeAnd, OnErr, OnOk, false, string_bytes, true};
ghost use Rattle.std.specs.Io.KnownBytes.{Appends};
ghost use Rattle.std.specs.Net.Addr.{ipv4_octets};
ghost use Rattle.sqlite.specs.Held.{state};
ghost use Rattle.sqlite.specs.State.{HasCleanDisk};
ghost use Rattle.tb_conllu.specs.Sunk.{AppendsPart};
ghost use Rattle.tb_desk.specs.Callers.{said_by};
ghost use Rattle.tb_desk.specs.Replies.{IsReplyWritten};
ghost use Rattle.tb_answer.specs.Served.{IsSafeOf, Serves};
ghost use Rattle.tb_host.specs.Reported.{IsReported, IsTold};
ghost use Rattle.tb_desk.specs.Served.{IsChosen, IsEnded, IsPortRefused, IsServed, IsServedAt, IsServedInFile};
ghost use Rattle.tb_desk.specs.Served.{IsServedWith, IsServerEnd, listening};
ghost use Rattle.tb_desk.specs.Serving.{ReadsOne, ended_by, loopback, page_at, page_line, port_place};
ghost use Rattle.tb_http.specs.Asks.{body_limit};
ghost use Rattle.tb_http.specs.Faults.{AwaitsMore, TakenAfter};
ghost use Rattle.tb_page.specs.Answered.{AnswersVisit, ReadsFor};
ghost use Rattle.tb_page.specs.Visits.{VisitText, Visits};
ghost use Rattle.tb_store.specs.Handing.{WantsToTell};
ghost use Rattle.tb_tables.specs.Leaving.{IsFaultless};

use crate::callers::{Caller, Request};
use crate::clients::{Clients, serve_all};
use crate::exchanges::{Exchange, serve_one};
use crate::keeping::Keeper;
use crate::memory::put_memory;
use crate::service::Service;
use crate::sockets::SystemSockets;
use crate::waiting::{Next, Waiting};
use crate::words::put_file_cause;
use arrayvec::ArrayString;
use sqlite::Alter;
use std::alloc::Global;
use std::io::{self, BufWriter, ErrorKind, Write};
use std::net::{Ipv4Addr, TcpListener};
use tb_answer::{Broken, answer, put_reply, respond_reply};
use tb_conllu::{Sink, Source};
use tb_core::Fault;
use tb_host::{Answer, Cause, Diagnostic, Outcome, Place, PortCause, has_changed, wants_words};
use tb_http::{Reply, Routes, Status, push_number};
use tb_page::answer_with_page;
use tb_store::Desk;

const BUFFER: usize = 65_536;

/// What a server answers beside the desk's paths.
#[derive(Clone, Copy, PartialEq, Eq)]
pub(crate) enum Beside {
    Nothing,
    /// The page for browsers.
    Page,
}

impl Beside {
    ghost use Rattle.std.specs.Prelude.{◌≡◌};
    ghost use Rattle.tb_desk.specs.Serving.{page_at};

    /// The port of the page, if there is one, for a server at this port.
    fn page_at(self, port: u16) -> Option<u16>
        ensures { result ≡ page_at self port }
    {
        match self {
            Beside::Nothing => None,
            Beside::Page => Some(port),
        }
    }
}

/// Answers the request of a connection, which a reader gives from its first byte on, with the page beside the desk where
/// there is a port for it.
fn answer_at<S: Alter, R: Source, W: Sink>(
    alloc: Global,
    routes: &Routes,
    page: Option<u16>,
    caller: &Caller,
    desk: &mut Desk<S>,
    reader: &mut R,
    out: &mut W,
) -> Result<Status, Broken>
    ensures alone { page ≡ None → result ≢ ErrOf Broken.Read
        → Serves S.Store (R.left reader.old) desk.old desk.new (W.held out.old) (W.held out.new)
        (W.IsRefusal out.new) result }
    ensures broken { page ≡ None → result ≡ ErrOf Broken.Read
        → (desk.new ≡ desk.old) × (W.held out.new ≡ W.held out.old) }
    ensures page { IfSome page (λ port. (v : VisitText) × Visits port (said_by caller.now) v
        × AnswersVisit S.Store desk.old desk.new (W.held out.old) (W.held out.new) (W.IsRefusal out.new) result
        (said_by caller.now) (R.left reader.old) v) }
    ensures crash { page ≡ None → IsSafeOf S.Store (R.left reader.old) desk.old desk.new }
    ensures asked { page ≡ None → ReadsOne (R.pieces reader.old) (R.pieces reader.new) (R.left reader.old)
        (R.left reader.new) result }
    ensures reads { IfSome page (λ port. (v : VisitText) × Visits port (said_by caller.now) v
        × ReadsFor reader.old reader.new v (ReadsOne (R.pieces reader.old) (R.pieces reader.new)
        (R.left reader.old) (R.left reader.new) result)) }
    ensures cause { result ≡ ErrOf Broken.Read → ((why : R.Failure) × R.IsFailure reader.new why)
        × TakenAfter [] (R.left reader.old) (R.left reader.new) (AwaitsMore body_limit) }
    ensures limits { desk.new.limits ≡ desk.old.limits }
{
    match page {
        Some(port) => answer_with_page(alloc, routes, port, caller.said(), desk, reader, out),
        None => answer(alloc, routes, desk, reader, out),
    }
}

/// What follows from an answer: whether the client has it whole, or why the server ends. `has_moved` says whether the
/// desk's files are no longer in their place, `is_shut` whether a fault has shut the store.
pub(crate) fn ended_by(
    answered: Result<Status, Broken>,
    has_moved: bool,
    is_shut: bool,
) -> Result<bool, Cause>
    ensures value { result ≡ ended_by answered has_moved is_shut }
    ensures shut { result ≡ ErrOf Cause.FileShut → is_shut ≡ true }
    ensures goes_on { result ≡ OkOf true → is_shut ≡ false }
{
    match answered {
        Ok(_) if is_shut => Err(Cause::FileShut),
        Ok(_) => Ok(true),
        Err(Broken::Read) if has_moved => Err(Cause::FilesMoved),
        Err(Broken::Read) => Ok(false),
        Err(Broken::Write) => Ok(false),
    }
}

/// A request on a connection of the system's, for a desk that may have files and a page beside it.
#[derive(Drop)]
struct Visit<'a> {
    rt: &'a HostRuntime,
    routes: &'a Routes,
    place: Option<&'a Place>,
    page: Option<u16>,
    caller: &'a Caller,
}

impl<'a> Visit<'a> {
    /// The client, as it takes an answer.
    fn client(&self) -> Answer<'a> {
        Answer::new(self.rt, self.caller.stream())
    }
}

impl<'a> Exchange for Visit<'a> {
    ghost use Rattle.std.specs.Prelude.{◌≢◌, None};

    type Request = Request<'a>;

    type Out = BufWriter<Answer<'a>>;

    ghost done = { λ _. None };

    ghost HasFiles = { λ self. self.place ≢ None };

    fn has_moved(&mut self) -> bool {
        has_changed(self.rt, self.place)
    }

    fn refuse(&mut self, reply: Reply) {
        let _ = respond_reply(&mut self.client(), reply);
    }

    fn request(&mut self) -> io::Result<Request<'a>> {
        self.caller.request(self.rt, self.place)
    }

    fn out(&mut self) -> io::Result<BufWriter<Answer<'a>>> {
        BufWriter::with_capacity(self.rt.alloc(), BUFFER, self.client())
    }

    fn answer<S: Alter>(
        &mut self,
        desk: &mut Desk<S>,
        request: &mut Request<'a>,
        out: &mut BufWriter<Answer<'a>>,
    ) -> Result<Status, Broken> {
        let alloc = self.rt.alloc();
        answer_at(
            alloc,
            self.routes,
            self.page,
            self.caller,
            desk,
            request,
            out,
        )
    }

    fn hand_on(&mut self, mut out: BufWriter<Answer<'a>>) {
        let _ = out.flush();
    }
}

/// Whether a store is shut, by what was told of it.
fn is_shut(told: &Result<bool, Fault>) -> bool
    ensures { IsTrue result ↔ (told.now ≡ OkOf false) }
{
    matches!(told, Ok(false))
}

/// Whether a fault has shut the desk's store. Only a response that says that something failed is a reason to ask.
pub(crate) fn has_shut<S: Alter>(desk: &mut Desk<S>, status: Status) -> bool
    ensures unasked { status ≢ Status.ServiceUnavailable → (result ≡ false) × (desk.new ≡ desk.old) }
    ensures shut { HasCleanDisk (state S.Store desk.new.conn) → IsTrue result
        → IsFaultless S.Store desk.old.conn desk.new.conn → ⊥ }
    ensures open { HasCleanDisk (state S.Store desk.new.conn) → result ≡ false
        → status ≡ Status.ServiceUnavailable → IsTrue (state S.Store desk.new.conn).is_open
        ⊎ WantsToTell (state S.Store desk.old.conn) (state S.Store desk.new.conn) }
    ensures limits { desk.new.limits ≡ desk.old.limits }
{
    if status != Status::ServiceUnavailable {
        return false;
    }
    is_shut(&desk.is_open())
}

/// The line with the port that a server listens on.
fn listening(port: u16) -> ArrayString<32>
    ensures { result.bytes ≡ listening port }
{
    let mut line = ArrayString::new();
    line.push_str("listening ");
    push_number(&mut line, u64::from(port));
    line.push_str("\n");
    line
}

/// Prints the port at once, for programs that wait to connect to it.
fn announce<W: Keeper>(port: u16, out: &mut W) -> Result<(), W::Refusal>
    ensures told { OnOk result (Appends (W.held out.old) (W.held out.new) (listening port)) }
    ensures part { OnErr result (AppendsPart (W.held out.old) (W.held out.new) (listening port)) }
    ensures at_once { OnOk result (W.HasHandedOn out.new) }
    ensures refused { IfErr result (W.IsRefusal out.new) }
{
    let line = listening(port);
    match out.put(line.as_str().as_bytes()) {
        Ok(()) => {}
        Err(refusal) => return Err(refusal),
    }
    match out.hand_on() {
        Ok(()) => Ok(()),
        Err(refusal) => Err(refusal),
    }
}

/// The line that says where the page is.
fn page_line(port: u16) -> ArrayString<80>
    ensures { result.bytes ≡ page_line port }
{
    let mut line = ArrayString::new();
    line.push_str("deskview: open http://127.0.0.1:");
    push_number(&mut line, u64::from(port));
    line.push_str("/ in a browser");
    line
}

/// Tells at a terminal where the page is, which a user opens next. A failure to print it is ignored.
fn tell_address(rt: &HostRuntime, port: u16) {
    if wants_words(rt) {
        let _told = eprintln!(rt; "{}", page_line(port).as_str());
    }
}

/// The address at which programs of this machine alone find a server.
fn loopback() -> Ipv4Addr
    ensures { ipv4_octets result ≡ loopback }
{
    Ipv4Addr::new(127, 0, 0, 1)
}

/// Whether a listener that was asked for this port can have that one.
fn is_chosen(asked: u16, port: u16) -> bool
    ensures { IsTrue result ↔ IsChosen asked port }
{
    port != 0 && (asked == 0 || port == asked)
}

/// The port of a listener, by what the system says. A listener at a port that was not asked for is none.
fn port_of(listener: &TcpListener, asked: u16) -> io::Result<u16>
    ensures { IfOk result (IsChosen asked) }
{
    let port = listener.local_addr()?.port();
    if is_chosen(asked, port) {
        Ok(port)
    } else {
        Err(io::Error::from(ErrorKind::AddrNotAvailable))
    }
}

/// Listens on this port of loopback; for port 0 the system chooses one. Returns the port.
fn listen(rt: &HostRuntime, port: u16) -> Result<(TcpListener, u16), PortCause>
    ensures chosen { IfOk result (λ found. IsChosen port found.1) }
    ensures refused { IfErr result (IsPortRefused port) }
{
    match TcpListener::bind(rt, (loopback(), port)) {
        Ok(listener) => match port_of(&listener, port) {
            Ok(chosen) => Ok((listener, chosen)),
            Err(error) => Err(PortCause::of_system(error, port)),
        },
        Err(error) => Err(PortCause::of_system(error, port)),
    }
}

/// A server of the system's, while it runs.
#[derive(Drop)]
struct Server<'a> {
    rt: &'a HostRuntime,
    sockets: SystemSockets<'a>,
    routes: Routes,
    waiting: Waiting,
    listener: TcpListener,
    place: Option<&'a Place>,
    service: Service,
    /// The port at which it listens.
    port: u16,
}

impl Server<'_> {
    ghost use Rattle.std.specs.Prelude.{◌≡◌};
    ghost use Rattle.tb_desk.specs.Serving.{page_at};

    /// The port of the page, if one is served.
    fn page(&self) -> Option<u16>
        ensures { result ≡ page_at self.now.service.beside self.now.port }
    {
        self.service.beside.page_at(self.port)
    }
}

impl Clients for Server<'_> {
    ghost use Rattle.std.specs.Prelude.{◌≢◌, None};

    ghost noted = { λ _. None };

    ghost HasFiles = { λ self. self.place ≢ None };

    ghost HasFailed = { λ _. Unit {0} };

    fn next(&mut self) -> io::Result<Option<Next>> {
        self.waiting
            .next(&mut self.sockets, &self.routes, &self.listener)
    }

    fn serve<S: Alter>(&mut self, desk: &mut Desk<S>, caller: &Caller) -> Result<bool, Cause> {
        let page = self.page();
        let mut visit = Visit {
            rt: self.rt,
            routes: &self.routes,
            place: self.place,
            page,
            caller,
        };
        serve_one(&mut visit, desk)
    }

    fn part(&mut self, caller: Caller) {
        self.waiting.part(&mut self.sockets, caller);
    }

    fn part_all(&mut self) {
        self.waiting.part_all(&mut self.sockets);
    }
}

/// Reports that the program cannot listen on a port.
fn put_port_cause<W: Sink>(rt: &HostRuntime, port: u16, cause: PortCause, out: &mut W) -> Outcome
    ensures written { IsReplyWritten (W.held out.old) (W.held out.new) (W.IsRefusal out.new) result.status
        Reply.Device }
    ensures reported { IsReported result.reported (Cause.Port cause) }
    ensures place { IsSomeAnd result.reported (λ d. IfSome d.place (λ text. string_bytes text ≡ port_place port)) }
{
    Outcome {
        status: put_reply(out, Reply::Device),
        reported: Some(Diagnostic {
            place: format!(in rt.alloc(); "port {port}").ok(),
            cause: Cause::Port(cause),
        }),
    }
}

/// Reports why a server ended early.
fn put_ended<W: Sink>(cause: Cause, out: &mut W) -> Outcome
    ensures written { IsReplyWritten (W.held out.old) (W.held out.new) (W.IsRefusal out.new) result.status
        Reply.Device }
    ensures reported { IsReported result.reported cause }
{
    Outcome {
        status: put_reply(out, Reply::Device),
        reported: Some(Diagnostic::from(cause)),
    }
}

/// Ends a server that took all its connections, or ended before the last of them.
fn put_end<W: Sink>(served: Result<u64, Cause>, requests: u64, out: &mut W) -> Outcome
    requires all { IfOk served (λ taken. taken ≡ requests) }
    requires early { IfErr served (λ cause. IsServerEnd cause × (requests ≢ 0)) }
    ensures ended { IsEnded (W.held out.old) (W.held out.new) (W.IsRefusal out.new) result.status
        (IsTold result.reported) requests }
    ensures in_memory { served ≢ ErrOf Cause.FilesMoved → ¬ IsReported result.reported Cause.FilesMoved }
{
    match served {
        Ok(_) => Outcome::from(0),
        Err(cause) => put_ended(cause, out),
    }
}

/// Serves the connections of a server, once its port is printed.
fn serve_heard<S: Alter, W: Sink>(
    mut server: Server<'_>,
    desk: &mut Desk<S>,
    out: &mut W,
) -> Outcome
    ensures ended { IsEnded (W.held out.old) (W.held out.new) (W.IsRefusal out.new) result.status
        (IsTold result.reported) server.entry.service.requests }
    ensures in_memory { server.entry.place ≡ None → ¬ IsReported result.reported Cause.FilesMoved }
    ensures limits { desk.new.limits ≡ desk.old.limits }
{
    let requests = server.service.requests;
    if let Some(port) = server.page() {
        tell_address(server.rt, port);
    }
    let served = serve_all(&mut server, desk, requests);
    put_end(served, requests, out)
}

/// Prints the port of a server, and serves its connections.
fn serve_at<S: Alter, W: Keeper>(server: Server<'_>, desk: &mut Desk<S>, out: &mut W) -> Outcome
    ensures ended { IsServedAt (W.held out.old) (W.held out.new) (W.IsRefusal out.new) result.status
        (IsTold result.reported) server.entry.port server.entry.service.requests }
    ensures in_memory { server.entry.place ≡ None → ¬ IsReported result.reported Cause.FilesMoved }
    ensures limits { desk.new.limits ≡ desk.old.limits }
{
    match announce(server.port, out) {
        Ok(()) => serve_heard(server, desk, out),
        Err(_) => Outcome::from(3),
    }
}

/// Serves so many connections on a port of loopback, with what was made for that.
fn serve_with<S: Alter, W: Keeper>(
    rt: &HostRuntime,
    routes: Routes,
    waiting: Waiting,
    desk: &mut Desk<S>,
    place: Option<&Place>,
    service: Service,
    out: &mut W,
) -> Outcome
    ensures ended { IsServedWith (W.held out.old) (W.held out.new) (W.IsRefusal out.new) result.status
        (IsTold result.reported) service }
    ensures in_memory { place.entry ≡ None → ¬ IsReported result.reported Cause.FilesMoved }
    ensures limits { desk.new.limits ≡ desk.old.limits }
{
    match listen(rt, service.port) {
        Ok((listener, port)) => {
            let server = Server {
                rt,
                sockets: SystemSockets { rt },
                routes,
                waiting,
                listener,
                place,
                service,
                port,
            };
            serve_at(server, desk, out)
        }
        Err(cause) => put_port_cause(rt, service.port, cause, out),
    }
}

/// Serves so many connections on a port of loopback; for port 0 the system chooses one. The page is served beside the
/// desk, if it is wanted.
///
/// It ends early where the desk's files are no longer in their place, or where a fault has shut the store.
pub(crate) fn serve<S: Alter, W: Keeper>(
    rt: &HostRuntime,
    desk: &mut Desk<S>,
    place: Option<&Place>,
    service: Service,
    out: &mut W,
) -> Outcome
    ensures ended { IsServed (W.held out.old) (W.held out.new) (W.IsRefusal out.new) result.status
        (IsTold result.reported) service }
    ensures in_memory { place.entry ≡ None → ¬ IsReported result.reported Cause.FilesMoved }
    ensures limits { desk.new.limits ≡ desk.old.limits }
{
    let Ok(routes) = Routes::new(rt.alloc()) else {
        return put_memory(out);
    };
    let Ok(waiting) = Waiting::new(rt.alloc()) else {
        return put_memory(out);
    };
    serve_with(rt, routes, waiting, desk, place, service, out)
}

/// Serves the desk in the file at this path, while its files are in their place.
pub(crate) fn serve_in_file<S: Alter, W: Keeper>(
    rt: &HostRuntime,
    path: &str,
    desk: &mut Desk<S>,
    service: Service,
    out: &mut W,
) -> Outcome
    ensures { IsServedInFile (W.held out.old) (W.held out.new) (W.IsRefusal out.new) result.status
        (IsTold result.reported) service }
{
    match Place::new(rt, path) {
        Ok(place) => serve(rt, desk, Some(&place), service, out),
        Err(cause) => put_file_cause(rt, path, cause, out),
    }
}
