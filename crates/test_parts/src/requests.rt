//! Requests as texts, and what they ask, as text.

use crate::telling::{push_value, put, said, value_text, without_end};
use std::alloc::Global;
use std::io::Read;
use std::process::Abort;
use tb_http::{Ask, AskFault, Call, HEAD_BYTES, Reply, RequestFault, Routes, read_ask};

/// The bytes of a text. In it `
///
/// ` represents CR LF, `␊` a lone LF, `␉` a tab, `ÿ` the byte 255, and `…` 8,162 letters.
pub(crate) fn bytes_of(rt: &impl Abort, alloc: Global, text: &str) -> Vec<u8> {
    let mut all = Vec::new(alloc);
    for sign in text.chars() {
        push_sign(rt, &mut all, sign);
    }
    all
}

fn push_sign(rt: &impl Abort, all: &mut Vec<u8>, sign: char) {
    match sign {
        '¶' => push_bytes(rt, all, b"\r\n"),
        '␊' => push_bytes(rt, all, b"\n"),
        '␉' => push_bytes(rt, all, b"\t"),
        'ÿ' => push_bytes(rt, all, &[255]),
        '…' => push_bytes(rt, all, &[b'a'; 8162]),
        _ => push_bytes(rt, all, sign.encode_utf8(&mut [0; 4]).as_bytes()),
    }
}

fn push_bytes(rt: &impl Abort, all: &mut Vec<u8>, bytes: &[u8]) {
    all.extend_from_slice(bytes).expect(rt, "memory");
}

/// The status and the line of a fault, and the methods that are answered with it.
fn fault_text(rt: &impl Abort, alloc: Global, fault: RequestFault) -> String {
    let reply = Reply::Faulty(fault);
    let line = reply.line();
    let mut text = value_text(rt, alloc, &reply.status());
    put(rt, &mut text, " ");
    put(rt, &mut text, without_end(rt, line.as_str()));
    if let RequestFault::Method(allow) = fault {
        put(rt, &mut text, " ");
        push_value(rt, &mut text, &allow);
    }
    text
}

fn call_text(rt: &impl Abort, alloc: Global, call: &Call<'_>) -> String {
    let mut text = value_text(rt, alloc, &call.action);
    put(rt, &mut text, " by ");
    push_value(rt, &mut text, &call.user);
    put(rt, &mut text, " with ");
    push_value(rt, &mut text, &call.body.len());
    text
}

fn ask_text(rt: &impl Abort, alloc: Global, ask: &Result<Ask<'_>, AskFault>) -> String {
    match ask {
        Ok(Ask::Refused(fault)) => fault_text(rt, alloc, *fault),
        Ok(Ask::Call(call)) => call_text(rt, alloc, call),
        Err(AskFault::Broken) => said(rt, alloc, "broken"),
        Err(AskFault::Memory) => said(rt, alloc, "memory"),
    }
}

/// What a reader's request asks of a server with these routes.
fn asked_of<R: Read>(rt: &impl Abort, alloc: Global, routes: &Routes, reader: &mut R) -> String {
    let mut buf = [0; HEAD_BYTES];
    let ask = read_ask(alloc, routes, reader, &mut buf);
    ask_text(rt, alloc, &ask)
}

/// What the bytes of a reader ask.
pub(crate) fn reported_by<R: Read>(rt: &impl Abort, alloc: Global, reader: &mut R) -> String {
    let routes = Routes::new(alloc).ok().expect(rt, "routes");
    asked_of(rt, alloc, &routes, reader)
}
