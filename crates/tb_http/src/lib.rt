//! The part of HTTP that needs no store: what the bytes of a request ask, and the heads and lines of answers.
//!
//! Read `read_ask` in `asks.rt` first, and then `specs/Asks.antt`, which says what bytes ask. The command line uses
//! the forms of values (`forms.rt`) and the lines (`replies.rt`) too.
#![tactic(auto)]

mod actions;
mod asks;
mod filling;
mod forms;
mod head;
mod headers;
mod heads;
mod parts;
mod replies;
mod routes;
mod status;

pub use actions::{Action, Allow, Resource, resource_of};
pub use asks::{Ask, AskFault, BODY_BYTES, Call, RequestFault, bytes_ask_one_thing, read_ask};
pub use filling::Filler;
pub use forms::{
    attribute_of, base_of, context_of, event_of, most_of, name_of, number_of, port_of, requests_of,
    strategy_of,
};
pub use head::{BrokenRead, HEAD_BYTES, HEADERS, Head, read_head};
pub use headers::{BadLength, Repeated, body_length, text_of, value_of};
pub use heads::{Extra, head_of_reply, methods, response_head};
pub use replies::{Reply, push_number};
pub use routes::{Route, Routes};
pub use status::Status;
