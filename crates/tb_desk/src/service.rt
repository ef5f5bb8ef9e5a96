//! What a server is asked for: by a line of `serve`, or for the page.

ghost use Rattle.std.specs.Prelude.{◌≡◌};
ghost use Rattle.tb_cli.specs.Lines.{said_by};
ghost use Rattle.tb_desk.specs.Served.{page_service, service_of};

use crate::serving::Beside;
use tb_cli::Line;

/// A port of loopback, 0 for one that the system chooses, how many connections are to be served, and what is served
/// beside the desk.
#[derive(Clone, Copy)]
pub(crate) struct Service {
    pub port: u16,
    pub requests: u64,
    pub beside: Beside,
}

/// What a line asks a server for, if it is one of `serve`.
pub(crate) fn service_of(line: &Line) -> Option<Service>
    ensures { result ≡ service_of (said_by line.now) }
{
    match line {
        Line::Serve {
            db: _,
            port,
            requests,
        } => Some(Service {
            port: *port,
            requests: *requests,
            beside: Beside::Nothing,
        }),
        _ => None,
    }
}

/// What the page asks a server for: it is served until the program is ended.
pub(crate) fn page_service(port: u16) -> Service
    ensures { result ≡ page_service port }
{
    Service {
        port,
        requests: u64::MAX,
        beside: Beside::Page,
    }
}
