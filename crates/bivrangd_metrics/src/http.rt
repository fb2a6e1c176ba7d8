//! Requests for the metrics, and responses to them.

use crate::metrics::{Facts, show_metrics};
use cached_server::Machine;
use httparse::Status;
use httparse::spans::{EMPTY_HEADER_SPAN, parse_request};
use std::alloc::{AllocError, Global};

/// A request may have so many headers.
const HEADERS: usize = 64;

/// The head of a request has so many bytes at most.
pub const HEAD_BYTES: usize = 16384;

/// What a request asks for.
#[derive(Clone, Copy, PartialEq, Eq, Drop)]
pub enum Wanted {
    /// The metrics.
    Metrics,
    /// Whether the server is there.
    Health,
    /// Something that there is not.
    Other,
    /// Something by a method that does not go.
    Refused,
    /// Nothing: it is no request that is understood.
    Nothing,
}

/// A request.
#[derive(Clone, Copy, PartialEq, Eq, Drop)]
pub struct Request {
    /// What it asks for.
    pub wanted: Wanted,
    /// Whether it asks for the head of the response alone.
    pub is_head: bool,
}

impl Request {
    /// A request that is not understood.
    pub const BAD: Request = Request {
        wanted: Wanted::Nothing,
        is_head: false,
    };

    /// The request that begins with a head; `None` if there is more of that to come.
    pub fn of(head: &[u8]) -> Option<Request> {
        let mut headers = [EMPTY_HEADER_SPAN; HEADERS];
        match parse_request(head, &mut headers) {
            Ok(Status::Partial) => None,
            Ok(Status::Complete(request)) => {
                let (method, target) = (request.method.of(head), request.path.of(head));
                Some(request_by(method, path_of(target)))
            }
            Err(_) => Some(Request::BAD),
        }
    }
}

/// The request of a method and a path.
fn request_by(method: &[u8], path: &[u8]) -> Request {
    let is_head = method == b"HEAD".as_slice();
    if !is_head && method != b"GET".as_slice() {
        return Request {
            wanted: Wanted::Refused,
            is_head,
        };
    }
    Request {
        wanted: wanted_at(path),
        is_head,
    }
}

/// What there is at a path.
fn wanted_at(path: &[u8]) -> Wanted {
    if path == b"/metrics".as_slice() {
        return Wanted::Metrics;
    }
    if path == b"/healthz".as_slice() {
        return Wanted::Health;
    }
    Wanted::Other
}

/// The path of a target: what stands before a question mark.
fn path_of(target: &[u8]) -> &[u8] {
    match target.iter().position(|byte| *byte == b'?') {
        Some(end) => target.get(..end).unwrap_or(target),
        None => target,
    }
}

/// The head of the response where there is not enough memory for another one.
const POOR_HEAD: &str =
    "HTTP/1.1 503 Service Unavailable\r\nContent-Type: text/plain; charset=utf-8\r\nContent-Length: 14\r\nConnection: close\r\n\r\n";

/// The response where there is not enough memory for another one.
const POOR: &str =
    "HTTP/1.1 503 Service Unavailable\r\nContent-Type: text/plain; charset=utf-8\r\nContent-Length: 14\r\nConnection: close\r\n\r\nout of memory\n";

/// A response.
#[derive(Drop)]
pub enum Response {
    /// One that was made for a request.
    Made(String),
    /// One that is always there.
    Fixed(&'static str),
}

impl Response {
    /// The response to a request.
    pub fn to<R: Machine>(rt: &R, alloc: Global, request: Request, facts: &Facts) -> Response {
        match text_for(rt, alloc, request, facts) {
            Ok(text) => Response::Made(text),
            Err(_) => Response::poor(request.is_head),
        }
    }

    /// The response where there is not enough memory for another one, or its head alone.
    pub fn poor(is_head: bool) -> Response {
        Response::Fixed(if is_head { POOR_HEAD } else { POOR })
    }

    /// Its text.
    pub fn text(&self) -> &[u8] {
        match self {
            Response::Made(text) => text.as_bytes(),
            Response::Fixed(text) => text.as_bytes(),
        }
    }
}

/// The text of the response to a request.
fn text_for<R: Machine>(
    rt: &R,
    alloc: Global,
    request: Request,
    facts: &Facts,
) -> Result<String, AllocError> {
    let is_head = request.is_head;
    match request.wanted {
        Wanted::Metrics => {
            let page = show_metrics(rt, alloc, facts)?;
            framed(alloc, "200 OK", page.as_str(), is_head)
        }
        Wanted::Health => framed(alloc, "200 OK", "ok\n", is_head),
        Wanted::Other => framed(alloc, "404 Not Found", "not found\n", is_head),
        Wanted::Refused => framed(
            alloc,
            "405 Method Not Allowed\r\nAllow: GET, HEAD",
            "only GET and HEAD\n",
            is_head,
        ),
        Wanted::Nothing => framed(alloc, "400 Bad Request", "bad request\n", is_head),
    }
}

/// A response with a text, or its head alone.
fn framed(alloc: Global, status: &str, text: &str, is_head: bool) -> Result<String, AllocError> {
    let length = text.len();
    let body = if is_head { "" } else { text };
    format!(in alloc;
        "HTTP/1.1 {status}\r\nContent-Type: text/plain; version=0.0.4; charset=utf-8\r\nContent-Length: {length}\r\nConnection: close\r\n\r\n{body}"
    )
}
