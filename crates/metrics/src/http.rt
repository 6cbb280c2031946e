//! As much of HTTP/1.1 as it takes to answer a GET, and the POST that has all stored.

use httparse::Status;
use httparse::spans::{EMPTY_HEADER_SPAN, parse_request};
use std::alloc::{AllocError, Global};

/// The most bytes of a request's head.
pub const MOST_REQUEST_BYTES: usize = 4_096;

/// What is asked for.
#[derive(Clone, Copy, PartialEq, Eq, Debug)]
pub enum Route {
    /// The figures in Prometheus' text format.
    Metrics,
    /// The figures as JSON.
    Status,
    /// That all is stored.
    Store,
    /// A path that names nothing.
    Unknown,
    /// A method that the path doesn't have.
    BadMethod,
    /// No request of HTTP/1.x.
    Malformed,
    /// More bytes, or more fields, than are read.
    TooLong,
}

/// What the bytes that have come ask for; none while the head isn't whole.
pub fn route_of(bytes: &[u8]) -> Option<Route> {
    let mut headers = [EMPTY_HEADER_SPAN; 32];
    match parse_request(bytes, &mut headers) {
        Ok(Status::Complete(head)) => {
            let method = bytes.get(head.method.start..head.method.end).unwrap_or(b"");
            let path = bytes.get(head.path.start..head.path.end).unwrap_or(b"");
            let path = without_query(path);
            Some(match (method, path) {
                (b"GET" | b"HEAD", b"/metrics") => Route::Metrics,
                (b"GET" | b"HEAD", b"/status") => Route::Status,
                (b"POST", b"/store") => Route::Store,
                (b"GET" | b"HEAD", b"/store") => Route::BadMethod,
                (b"GET" | b"HEAD", _) => Route::Unknown,
                _ => Route::BadMethod,
            })
        }
        Ok(Status::Partial) if bytes.len() < MOST_REQUEST_BYTES => None,
        Ok(Status::Partial) => Some(Route::TooLong),
        Err(httparse::Error::TooManyHeaders) => Some(Route::TooLong),
        Err(_) => Some(Route::Malformed),
    }
}

/// Whether a request asks for the head of its response alone.
pub fn is_head(bytes: &[u8]) -> bool {
    bytes.starts_with(b"HEAD ")
}

/// The head of a response, up to the empty line after it.
pub fn head_of(response: &str) -> &str {
    match response.split_once("\r\n\r\n") {
        Some((head, _)) => response.get(..head.len() + 4).unwrap_or(response),
        None => response,
    }
}

// What stands before the question mark of a path, if it has one.
fn without_query(path: &[u8]) -> &[u8] {
    match path.iter().position(|byte| *byte == b'?') {
        Some(end) => path.get(..end).unwrap_or(path),
        None => path,
    }
}

/// A whole response with this body, after which the connection ends.
pub fn response(
    alloc: Global,
    status: &str,
    content_type: &str,
    body: &str,
) -> Result<String, AllocError> {
    format!(in alloc;
        "HTTP/1.1 {status}\r\nContent-Type: {content_type}\r\nContent-Length: {}\r\nConnection: close\r\n\r\n{body}",
        body.len()
    )
}
