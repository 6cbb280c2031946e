//! What `nbdj status` asks of a server, and how it prints that.

use front_end::StatusForm;
use httparse::Status;
use httparse::spans::{EMPTY_HEADER_SPAN, parse_response};
use metrics::BOUNDS;
use serde_json::Value;
use std::fmt::{self, Display, Formatter};
use std::io::{self, ErrorKind, IsTerminal, Read, Write};
use std::os::unix::net::UnixStream;
use std::rt::Clock;
use std::sync::Wait;
use std::time::Duration;
use std::{str, thread};

// The requests for figures, and for all to be stored.
const GET_STATUS: &str = "GET /status HTTP/1.1\r\nHost: nbdj\r\nConnection: close\r\n\r\n";

const POST_STORE: &str =
    "POST /store HTTP/1.1\r\nHost: nbdj\r\nContent-Length: 0\r\nConnection: close\r\n\r\n";

// The code of a response where another client waits for the same.
const CONFLICT: u16 = 409;

// The milliseconds from one try to the next while another client waits for that.
const PAUSE: u64 = 100;

// The most bytes of a response.
const MOST_BYTES: usize = 65_536;

// A server answers within this many seconds.
const PATIENCE: u64 = 5;

// Asks the server at this socket for its figures and prints them; the exit status.
pub fn ask<R: Wait + Clock>(rt: &HostRuntime, waits: &R, socket: &str, form: StatusForm) -> u8 {
    let printed = match form {
        StatusForm::Json => print_json(rt, socket),
        StatusForm::Lines => print_lines(rt, socket),
        StatusForm::Watch => watch(rt, waits, socket),
        StatusForm::Store => store(rt, waits, socket),
    };
    match printed {
        Ok(()) => return 0,
        Err(AskFault::Unprinted(error)) => {
            // If not even that can be written, the status alone tells.
            let _ = eprintln!(rt; "nbdj: standard output: {error}");
        }
        Err(AskFault::Unanswered(error)) => {
            tell_unanswered(rt, socket, &error);
            let _ = match form {
                StatusForm::Store => eprintln!(rt; "nbdj: not stored by {socket}"),
                _ => eprintln!(rt; "nbdj: no figures from {socket}"),
            };
        }
    }
    1
}

// Why there is nothing to print, or why it can't be printed.
#[derive(Drop)]
enum AskFault {
    Unanswered(io::Error),
    Unprinted(io::Error),
}

// What the server says, or why it says nothing.
fn answered<T>(answer: io::Result<T>) -> Result<T, AskFault> {
    answer.map_err(AskFault::Unanswered)
}

fn printed(done: io::Result<()>) -> Result<(), AskFault> {
    done.map_err(AskFault::Unprinted)
}

// Tells why a server doesn't answer.
fn tell_unanswered(rt: &HostRuntime, socket: &str, error: &io::Error) {
    let _ = match error.kind() {
        ErrorKind::NotFound => eprintln!(rt; "nbdj: {socket}: there is no such socket"),
        ErrorKind::PermissionDenied => eprintln!(rt;
            "nbdj: {socket}: only root and the server's user can connect"
        ),
        ErrorKind::ConnectionRefused => eprintln!(rt;
            "nbdj: {socket}: no server listens there any more"
        ),
        ErrorKind::WouldBlock | ErrorKind::TimedOut => eprintln!(rt;
            "nbdj: {socket}: the server doesn't answer within {PATIENCE} seconds"
        ),
        ErrorKind::Other => eprintln!(rt; "nbdj: {socket}: the server answers that it can't"),
        _ => eprintln!(rt; "nbdj: {socket}: {error}"),
    };
}

fn print_json(rt: &HostRuntime, socket: &str) -> Result<(), AskFault> {
    let body = answered(fetch(rt, socket))?;
    let mut output = io::writer(rt);
    printed(writeln!(output, "{body}"))?;
    printed(output.flush())
}

fn print_lines(rt: &HostRuntime, socket: &str) -> Result<(), AskFault> {
    let figures = answered(fetch_figures(rt, socket))?;
    let mut output = io::writer(rt);
    printed(write_page(&mut output, &figures, None))?;
    printed(output.flush())
}

// Prints the figures each second until the server or the reader is gone.
fn watch<R: Wait + Clock>(rt: &HostRuntime, waits: &R, socket: &str) -> Result<(), AskFault> {
    let is_screen = rt.stdout().is_terminal();
    let mut before = answered(fetch_figures(rt, socket))?;
    let mut output = io::writer(rt);
    for _ in waits.forever() {
        thread::sleep(waits, Duration::from_secs(1));
        let figures = answered(fetch_figures(rt, socket))?;
        printed(write_second(&mut output, &figures, &before, is_screen))?;
        before = figures;
    }
    Ok(())
}

// The figures of a second: a screen on a terminal, otherwise a line.
fn write_second<W: Write>(
    output: &mut W,
    figures: &Value,
    before: &Value,
    is_screen: bool,
) -> io::Result<()> {
    if is_screen {
        write!(output, "\x1b[H\x1b[2J")?;
        write_page(output, figures, Some(before))?;
    } else {
        write_row(output, figures, before)?;
    }
    output.flush()
}

// Has the server store all that it has accepted, and prints the number of the last write of that. However long that takes it waits.
fn store<R: Wait + Clock>(rt: &HostRuntime, waits: &R, socket: &str) -> Result<(), AskFault> {
    for _ in waits.forever() {
        let (code, body) = answered(exchange(rt, socket, POST_STORE, None))?;
        if code == CONFLICT {
            thread::sleep(waits, Duration::from_millis(PAUSE));
            continue;
        }
        let body = answered(expect_ok(code, body))?;
        let mut output = io::writer(rt);
        printed(write!(output, "stored {body}"))?;
        return printed(output.flush());
    }
    Ok(())
}

// The figures of a server, as JSON.
fn fetch(rt: &HostRuntime, socket: &str) -> io::Result<String> {
    let patience = Some(Duration::from_secs(PATIENCE));
    let (code, body) = exchange(rt, socket, GET_STATUS, patience)?;
    expect_ok(code, body)
}

fn fetch_figures(rt: &HostRuntime, socket: &str) -> io::Result<Value> {
    figures_of(rt, &fetch(rt, socket)?)
}

// The body of a response, where its code says that it is what was asked for.
fn expect_ok(code: u16, body: String) -> io::Result<String> {
    if code == 200 {
        Ok(body)
    } else {
        Err(io::Error::from(ErrorKind::Other))
    }
}

// Sends a request, and gives the code and the body of the response.
fn exchange(
    rt: &HostRuntime,
    socket: &str,
    request: &str,
    patience: Option<Duration>,
) -> io::Result<(u16, String)> {
    let stream = UnixStream::connect(rt, socket)?;
    stream.set_read_timeout(patience)?;
    stream.set_write_timeout(patience)?;
    let mut output = &stream;
    output.write_all(request.as_bytes())?;
    let mut bytes = Vec::new(rt.alloc());
    let mut input = (&stream).take(MOST_BYTES as u64);
    input.read_to_end(&mut bytes)?;
    read_response(rt, &bytes)
}

// The code and the body of a response that is whole.
fn read_response(rt: &HostRuntime, bytes: &[u8]) -> io::Result<(u16, String)> {
    let mut headers = [EMPTY_HEADER_SPAN; 16];
    if let Ok(Status::Complete(head)) = parse_response(bytes, &mut headers) {
        if let Ok(body) = str::from_utf8(bytes.get(head.len..).unwrap_or(&[])) {
            return Ok((head.code, String::from_str(rt.alloc(), body)?));
        }
    }
    Err(io::Error::from(ErrorKind::InvalidData))
}

fn figures_of(rt: &HostRuntime, body: &str) -> io::Result<Value> {
    match Value::from_str(rt.alloc(), body) {
        Ok(figures) => Ok(figures),
        Err(_) => Err(io::Error::from(ErrorKind::InvalidData)),
    }
}

// The number at this place; 0 where there is none.
fn number(figures: &Value, path: &str) -> u64 {
    figures.pointer(path).and_then(Value::as_u64).unwrap_or(0)
}

fn text<'a>(figures: &'a Value, path: &str) -> &'a str {
    figures.pointer(path).and_then(Value::as_str).unwrap_or("")
}

// How much a number has grown since the figures before.
fn growth(figures: &Value, before: &Value, path: &str) -> u64 {
    number(figures, path).saturating_sub(number(before, path))
}

// Bytes, in the largest unit of which there is one.
#[derive(Clone, Copy)]
struct Bytes(u64);

impl Display for Bytes {
    fn fmt<W: fmt::Write>(&self, f: &mut Formatter<W>) -> fmt::Result {
        let (unit, name) = match self.0 {
            0..=1023 => return write!(f, "{} B", self.0),
            1024..=1_048_575 => (1024, "KiB"),
            1_048_576..=1_073_741_823 => (1_048_576, "MiB"),
            _ => (1_073_741_824, "GiB"),
        };
        write!(f, "{}.{} {name}", self.0 / unit, self.0 % unit * 10 / unit)
    }
}

// Microseconds, in milliseconds with three digits.
#[derive(Clone, Copy)]
struct Millis(u64);

impl Display for Millis {
    fn fmt<W: fmt::Write>(&self, f: &mut Formatter<W>) -> fmt::Result {
        write!(f, "{}.{:03} ms", self.0 / 1000, self.0 % 1000)
    }
}

// A bar of 32 signs, of which the filled ones are to the others as a part is to the rest.
#[derive(Clone, Copy)]
struct Bar {
    part: u64,
    whole: u64,
}

impl Display for Bar {
    fn fmt<W: fmt::Write>(&self, f: &mut Formatter<W>) -> fmt::Result {
        let filled = self
            .part
            .saturating_mul(32)
            .checked_div(self.whole)
            .unwrap_or(0);
        write!(f, "[")?;
        for place in 0..32u64 {
            write!(f, "{}", if place < filled { '#' } else { '.' })?;
        }
        write!(f, "]")
    }
}

// A mean; 0 of nothing.
fn mean(total: u64, count: u64) -> u64 {
    total.checked_div(count).unwrap_or(0)
}

// The page for people; with the figures of a second before it tells rates too.
fn write_page<W: Write>(output: &mut W, figures: &Value, before: Option<&Value>) -> io::Result<()> {
    let uptime = number(figures, "/uptime_microseconds") / 1_000_000;
    writeln!(
        output,
        "nbdj {}, {}, up {}:{:02}:{:02}",
        text(figures, "/version"),
        text(figures, "/image"),
        uptime / 3600,
        uptime / 60 % 60,
        uptime % 60
    )?;
    writeln!(
        output,
        "serves       '{}', {} in layout {}, {}, {} workers, {} in flight, at most {} pending",
        text(figures, "/export"),
        Bytes(number(figures, "/size")),
        number(figures, "/layout"),
        text(figures, "/cache"),
        number(figures, "/workers"),
        number(figures, "/in_flight"),
        Bytes(number(figures, "/loss_bytes"))
    )?;
    writeln!(output, "image        {}", text(figures, "/path"))?;
    write_trouble(output, figures)?;
    if is_opening(figures) {
        return write_opening(output, figures);
    }
    writeln!(
        output,
        "clients      {} connected, {} since the start, {} requests in progress",
        number(figures, "/clients"),
        number(figures, "/connections"),
        number(figures, "/requests_in_progress")
    )?;
    write_requests(output, figures, before)?;
    write_storage(output, figures)?;
    write_space(output, figures)
}

// Whether the server still opens its image.
fn is_opening(figures: &Value) -> bool {
    text(figures, "/state") == "opening"
}

// The lines of an opening.
fn write_opening<W: Write>(output: &mut W, figures: &Value) -> io::Result<()> {
    writeln!(output, "opening      no client is served yet")?;
    writeln!(
        output,
        "journal      {} scanned, at most {} left",
        Bytes(number(figures, "/opening_scanned_bytes")),
        Bytes(number(figures, "/opening_unscanned_bytes"))
    )?;
    writeln!(
        output,
        "copied       {} into the image, at most {} left",
        Bytes(number(figures, "/opening_copied_bytes")),
        Bytes(number(figures, "/opening_uncopied_bytes"))
    )
}

// The lines of what is wrong, if something is.
fn write_trouble<W: Write>(output: &mut W, figures: &Value) -> io::Result<()> {
    if number(figures, "/failed") > 0 {
        writeln!(
            output,
            "failed       {}: each request gets EIO",
            text(figures, "/failure")
        )?;
    }
    if number(figures, "/disk_full") > 0 {
        writeln!(
            output,
            "disk full    what is copied waits until space is freed"
        )?;
    }
    Ok(())
}

// The lines of requests.
fn write_requests<W: Write>(
    output: &mut W,
    figures: &Value,
    before: Option<&Value>,
) -> io::Result<()> {
    write_command(output, figures, before, "read")?;
    write_command(output, figures, before, "write")?;
    write_command(output, figures, before, "flush")?;
    writeln!(
        output,
        "errors       EIO {}, ENOMEM {}, EINVAL {}, ENOSPC {}",
        number(figures, "/errors/EIO"),
        number(figures, "/errors/ENOMEM"),
        number(figures, "/errors/EINVAL"),
        number(figures, "/errors/ENOSPC")
    )
}

// The line of a command: how many there were, how long they took on average, and what was added in the last second.
fn write_command<W: Write>(
    output: &mut W,
    figures: &Value,
    before: Option<&Value>,
    command: &str,
) -> io::Result<()> {
    let count = member(figures, "/requests", command);
    let bytes = member(figures, "/request_bytes", command);
    write!(output, "{command:<12} {count}, {}", Bytes(bytes))?;
    match before {
        Some(before) => {
            let more = count.saturating_sub(member(before, "/requests", command));
            let bytes = bytes.saturating_sub(member(before, "/request_bytes", command));
            let quantiles = Quantiles::of(figures, before, command);
            writeln!(output, "; now {more}/s, {}/s{quantiles}", Bytes(bytes))
        }
        None => {
            let micros = match latency_of(figures, command) {
                Some(latency) => number(latency, "/total"),
                None => 0,
            };
            writeln!(output, ", {} each", Millis(mean(micros, count)))
        }
    }
}

// How long requests of a command took.
fn latency_of<'a>(figures: &'a Value, command: &str) -> Option<&'a Value> {
    figures
        .pointer("/request_duration_microseconds")?
        .get(command)
}

// Within how many microseconds the requests of a command were answered in the last second: half of them, 99 % of them, and all. None for a
// time beyond the last bound.
#[derive(Clone, Copy)]
struct Quantiles {
    count: u64,
    median: Option<u64>,
    most: Option<u64>,
    longest: Option<u64>,
}

impl Quantiles {
    fn of(figures: &Value, before: &Value, command: &str) -> Quantiles {
        let mut counts = [0; BOUNDS.len()];
        let mut count = 0;
        if let (Some(now), Some(then)) = (
            latency_of(figures, command),
            latency_of(before, command),
        ) {
            count = growth(now, then, "/count");
            for (at, bound) in BOUNDS.iter().enumerate() {
                if let Some(slot) = counts.get_mut(at) {
                    *slot = bucket(now, *bound).saturating_sub(bucket(then, *bound));
                }
            }
        }
        Quantiles {
            count,
            median: bound_of(&counts, count.div_ceil(2)),
            most: bound_of(&counts, count.saturating_mul(99).div_ceil(100)),
            longest: bound_of(&counts, count),
        }
    }
}

// How many requests fell into the bucket with this bound.
fn bucket(latency: &Value, bound: u64) -> u64 {
    let Some(Value::Object(buckets)) = latency.get("buckets") else {
        return 0;
    };
    buckets
        .iter()
        .find(|(key, _)| key.parse::<u64>().ok() == Some(bound))
        .and_then(|(_, count)| count.as_u64())
        .unwrap_or(0)
}

// The least bound within which `wanted` requests were answered; None if the last bound is too small for that.
fn bound_of(counts: &[u64], wanted: u64) -> Option<u64> {
    let mut sum = 0u64;
    for (bound, count) in BOUNDS.iter().zip(counts.iter()) {
        sum = sum.saturating_add(*count);
        if sum >= wanted {
            return Some(*bound);
        }
    }
    None
}

// A time that isn't passed, in milliseconds.
#[derive(Clone, Copy)]
struct AtMost(Option<u64>);

impl Display for AtMost {
    fn fmt<W: fmt::Write>(&self, f: &mut Formatter<W>) -> fmt::Result {
        match self.0 {
            Some(micros) => write!(f, "{}", Millis(micros)),
            None => f.write_str("over 1 s"),
        }
    }
}

impl Display for Quantiles {
    fn fmt<W: fmt::Write>(&self, f: &mut Formatter<W>) -> fmt::Result {
        if self.count == 0 {
            return Ok(());
        }
        write!(
            f,
            ", half within {}, 99% {}, all {}",
            AtMost(self.median),
            AtMost(self.most),
            AtMost(self.longest)
        )
    }
}

// The number that an object at this place has under this key; 0 where there is none.
fn member(figures: &Value, path: &str, key: &str) -> u64 {
    match figures.pointer(path) {
        Some(object) => object.get(key).and_then(Value::as_u64).unwrap_or(0),
        None => 0,
    }
}

// The lines of what is stored, and of what isn't.
fn write_storage<W: Write>(output: &mut W, figures: &Value) -> io::Result<()> {
    writeln!(
        output,
        "pending      {} writes, {}, the oldest {} old at most: a power cut would take them",
        number(figures, "/pending_commands"),
        Bytes(number(figures, "/pending_bytes")),
        Millis(number(figures, "/pending_age_microseconds"))
    )?;
    let groups = number(figures, "/groups");
    writeln!(
        output,
        "groups       {groups} of {} writes and {} each, stored in {} each",
        mean(number(figures, "/group_commands"), groups),
        Bytes(mean(number(figures, "/group_bytes"), groups)),
        Millis(mean(number(figures, "/group_append_microseconds"), groups))
    )?;
    let syncs = number(figures, "/syncs");
    writeln!(
        output,
        "syncs        {syncs}, {} each",
        Millis(mean(number(figures, "/sync_microseconds"), syncs))
    )?;
    let checkpoints = number(figures, "/checkpoints");
    writeln!(
        output,
        "checkpoints  {checkpoints} of {} blocks each, in {} each",
        mean(number(figures, "/checkpoint_blocks"), checkpoints),
        Millis(mean(number(figures, "/checkpoint_microseconds"), checkpoints))
    )?;
    writeln!(
        output,
        "delayed      {} writes, by {} in all; memory refused {} times",
        number(figures, "/delayed_writes"),
        Millis(number(figures, "/write_delay_microseconds")),
        number(figures, "/refused_allocations")
    )?;
    write_waits(output, figures)?;
    writeln!(
        output,
        "numbers      {} in the image, {} stored, {} accepted",
        number(figures, "/base_number"),
        number(figures, "/durable_number"),
        number(figures, "/accepted_number")
    )
}

// The line of what writes waited for before they were accepted.
fn write_waits<W: Write>(output: &mut W, figures: &Value) -> io::Result<()> {
    write!(output, "waits       ")?;
    let mut comma = "";
    for (reason, name) in [
        ("journal", "journal"),
        ("frames", "frames"),
        ("loss_bytes", "loss-bytes"),
        ("loss_seconds", "loss-seconds"),
    ] {
        write!(
            output,
            "{comma} {name} {} for {}",
            member(figures, "/waits", reason),
            Millis(member(figures, "/wait_microseconds", reason))
        )?;
        comma = ",";
    }
    writeln!(output)
}

// The lines of journal and frames.
fn write_space<W: Write>(output: &mut W, figures: &Value) -> io::Result<()> {
    let used = number(figures, "/journal_used_bytes");
    let all = used.saturating_add(number(figures, "/journal_free_bytes"));
    writeln!(
        output,
        "journal      {} {} of {}, {} of {} areas",
        Bar {
            part: used,
            whole: all
        },
        Bytes(used),
        Bytes(all),
        number(figures, "/journal_areas_in_use"),
        number(figures, "/journal_areas")
    )?;
    let dirty = number(figures, "/frames/dirty");
    let clean = number(figures, "/frames/clean");
    let free = number(figures, "/frames/free");
    writeln!(
        output,
        "frames       {} {dirty} dirty, {clean} clean, {free} free",
        Bar {
            part: dirty,
            whole: dirty.saturating_add(clean).saturating_add(free)
        }
    )
}

// The line of a second where the output is no terminal.
fn write_row<W: Write>(output: &mut W, figures: &Value, before: &Value) -> io::Result<()> {
    if is_opening(figures) {
        return write_opening_row(output, figures);
    }
    let used = number(figures, "/journal_used_bytes");
    let all = used.saturating_add(number(figures, "/journal_free_bytes"));
    writeln!(
        output,
        "reads {}/s writes {}/s flushes {}/s errors {}/s pending {} B journal {}% dirty {} durable {}{}{}{}",
        growth(figures, before, "/requests/read"),
        growth(figures, before, "/requests/write"),
        growth(figures, before, "/requests/flush"),
        error_growth(figures, before),
        number(figures, "/pending_bytes"),
        used.saturating_mul(100).checked_div(all).unwrap_or(0),
        number(figures, "/frames/dirty"),
        number(figures, "/durable_number"),
        Named("reads", Quantiles::of(figures, before, "read")),
        Named("writes", Quantiles::of(figures, before, "write")),
        Named("flushes", Quantiles::of(figures, before, "flush"))
    )
}

// The same while the image is opened.
fn write_opening_row<W: Write>(output: &mut W, figures: &Value) -> io::Result<()> {
    writeln!(
        output,
        "opening: scanned {} B, at most {} B left; copied {} B, at most {} B left",
        number(figures, "/opening_scanned_bytes"),
        number(figures, "/opening_unscanned_bytes"),
        number(figures, "/opening_copied_bytes"),
        number(figures, "/opening_uncopied_bytes")
    )
}

// What is told of a command's requests in the line of a second, if there were any.
#[derive(Clone, Copy)]
struct Named(&'static str, Quantiles);

impl Display for Named {
    fn fmt<W: fmt::Write>(&self, f: &mut Formatter<W>) -> fmt::Result {
        if self.1.count == 0 {
            return Ok(());
        }
        write!(f, "; {}{}", self.0, self.1)
    }
}

fn error_growth(figures: &Value, before: &Value) -> u64 {
    growth(figures, before, "/errors/EIO")
        .saturating_add(growth(figures, before, "/errors/ENOMEM"))
        .saturating_add(growth(figures, before, "/errors/EINVAL"))
        .saturating_add(growth(figures, before, "/errors/ENOSPC"))
}
