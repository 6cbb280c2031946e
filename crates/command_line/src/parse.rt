ghost use Rattle.std.specs.Prelude.{◌≡◌, ◌≢◌, ◌≤◌, ◌<◌, ◌*◌, true, [], All, Some, IfOk, IfSome, MatchOption, codes, map, option_map};
ghost use Rattle.clap.specs.Words.{first_of, found_of, rows_of, subcommand_of};
ghost use Rattle.clap.specs.declared.builder.value_parser.ValueParser.{ValueParser};
ghost use Rattle.command_line.specs.Commands.{nbdj_app};
ghost use Rattle.command_line.specs.Line.{fault_name, layout_number, mode_name, HasPath, IsAsked, IsInvocation, IsGiven, IsGivenSeconds, IsGivenSize, SaysArea, SaysBlocks, SaysLayout, SaysReplaces, SaysScriptRuns, SaysFlag, SaysLimits, SaysName, SaysOnFull, SaysStatusForm, SaysStatusSocket, SaysUnixMode, SaysWantedBlocks, full_name, SaysAddresses, values_given};
ghost use Rattle.command_line.specs.Size.{IsSize};
ghost use Rattle.front_end.specs.declared.plan.Address.TheVariants.{Tcp, Unix};
ghost use Rattle.image_model.specs.declared.layout.Layout.TheVariants as Layout;

use crate::commands::{FORMAT, IMPORT, SERVE, program, subcommand};
use crate::seconds::millis_of;
use crate::size::bytes_of;
use clap::error::ErrorKind;
use clap::{ArgMatches, Command, Error};
use export_model::Mode;
use front_end::{
    Address, Course, FormatOptions, ImportSizes, Invocation, LEAST_LOSS_BYTES, Limits,
    MOST_LOSS_BYTES, MOST_NAME_BYTES, OnFault, OnFull, PipeOptions, Plan, Refusal, ServeOptions,
    ServedName, StatusForm, WhenFull,
};
use image_model::{BLOCK_BYTES, Geometry, LEAST_AREA_BYTES, Layout, MOST_AREA_BYTES, MOST_BLOCKS};
use std::alloc::{AllocError, Global};

/// The fault of a `serve` that says where clients arrive though it was handed sockets, or that neither says it nor was.
pub fn address_fault(alloc: Global, has_sockets: bool) -> Error {
    serve_fault(
        alloc,
        if has_sockets {
            "--listen and --unix can't be used with the sockets of LISTEN_FDS"
        } else {
            "one of --listen <ADDR> and --unix <SOCKET> is wanted"
        },
    )
}

/// Reads a command line, the program's name first. Texts of help and version come as errors too.
///
/// An error's text says which word is at fault and why.
pub fn line<'a>(alloc: Global, words: &'a [&'a str]) -> Result<Invocation<'a>, Error>
    ensures { IfOk result (λ invocation. (modes : ValueParser) × (others : ValueParser) × IsInvocation (subcommand_of (nbdj_app modes others) (map (λ word. word.now) words.now)) invocation) }
{
    let matches = program(alloc)?.try_get_matches_from(words)?;
    match matches.subcommand() {
        Some((name, matches)) => invocation(alloc, name, matches),
        None => Err(fault(alloc, "no command")),
    }
}

fn invocation<'a>(
    alloc: Global,
    name: &str,
    matches: &ArgMatches<'a>,
) -> Result<Invocation<'a>, Error>
    ensures { IfOk result (IsInvocation (Some (name.now, rows_of (found_of matches.now)))) }
{
    let plan = asked(alloc, name, matches)?;
    let is_verbose = flag(matches, "verbose");
    let waits_for_lock = flag(matches, "wait-lock");
    let on_full = on_full(alloc, matches)?;
    Ok(Invocation {
        plan,
        is_verbose,
        waits_for_lock,
        on_full,
    })
}

// The plan that a subcommand with these values asks for.
fn asked<'a>(alloc: Global, name: &str, matches: &ArgMatches<'a>) -> Result<Plan<'a>, Error>
    ensures { IfOk result (IsAsked (Some (name.now, rows_of (found_of matches.now)))) }
{
    match name {
        "format" => format(alloc, matches),
        "serve" => serve(alloc, matches),
        "status" => status(alloc, matches),
        "pipe" => pipe(alloc, matches),
        "recover" => Ok(Plan::Recover {
            path: path(alloc, matches)?,
            is_json: flag(matches, "json"),
        }),
        "upgrade" => Ok(Plan::Upgrade {
            path: path(alloc, matches)?,
        }),
        "check" => Ok(Plan::Check {
            path: path(alloc, matches)?,
            is_json: flag(matches, "json"),
            is_deep: flag(matches, "deep"),
        }),
        "rehearse" => Ok(Plan::Rehearse {
            course: course(alloc, matches)?,
        }),
        "import" => import(alloc, matches),
        "export" => Ok(Plan::Export {
            path: path(alloc, matches)?,
            target: word(alloc, matches, "target")?,
            replaces: flag(matches, "force"),
        }),
        _ => Err(fault(alloc, "no such command")),
    }
}

fn format<'a>(alloc: Global, matches: &ArgMatches<'a>) -> Result<Plan<'a>, Error>
    ensures { IfOk result (IsAsked (Some (codes "format", rows_of (found_of matches.now)))) }
{
    let path = path(alloc, matches)?;
    let blocks = blocks(alloc, matches)?;
    let area = area(alloc, matches)?;
    let preallocates = flag(matches, "preallocate");
    let replaces = replaces(matches);
    let Some(geometry) = Geometry::new(blocks, area) else {
        return Err(format_fault(alloc, "--area: the bytes of an area are a multiple of 8192"));
    };
    match with_layout(alloc, matches, geometry)? {
        Some(geometry) => Ok(Plan::Format {
            path,
            geometry,
            options: FormatOptions {
                preallocates,
                replaces,
            },
        }),
        None => Ok(Plan::Refuse {
            path,
            refusal: Refusal::AreaSmall,
        }),
    }
}

fn import<'a>(alloc: Global, matches: &ArgMatches<'a>) -> Result<Plan<'a>, Error>
    ensures { IfOk result (IsAsked (Some (codes "import", rows_of (found_of matches.now)))) }
{
    let source = word(alloc, matches, "source")?;
    let image = path(alloc, matches)?;
    let blocks = wanted_blocks(alloc, matches)?;
    if source == "-" && blocks.is_none() {
        return Err(import_fault(alloc, "--size: it is wanted with standard input"));
    }
    let bytes = area(alloc, matches)?;
    let options = FormatOptions {
        preallocates: flag(matches, "preallocate"),
        replaces: flag(matches, "force"),
    };
    let Some(geometry) = Geometry::new(1, bytes) else {
        return Err(import_fault(alloc, "--area: the bytes of an area are a multiple of 8192"));
    };
    let refusal = Refusal::AreaSmall;
    let refused = Plan::Refuse {
        path: image,
        refusal,
    };
    match with_layout(alloc, matches, geometry)? {
        Some(geometry) => Ok(Plan::Import {
            source,
            path: image,
            sizes: ImportSizes {
                blocks,
                area: bytes,
                layout: geometry.layout,
            },
            options,
        }),
        None => Ok(refused),
    }
}

// The blocks of an image whose source may say how many there are.
fn wanted_blocks(alloc: Global, matches: &ArgMatches<'_>) -> Result<Option<u64>, Error>
    ensures { IfOk result (SaysWantedBlocks (rows_of (found_of matches.now))) }
{
    match text(matches, "size") {
        None => Ok(None),
        Some(size) => Ok(Some(whole_blocks(alloc, size)?)),
    }
}

// Whether data that are there may be lost: with --blocks always.
fn replaces(matches: &ArgMatches<'_>) -> bool
    ensures { SaysReplaces (rows_of (found_of matches.now)) result }
{
    match text(matches, "blocks") {
        Some(_) => true,
        None => flag(matches, "force"),
    }
}

// The same sizes in the layout that is asked for; None if its areas would be too small. If no layout is asked for, it is layout 2
// with --size, if its areas are large enough, and layout 1 with --blocks, whose bytes are those of every nbdj.
fn with_layout(
    alloc: Global,
    matches: &ArgMatches<'_>,
    geometry: Geometry,
) -> Result<Option<Geometry>, Error>
    requires { geometry.layout ≡ Layout.One }
    ensures { IfOk result (λ laid. MatchOption laid (IsGiven (rows_of (found_of matches.now)) (codes "layout") 2 × (geometry.area < 4194304))
        (λ laid. (laid.blocks ≡ geometry.blocks) × (laid.area ≡ geometry.area) × SaysLayout (rows_of (found_of matches.now)) laid.area laid.layout)) }
{
    let halved = geometry.with_layout_two();
    match (text(matches, "layout"), text(matches, "blocks")) {
        (Some(_), _) => match layout(alloc, matches)? {
            Layout::One => Ok(Some(geometry)),
            Layout::Two => Ok(halved),
        },
        (None, Some(_)) => Ok(Some(geometry)),
        (None, None) => match halved {
            Some(halved) => Ok(Some(halved)),
            None => Ok(Some(geometry)),
        },
    }
}

fn layout(alloc: Global, matches: &ArgMatches<'_>) -> Result<Layout, Error>
    ensures { IfOk result (λ layout. IsGiven (rows_of (found_of matches.now)) (codes "layout") (layout_number layout)) }
{
    match number(alloc, matches, "layout")? {
        1 => Ok(Layout::One),
        2 => Ok(Layout::Two),
        _ => Err(format_fault(alloc, "--layout: the layout is 1 or 2")),
    }
}

// The blocks of the image, as one of two options says.
fn blocks(alloc: Global, matches: &ArgMatches<'_>) -> Result<u64, Error>
    ensures { IfOk result (SaysBlocks (rows_of (found_of matches.now))) }
{
    match (text(matches, "size"), text(matches, "blocks")) {
        (Some(size), None) => whole_blocks(alloc, size),
        (None, Some(_)) => number(alloc, matches, "blocks"),
        _ => Err(format_fault(alloc, "one of --size and --blocks is wanted")),
    }
}

// The blocks that a size has.
fn whole_blocks(alloc: Global, size: &str) -> Result<u64, Error>
    ensures { IfOk result (λ blocks. IsSize size.now (blocks * 4096)) }
{
    let bytes = bytes_within(
        alloc,
        "--size <SIZE>",
        size,
        BLOCK_BYTES,
        MOST_BLOCKS * BLOCK_BYTES,
    )?;
    if bytes % BLOCK_BYTES != 0 {
        return Err(format_fault(
            alloc,
            "--size: the bytes of an image are a multiple of 4096",
        ));
    }
    Ok(bytes / BLOCK_BYTES)
}

// The bytes of each area where none are given.
const USUAL_AREA_BYTES: u32 = 67_108_864;

// The bytes of an area.
fn area(alloc: Global, matches: &ArgMatches<'_>) -> Result<u32, Error>
    ensures { IfOk result (SaysArea (rows_of (found_of matches.now))) }
{
    match (text(matches, "area"), text(matches, "blocks")) {
        (Some(area), _) => area_bytes(alloc, area),
        (None, None) => Ok(USUAL_AREA_BYTES),
        (None, Some(_)) => Err(format_fault(alloc, "--area: it is wanted beside --blocks")),
    }
}

// The bytes of an area, as a size says.
fn area_bytes(alloc: Global, size: &str) -> Result<u32, Error>
    ensures { IfOk result (IsSize size.now) }
{
    let least = u64::from(LEAST_AREA_BYTES);
    let most = u64::from(MOST_AREA_BYTES);
    let bytes = bytes_within(alloc, "--area <BYTES>", size, least, most)?;
    Ok(bytes as u32)
}

// The bytes that the size of an option says, within bounds.
fn bytes_within(
    alloc: Global,
    option: &str,
    size: &str,
    least: u64,
    most: u64,
) -> Result<u64, Error>
    ensures said { IfOk result (IsSize size.now) }
    ensures within { IfOk result (λ bytes. bytes ≤ most) }
{
    let Some(bytes) = bytes_of(size) else {
        return Err(no_size(alloc, option, size));
    };
    if bytes < least || bytes > most {
        return Err(beyond(alloc, option, size, least, most));
    }
    Ok(bytes)
}

// The fault of a value that is no size.
fn no_size(alloc: Global, option: &str, size: &str) -> Error {
    let message = format!(in alloc;
        "invalid value '{size}' for '{option}': a size is a number of bytes that fits 64 bits, or one with K, M, G or T behind it"
    );
    size_fault(alloc, message)
}

// The fault of a size that isn't within its bounds.
fn beyond(alloc: Global, option: &str, size: &str, least: u64, most: u64) -> Error {
    let message = format!(in alloc;
        "invalid value '{size}' for '{option}': {size} is not in {least}..={most}"
    );
    size_fault(alloc, message)
}

// The fault that this text tells, if there was memory for it.
fn size_fault(alloc: Global, message: Result<String, AllocError>) -> Error {
    match message {
        Ok(message) => format_fault(alloc, message.as_str()),
        Err(error) => Error::from(error),
    }
}

fn pipe<'a>(alloc: Global, matches: &ArgMatches<'a>) -> Result<Plan<'a>, Error>
    ensures { IfOk result (IsAsked (Some (codes "pipe", rows_of (found_of matches.now)))) }
{
    let path = path(alloc, matches)?;
    let frames = number(alloc, matches, "frames")?;
    let mode = mode(alloc, matches)?;
    match PipeOptions::new(frames, mode) {
        Some(options) => Ok(Plan::Pipe { path, options }),
        None => Err(fault(alloc, "--frames: the frames are 512 to 65536")),
    }
}

fn serve<'a>(alloc: Global, matches: &ArgMatches<'a>) -> Result<Plan<'a>, Error>
    ensures { IfOk result (IsAsked (Some (codes "serve", rows_of (found_of matches.now)))) }
{
    let path = path(alloc, matches)?;
    let addresses = addresses(alloc, matches)?;
    let workers = number(alloc, matches, "workers")?;
    let in_flight = number(alloc, matches, "in-flight")?;
    let frames = number(alloc, matches, "frames")?;
    let mode = mode(alloc, matches)?;
    let limits = limits(alloc, matches)?;
    let on_fault = on_fault(alloc, matches)?;
    let when_full = when_full(alloc, matches)?;
    let until_eof = flag(matches, "until-eof");
    let status = status_socket(alloc, matches)?;
    let name = served_name(alloc, matches)?;
    match ServeOptions::new(
        frames, mode, workers, in_flight, limits, on_fault, when_full, until_eof,
    ) {
        Some(options) => Ok(Plan::Serve {
            path,
            addresses,
            status,
            name,
            options,
        }),
        None => Err(serve_fault(
            alloc,
            "--frames: the frames are 512 to 65536, the workers and the requests in flight 1 to 16, and the handshake takes 1 second or more",
        )),
    }
}

// The socket at which a server tells its figures, if it does.
fn status_socket<'a>(alloc: Global, matches: &ArgMatches<'a>) -> Result<Option<&'a str>, Error>
    ensures { IfOk result (λ path. SaysStatusSocket (rows_of (found_of matches.now)) (option_map (λ text. text.now) path)) }
{
    match text(matches, "status") {
        None => Ok(None),
        Some("") => Err(serve_fault(
            alloc,
            "invalid value '' for '--status <SOCKET>': the path of a socket isn't empty",
        )),
        Some(path) => Ok(Some(path)),
    }
}

// The name by which clients ask for the export.
fn served_name<'a>(alloc: Global, matches: &ArgMatches<'a>) -> Result<ServedName<'a>, Error>
    ensures { IfOk result (SaysName (rows_of (found_of matches.now))) }
{
    let text = match text(matches, "export-name") {
        Some(text) => text,
        None => "",
    };
    if text.len() > MOST_NAME_BYTES {
        return Err(serve_fault(
            alloc,
            "invalid value for '--export-name <NAME>': it has more than 4075 bytes",
        ));
    }
    Ok(ServedName {
        text,
        is_fresh: flag(matches, "fresh-name"),
    })
}

fn status<'a>(alloc: Global, matches: &ArgMatches<'a>) -> Result<Plan<'a>, Error>
    ensures { IfOk result (IsAsked (Some (codes "status", rows_of (found_of matches.now)))) }
{
    let form = status_form(alloc, matches)?;
    match text(matches, "socket") {
        Some(socket) => Ok(Plan::Status { socket, form }),
        None => Err(fault(alloc, "no SOCKET")),
    }
}

// What is asked for, as at most one of three options says.
fn status_form(alloc: Global, matches: &ArgMatches<'_>) -> Result<StatusForm, Error>
    ensures { IfOk result (SaysStatusForm (rows_of (found_of matches.now))) }
{
    let json = flag(matches, "json");
    let watch = flag(matches, "watch");
    let store = flag(matches, "store");
    match (json, watch, store) {
        (false, false, false) => Ok(StatusForm::Lines),
        (true, false, false) => Ok(StatusForm::Json),
        (false, true, false) => Ok(StatusForm::Watch),
        (false, false, true) => Ok(StatusForm::Store),
        _ => Err(fault(alloc, "one of --json, --watch and --store at a time")),
    }
}

// How many sessions there are, and how long each waits.
fn limits(alloc: Global, matches: &ArgMatches<'_>) -> Result<Limits, Error>
    ensures { IfOk result (SaysLimits (rows_of (found_of matches.now))) }
{
    let sessions = number(alloc, matches, "sessions")?;
    let handshake_seconds = number(alloc, matches, "handshake-timeout")?;
    let idle_seconds = number(alloc, matches, "idle-timeout")?;
    let keepalive_seconds = number(alloc, matches, "keepalive")?;
    let flush_millis = millis(alloc, matches, "flush-interval")?;
    let loss_bytes = loss_bytes(alloc, matches)?;
    let loss_millis = millis(alloc, matches, "loss-seconds")?;
    let device_millis = millis(alloc, matches, "device-timeout")?;
    let check_millis = millis(alloc, matches, "lock-check")?;
    Ok(Limits {
        sessions,
        handshake_seconds,
        idle_seconds,
        keepalive_seconds,
        flush_millis,
        loss_bytes,
        loss_millis,
        device_millis,
        check_millis,
    })
}

// A day.
const MOST_MILLIS: u64 = 86_400_000;

// The milliseconds that an option says in seconds.
fn millis(alloc: Global, matches: &ArgMatches<'_>, name: &str) -> Result<u64, Error>
    ensures { IfOk result (IsGivenSeconds (rows_of (found_of matches.now)) name.now) }
{
    if let Some(seconds) = text(matches, name) {
        if let Some(millis) = millis_of(seconds) {
            if millis <= MOST_MILLIS {
                return Ok(millis);
            }
        }
    }
    Err(no_seconds(alloc, name, text(matches, name).unwrap_or("")))
}

// The fault of a value that is no number of seconds up to a day.
fn no_seconds(alloc: Global, name: &str, value: &str) -> Error {
    let message = format!(in alloc;
        "invalid value '{value}' for '--{name} <SECONDS>': it is 0 to 86400, with at most three digits behind a point"
    );
    match message {
        Ok(message) => serve_fault(alloc, message.as_str()),
        Err(error) => Error::from(error),
    }
}

// The fault of an option's value that isn't what it may be.
fn wrong_value(alloc: Global, option: &str, value: &str, wanted: &str) -> Error {
    match format!(in alloc; "invalid value '{value}' for '{option}': it is {wanted}") {
        Ok(message) => serve_fault(alloc, message.as_str()),
        Err(error) => Error::from(error),
    }
}

// How many bytes of answered writes a power cut may take.
fn loss_bytes(alloc: Global, matches: &ArgMatches<'_>) -> Result<u64, Error>
    ensures { IfOk result (IsGivenSize (rows_of (found_of matches.now)) (codes "loss-bytes")) }
{
    if let Some(size) = text(matches, "loss-bytes") {
        if let Some(bytes) = bytes_of(size) {
            if bytes >= LEAST_LOSS_BYTES && bytes <= MOST_LOSS_BYTES {
                return Ok(bytes);
            }
        }
    }
    Err(wrong_value(
        alloc,
        "--loss-bytes <BYTES>",
        text(matches, "loss-bytes").unwrap_or(""),
        "2M to 64M, a number of bytes or one with K or M behind it",
    ))
}

// The addresses and sockets at which clients arrive, in this order.
fn addresses<'a>(alloc: Global, matches: &ArgMatches<'a>) -> Result<Vec<Address<'a>>, Error>
    ensures { IfOk result (λ addresses. SaysAddresses (rows_of (found_of matches.now)) addresses.items) }
{
    let mode = unix_mode(alloc, matches)?;
    let sockets = texts(alloc, matches, "unix")?;
    if !have_names(&sockets) {
        return Err(serve_fault(
            alloc,
            "invalid value '' for '--unix <SOCKET>': the path of a socket isn't empty",
        ));
    }
    let listens = texts(alloc, matches, "listen")?;
    if let Some(address) = listens.iter().find(|address| !is_address(address)) {
        return Err(wrong_value(
            alloc,
            "--listen <ADDR>",
            address,
            "a host or an IP address, and maybe a port from 0 to 65535 after a colon",
        ));
    }
    let mut addresses = tcp_addresses(alloc, &listens)?;
    let unix = unix_addresses(alloc, &sockets, mode)?;
    addresses.extend_from_slice(&unix)?;
    Ok(addresses)
}

// Whether a text can be an address: a host that isn't a number alone, which would be another host than most people mean, and maybe a
// port after a colon.
fn is_address(address: &str) -> bool {
    let (host, port) = split_port(address);
    if host.is_empty() || host.bytes().all(|byte| byte.is_ascii_digit()) {
        return false;
    }
    match port {
        Some(port) => !port.starts_with('+') && port.parse::<u16>().is_ok(),
        None => true,
    }
}

// The host of an address, and its port, if it has one.
fn split_port(address: &str) -> (&str, Option<&str>) {
    if let Some(inside) = address.strip_prefix('[') {
        return match inside.split_once(']') {
            Some((host, "")) => (host, None),
            Some((host, rest)) => (host, Some(rest.strip_prefix(':').unwrap_or(""))),
            None => ("", None),
        };
    }
    match address.split_once(':') {
        Some((host, port)) if !port.contains(':') => (host, Some(port)),
        _ => (address, None),
    }
}

// Whether no path is empty.
fn have_names(sockets: &[&str]) -> bool
    ensures { result ≡ true → All (λ path. path.now ≢ []) sockets.now }
{
    sockets.iter().all(|path| !path.is_empty())
}

fn tcp_addresses<'a>(alloc: Global, listens: &[&'a str]) -> Result<Vec<Address<'a>>, AllocError>
    ensures { IfOk result (λ made. made.items ≡ map (λ address. Tcp address) listens.now) }
{
    listens
        .iter()
        .map(|address| Address::Tcp(*address))
        .collect(alloc)
}

fn unix_addresses<'a>(
    alloc: Global,
    sockets: &[&'a str],
    mode: Option<u32>,
) -> Result<Vec<Address<'a>>, AllocError>
    ensures { IfOk result (λ made. made.items ≡ map (λ path. Unix path mode) sockets.now) }
{
    sockets
        .iter()
        .map(|path| Address::Unix { path: *path, mode })
        .collect(alloc)
}

// The bits that a mode of a file has for its owner, its group and others.
const ALL_MODE_BITS: u32 = 0o777;

// The mode of a Unix socket's file, which says who may connect, if it is given.
fn unix_mode(alloc: Global, matches: &ArgMatches<'_>) -> Result<Option<u32>, Error>
    ensures { IfOk result (SaysUnixMode (rows_of (found_of matches.now))) }
{
    let Some(octal) = text(matches, "unix-mode") else {
        return Ok(None);
    };
    match u32::from_str_radix(octal, 8) {
        Ok(mode) if mode <= ALL_MODE_BITS => Ok(Some(mode)),
        _ => Err(wrong_value(
            alloc,
            "--unix-mode <MODE>",
            octal,
            "a number of octal digits up to 777",
        )),
    }
}

fn on_fault(alloc: Global, matches: &ArgMatches<'_>) -> Result<OnFault, Error>
    ensures { IfOk result (λ way. first_of (codes "on-fault") (rows_of (found_of matches.now)) ≡ Some (fault_name way)) }
{
    match text(matches, "on-fault") {
        Some("exit") => Ok(OnFault::Exit),
        Some("stay") => Ok(OnFault::Stay),
        way => Err(wrong_value(alloc, "--on-fault <WAY>", way.unwrap_or(""), "exit or stay")),
    }
}

// What becomes of a write for which the disk has no space. Only a server waits.
fn on_full(alloc: Global, matches: &ArgMatches<'_>) -> Result<OnFull, Error>
    ensures { IfOk result (SaysOnFull (rows_of (found_of matches.now))) }
{
    match text(matches, "on-full") {
        Some("wait") => Ok(OnFull::Wait),
        Some("stop") | None => Ok(OnFull::Stop),
        Some(way) => Err(wrong_value(alloc, "--on-full <WAY>", way, "wait or stop")),
    }
}

fn when_full(alloc: Global, matches: &ArgMatches<'_>) -> Result<WhenFull, Error>
    ensures { IfOk result (λ way. first_of (codes "when-full") (rows_of (found_of matches.now)) ≡ Some (full_name way)) }
{
    match text(matches, "when-full") {
        Some("wait") => Ok(WhenFull::Wait),
        Some("refuse") => Ok(WhenFull::Refuse),
        way => Err(wrong_value(
            alloc,
            "--when-full <WAY>",
            way.unwrap_or(""),
            "wait or refuse",
        )),
    }
}

fn mode(alloc: Global, matches: &ArgMatches<'_>) -> Result<Mode, Error>
    ensures { IfOk result (λ mode. first_of (codes "cache") (rows_of (found_of matches.now)) ≡ Some (mode_name mode)) }
{
    match text(matches, "cache") {
        Some("writeback") => Ok(Mode::Writeback),
        Some("writethrough") => Ok(Mode::Writethrough),
        Some("ordered") => Ok(Mode::Ordered),
        _ => Err(fault(
            alloc,
            "--cache: the mode is writeback, writethrough or ordered",
        )),
    }
}

// How a script is run, as at most one of two options says.
fn course(alloc: Global, matches: &ArgMatches<'_>) -> Result<Course, Error>
    ensures { IfOk result (SaysScriptRuns (rows_of (found_of matches.now))) }
{
    match (flag(matches, "sweep"), flag(matches, "faults")) {
        (false, false) => Ok(Course::Once),
        (true, false) => Ok(Course::Sweep),
        (false, true) => Ok(Course::Faults),
        (true, true) => Err(fault(alloc, "one of --sweep and --faults at a time")),
    }
}

fn path<'a>(alloc: Global, matches: &ArgMatches<'a>) -> Result<&'a str, Error>
    ensures { IfOk result (λ path. HasPath (rows_of (found_of matches.now)) path.now) }
{
    match text(matches, "path") {
        Some(path) => Ok(path),
        None => Err(fault(alloc, "no PATH")),
    }
}

// The text of another word that is wanted.
fn word<'a>(alloc: Global, matches: &ArgMatches<'a>, name: &str) -> Result<&'a str, Error>
    ensures { IfOk result (λ word. first_of name.now (rows_of (found_of matches.now)) ≡ Some word.now) }
{
    match text(matches, name) {
        Some(word) => Ok(word),
        None => Err(fault(alloc, "a word is missing")),
    }
}

// The text that an argument was given.
fn text<'a>(matches: &ArgMatches<'a>, name: &str) -> Option<&'a str>
    ensures { first_of name.now (rows_of (found_of matches.now)) ≡ option_map (λ text. text.now) result }
{
    matches.get_str(name)
}

// The texts that an option was given, in order.
fn texts<'a>(
    alloc: Global,
    matches: &ArgMatches<'a>,
    name: &str,
) -> Result<Vec<&'a str>, AllocError>
    ensures { IfOk result (λ texts. map (λ text. text.now) texts.items ≡ values_given name.now (rows_of (found_of matches.now))) }
{
    match matches.get_strs(name) {
        Some(texts) => Vec::from_slice(alloc, texts),
        None => Ok(Vec::new(alloc)),
    }
}

// The number that an option was given.
fn number(alloc: Global, matches: &ArgMatches<'_>, name: &str) -> Result<u64, Error>
    ensures { IfOk result (IsGiven (rows_of (found_of matches.now)) name.now) }
{
    match matches.get_one::<u64>(name) {
        Some(number) => Ok(number),
        None => Err(fault(alloc, "no number")),
    }
}

// Whether an option without a value was given.
fn flag(matches: &ArgMatches<'_>, name: &str) -> bool
    ensures { SaysFlag (rows_of (found_of matches.now)) name.now result }
{
    matches.get_flag(name)
}

// A fault of what the words of `format` mean, told as one of the words themselves.
fn format_fault(alloc: Global, message: &str) -> Error {
    fault_of(subcommand(alloc, &FORMAT), message)
}

// The like of `import`.
fn import_fault(alloc: Global, message: &str) -> Error {
    fault_of(subcommand(alloc, &IMPORT), message)
}

// The like of `serve`.
fn serve_fault(alloc: Global, message: &str) -> Error {
    fault_of(subcommand(alloc, &SERVE), message)
}

// The like of another subcommand's words.
fn fault(alloc: Global, message: &str) -> Error {
    fault_of(program(alloc), message)
}

fn fault_of(command: Result<Command<'_>, AllocError>, message: &str) -> Error {
    let Ok(mut command) = command else {
        return Error::from(AllocError);
    };
    match command.error(ErrorKind::ValueValidation, message) {
        Ok(error) => error,
        Err(error) => Error::from(error),
    }
}
