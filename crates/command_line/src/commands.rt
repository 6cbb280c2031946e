ghost use Rattle.std.specs.Prelude.{◌≡◌, false, Some, IfOk, IsOkAnd};
ghost use Rattle.clap.specs.Words.{app_of, new_app, rule_of, with_rule, with_subcommand};
ghost use Rattle.command_line.specs.Commands.{bare_app, nbdj_app};
ghost use Rattle.clap.specs.declared.builder.action.ArgAction.TheVariants.{SetTrue};
ghost use Rattle.clap.specs.declared.builder.value_parser.ValueParser.{ValueParser};
ghost use Rattle.command_line.specs.inner.Rows.{app_of_row, rule_of_form, rule_of_row};

use clap::builder::ValueParser;
use clap::{Arg, ArgAction, Command};
use front_end::{LEAST_FRAMES, MOST_FRAMES, MOST_IN_FLIGHT, MOST_WORKERS, VERSION};
use std::alloc::{AllocError, Global};

// The whole command line; the modes and the others are what `--cache` takes, in `pipe` and in `serve`.
pub fn program<'a>(alloc: Global) -> Result<Command<'a>, AllocError>
    ensures { IfOk result (λ command. (modes : ValueParser) × (others : ValueParser) × (app_of command ≡ nbdj_app modes others)) }
{
    let command = add_subcommand(alloc, Ok(new_program(alloc)), &FORMAT);
    let command = add_subcommand(alloc, command, &SERVE);
    let command = add_subcommand(alloc, command, &STATUS);
    let command = add_subcommand(alloc, command, &PIPE);
    let command = add_subcommand(alloc, command, &RECOVER);
    let command = add_subcommand(alloc, command, &UPGRADE);
    let command = add_subcommand(alloc, command, &CHECK);
    let command = add_subcommand(alloc, command, &REHEARSE);
    let command = add_subcommand(alloc, command, &IMPORT);
    add_subcommand(alloc, command, &EXPORT)
}

// The command with a subcommand, where there is memory for it.
fn add_subcommand<'a>(
    alloc: Global,
    command: Result<Command<'a>, AllocError>,
    row: &SubcommandRow<'a>,
) -> Result<Command<'a>, AllocError>
    ensures { IfOk result (λ whole. IsOkAnd command.entry (λ above. app_of whole ≡ with_subcommand (app_of above) (app_of_row row.now).top)) }
{
    command?.subcommand(subcommand(alloc, row)?)
}

// The program without its subcommands.
fn new_program<'a>(alloc: Global) -> Command<'a>
    ensures { app_of result ≡ bare_app }
{
    Command::new(alloc, "nbdj")
        .version(VERSION)
        .propagate_version(true)
        .about("Network Block Device export server over a journalled image")
        .after_help(
            "Example: nbdj format d.img --size 10G && nbdj serve d.img --listen 127.0.0.1:10809",
        )
        .subcommand_required(true)
        .arg_required_else_help(true)
}

// What a subcommand is: what its help says, and its arguments.
pub struct SubcommandRow<'a> {
    name: &'a str,
    about: &'a str,
    after_help: &'a str,
    // What stands in place of the usage that clap would tell.
    usage: Option<&'a str>,
    arguments: &'a [ArgumentRow<'a>],
}

impl<'a> SubcommandRow<'a> {
    // How the option of this name is given; None if there is no such option.
    pub fn form_of(&self, name: &str) -> Option<&Form<'a>> {
        let row = self.arguments.iter().find(|row| row.name == name)?;
        match &row.form {
            Form::Word(_) => None,
            form => Some(form),
        }
    }
}

// The subcommand of this name.
pub fn row_of(name: &str) -> Option<&'static SubcommandRow<'static>> {
    match name {
        "format" => Some(&FORMAT),
        "serve" => Some(&SERVE),
        "status" => Some(&STATUS),
        "pipe" => Some(&PIPE),
        "recover" => Some(&RECOVER),
        "upgrade" => Some(&UPGRADE),
        "check" => Some(&CHECK),
        "rehearse" => Some(&REHEARSE),
        _ => None,
    }
}

pub fn subcommand<'a>(alloc: Global, row: &SubcommandRow<'a>) -> Result<Command<'a>, AllocError>
    ensures { IfOk result (λ command. app_of command ≡ app_of_row row.now) }
{
    let mut command = new_subcommand(alloc, row);
    for argument in row.arguments {
        command = with_argument(alloc, command, argument)?;
    }
    Ok(command)
}

// The command with the argument of this row too.
fn with_argument<'a>(
    alloc: Global,
    command: Command<'a>,
    row: &ArgumentRow<'a>,
) -> Result<Command<'a>, AllocError>
    ensures { IfOk result (λ whole. app_of whole ≡ with_rule (app_of command.entry) (rule_of_row row.now)) }
{
    command.arg(argument_of(alloc, row)?)
}

// A subcommand without its arguments.
fn new_subcommand<'a>(alloc: Global, row: &SubcommandRow<'a>) -> Command<'a>
    ensures { app_of result ≡ new_app row.now.name.now }
{
    let command = Command::new(alloc, row.name)
        .about(row.about)
        .after_help(row.after_help);
    match row.usage {
        Some(usage) => command.override_usage(usage),
        None => command,
    }
}

// What an argument is.
pub struct ArgumentRow<'a> {
    name: &'a str,
    form: Form<'a>,
    tie: Tie<'a>,
    help: &'a str,
}

// How an argument is given.
pub enum Form<'a> {
    // A word that is no option, and is wanted.
    Word(&'a str),
    // `--NAME`.
    Flag,
    // `--NAME`, or a hyphen and this letter.
    ShortFlag(char),
    // `--NAME VALUE`, of any value.
    Text(&'a str),
    // The same, which may be given more than once.
    Texts(&'a str),
    // The like of a text, with what stands for it where it is left out.
    TextOr(&'a str, &'a str),
    // `--NAME VALUE`, of these values.
    Value(&'a str, ValueParser<'a>),
    // The same, with what stands for it where it is left out.
    ValueOr(&'a str, &'a str, ValueParser<'a>),
}

// What an argument says of another one.
pub enum Tie<'a> {
    None,
    // Not both are given.
    Excludes(&'a str),
    // One of the two is given.
    OneOf(&'a str),
    // The other one is given too.
    Requires(&'a str),
}

fn argument_of<'a>(alloc: Global, row: &ArgumentRow<'a>) -> Result<Arg<'a>, AllocError>
    ensures { IfOk result (λ arg. (arg.global ≡ false) × (rule_of arg ≡ rule_of_row row.now)) }
{
    let argument = new_argument(alloc, row);
    match row.tie {
        Tie::None => Ok(argument),
        Tie::Excludes(other) => argument.conflicts_with(other),
        Tie::OneOf(other) => argument
            .conflicts_with(other)?
            .required_unless_present(other),
        Tie::Requires(other) => argument.requires_arg(other),
    }
}

// An argument without what it says of another one.
fn new_argument<'a>(alloc: Global, row: &ArgumentRow<'a>) -> Arg<'a>
    ensures local { result.global ≡ false }
    ensures rule { rule_of result ≡ rule_of_form row.now.name.now row.now.form }
{
    let argument = Arg::new(alloc, row.name).help(row.help);
    match row.form {
        Form::Word(value_name) => argument.value_name(value_name).required(true),
        Form::Flag => flag(argument, row.name),
        Form::ShortFlag(letter) => flag(argument, row.name).short(letter),
        Form::Text(value_name) => option(argument, row.name, value_name),
        Form::Texts(value_name) => {
            option(argument, row.name, value_name).action(ArgAction::Append)
        }
        Form::TextOr(value_name, usual) => {
            option(argument, row.name, value_name).default_value(usual)
        }
        Form::Value(value_name, values) => {
            option(argument, row.name, value_name).value_parser(values)
        }
        Form::ValueOr(value_name, usual, values) => option(argument, row.name, value_name)
            .default_value(usual)
            .value_parser(values),
    }
}

// The argument as an option without a value.
fn flag<'a>(argument: Arg<'a>, name: &'a str) -> Arg<'a>
    ensures { result ≡ record argument.entry { long = Some name.entry; action = Some SetTrue } }
{
    argument.long(name).action(ArgAction::SetTrue)
}

// The argument as an option with a value, which its help names so.
fn option<'a>(argument: Arg<'a>, name: &'a str, value_name: &'a str) -> Arg<'a>
    ensures local { result.global ≡ argument.entry.global }
    ensures rule { rule_of result ≡ record (rule_of argument.entry) { long = Some name.now; value_names = 1 } }
{
    argument.long(name).value_name(value_name)
}

const PATH: ArgumentRow<'static> = ArgumentRow {
    name: "path",
    form: Form::Word("PATH"),
    tie: Tie::None,
    help: "The file or block device that holds the image",
};

const FRAMES: ArgumentRow<'static> = ArgumentRow {
    name: "frames",
    form: Form::ValueOr(
        "F",
        "4096",
        ValueParser::Unsigned(LEAST_FRAMES, MOST_FRAMES),
    ),
    tie: Tie::None,
    help: "Blocks that may be written and not yet copied into the image: 512 to 65536",
};

const CACHE: ArgumentRow<'static> = ArgumentRow {
    name: "cache",
    form: Form::ValueOr("MODE", "writeback", CACHE_MODES),
    tie: Tie::None,
    help: "`writeback`: a write is answered at once, a FLUSH once earlier writes are durable; `writethrough`: a write is answered once it is durable; `ordered`: a FLUSH does not make anything durable, and is answered at once",
};

// The modes of `--cache`.
const CACHE_MODES: ValueParser<'static> = ValueParser::Names(&[
    "writeback",
    "writethrough",
    "ordered",
]);

const VERBOSE: ArgumentRow<'static> = ArgumentRow {
    name: "verbose",
    form: Form::ShortFlag('v'),
    tie: Tie::None,
    help: "Prints on standard error what happens, and why a command fails",
};

const WAIT_LOCK: ArgumentRow<'static> = ArgumentRow {
    name: "wait-lock",
    form: Form::Flag,
    tie: Tie::None,
    help: "If another process has locked the image, waits and tries again every half second",
};

const JSON: ArgumentRow<'static> = ArgumentRow {
    name: "json",
    form: Form::Flag,
    tie: Tie::None,
    help: "Prints one line of JSON instead of text",
};

const DEEP: ArgumentRow<'static> = ArgumentRow {
    name: "deep",
    form: Form::Flag,
    tie: Tie::Excludes("json"),
    help: "Prints each group of the journal too: where it stands, and the numbers of its writes",
};

const LAYOUT_FORM: Form<'static> = Form::Value("L", ValueParser::Unsigned(1, 2));

const PREALLOCATE: ArgumentRow<'static> = ArgumentRow {
    name: "preallocate",
    form: Form::Flag,
    tie: Tie::None,
    help: "Allocates every block by writing zeroes, so that a full disk can't stop the server later",
};

const FORCE: ArgumentRow<'static> = ArgumentRow {
    name: "force",
    form: Form::Flag,
    tie: Tie::None,
    help: "Replaces a file that isn't empty, or data on a block device",
};

// There are two ways to say how large an image is.
pub static FORMAT: SubcommandRow<'static> = SubcommandRow {
    name: "format",
    about: "Makes an image of full size: every block is a hole, and the journal is empty",
    after_help: "Example: nbdj format d.img --size 10G\n\nWith --size, a file that isn't empty or a block device with known data is refused unless --force is given. A kill or a power cut before the end leaves what the file held, or a file that doesn't open.\n\nExit status: 0 done; 1 a fault of file, device or memory, data that --force would replace, or an area below 4M for layout 2; 2 a refused command line; 4 a file or a device in use.",
    usage: Some(
        "nbdj format [OPTIONS] --size <SIZE> <PATH>\n       nbdj format [OPTIONS] --blocks <N> --area <BYTES> <PATH>",
    ),
    arguments: &[
        PATH,
        ArgumentRow {
            name: "size",
            form: Form::Text("SIZE"),
            tie: Tie::OneOf("blocks"),
            help: "Size of the image, in whole blocks of 4096 bytes: 4K to 64G, as 65536, 64K, 512M or 10G, in powers of 1024",
        },
        ArgumentRow {
            name: "blocks",
            form: Form::Value("N", ValueParser::Unsigned(1, 16_777_216)),
            tie: Tie::Requires("area"),
            help: "Size of the image in blocks of 4096 bytes: 1 to 16777216",
        },
        ArgumentRow {
            name: "area",
            form: Form::Text("BYTES"),
            tie: Tie::None,
            help: "Size of a journal area (layout 1) or of two (layout 2): a multiple of 8192, 2M to 1G; 64M if only --size is given",
        },
        ArgumentRow {
            name: "layout",
            form: LAYOUT_FORM,
            tie: Tie::None,
            help: "1 for two journal areas, 2 for four of half the size, which needs an --area of 4M or more; without it --size makes layout 2 if it can, and --blocks layout 1",
        },
        PREALLOCATE,
        ArgumentRow {
            name: "force",
            form: Form::Flag,
            tie: Tie::None,
            help: "Replaces a file that isn't empty, or data on a block device; --blocks always does so",
        },
        VERBOSE,
    ],
};

// There are three ways to say where clients arrive: the third is to start it with sockets.
pub static SERVE: SubcommandRow<'static> = SubcommandRow {
    name: "serve",
    about: "Serves the image to clients of the Network Block Device protocol",
    after_help: "Example: nbdj serve d.img --listen 127.0.0.1:10809\n\n--listen and --unix may be given more than once, and together. Without them the server uses the sockets that LISTEN_FDS counts, and prints nothing. For each socket that it makes it prints `listening PORT` or `listening SOCKET` once clients can connect. A kill has the effect of a power cut: every write that a FLUSH or a FUA reply has confirmed stays. With --cache ordered a FLUSH does not make anything durable: the last answered writes may be lost. nbdj-server runs this command so that a signal loses no answered write.\n\nExit status: 0 ended as asked; 1 a fault of file, image, address, device or memory; 2 a refused command line; 4 a file or a device in use.",
    usage: Some(
        "nbdj serve [OPTIONS] --listen <ADDR> <PATH>\n       nbdj serve [OPTIONS] --unix <SOCKET> <PATH>\n       nbdj serve [OPTIONS] <PATH>",
    ),
    arguments: &[
        PATH,
        ArgumentRow {
            name: "listen",
            form: Form::Texts("ADDR"),
            tie: Tie::None,
            help: "Address to listen on, as 127.0.0.1, ::1 or 127.0.0.1:10810; the port is 10809 unless given, and 0 lets the system choose one",
        },
        ArgumentRow {
            name: "unix",
            form: Form::Texts("SOCKET"),
            tie: Tie::None,
            help: "Path of a Unix socket, made at the start and removed at the end; a stale socket is replaced",
        },
        ArgumentRow {
            name: "unix-mode",
            form: Form::Text("MODE"),
            tie: Tie::Requires("unix"),
            help: "Mode of each Unix socket's file, in octal, 0 to 777, as 0660: who may connect; without it the umask decides",
        },
        ArgumentRow {
            name: "workers",
            form: Form::ValueOr("W", "4", ValueParser::Unsigned(1, MOST_WORKERS)),
            tie: Tie::None,
            help: "Connections served at a time: 1 to 16",
        },
        ArgumentRow {
            name: "in-flight",
            form: Form::ValueOr("N", "1", ValueParser::Unsigned(1, MOST_IN_FLIGHT)),
            tie: Tie::None,
            help: "Requests of each connection in progress at a time: 1 to 16; with more than 1, replies may overtake others",
        },
        ArgumentRow {
            name: "when-full",
            form: Form::TextOr("WAY", "wait"),
            tie: Tie::None,
            help: "What happens to a client if every worker is busy: `wait` lets it wait, `refuse` closes its connection",
        },
        FRAMES,
        CACHE,
        ArgumentRow {
            name: "sessions",
            form: Form::ValueOr("K", "0", ValueParser::Unsigned(0, u64::MAX)),
            tie: Tie::None,
            help: "Ends the server after K sessions; 0 for no limit",
        },
        ArgumentRow {
            name: "handshake-timeout",
            form: Form::ValueOr("SECONDS", "30", ValueParser::Unsigned(1, 86_400)),
            tie: Tie::None,
            help: "Longest silence of a client during the handshake, in seconds: 1 to 86400",
        },
        ArgumentRow {
            name: "idle-timeout",
            form: Form::ValueOr("SECONDS", "0", ValueParser::Unsigned(0, 86_400)),
            tie: Tie::None,
            help: "Longest silence of a client after the handshake, in seconds: 1 to 86400, or 0 for no limit",
        },
        ArgumentRow {
            name: "keepalive",
            form: Form::ValueOr("SECONDS", "100", ValueParser::Unsigned(0, 32_767)),
            tie: Tie::None,
            help: "Drops a TCP client whose host hasn't answered, or which has taken no reply, for this many seconds: 1 to 32767, or 0 for no limit",
        },
        ArgumentRow {
            name: "flush-interval",
            form: Form::TextOr("SECONDS", "1"),
            tie: Tie::None,
            help: "Stores a write after this many seconds even if no client flushes: 0.001 to 86400, as 0.1, or 0 for never",
        },
        ArgumentRow {
            name: "loss-bytes",
            form: Form::TextOr("BYTES", "64M"),
            tie: Tie::None,
            help: "A power cut loses at most BYTES of answered writes: a write waits while it could leave more pending; 2M to 64M",
        },
        ArgumentRow {
            name: "loss-seconds",
            form: Form::TextOr("SECONDS", "0"),
            tie: Tie::None,
            help: "A write waits while an older one has been pending longer than this: 0.001 to 86400, as 0.5, or 0 for no limit",
        },
        ArgumentRow {
            name: "export-name",
            form: Form::Text("NAME"),
            tie: Tie::None,
            help: "Name of the export, up to 4075 bytes; the empty name unless given",
        },
        ArgumentRow {
            name: "fresh-name",
            form: Form::Flag,
            tie: Tie::Requires("export-name"),
            help: "Names the export NAME-N, with a new number N at each start, and prints it: clients of an earlier start are refused",
        },
        ArgumentRow {
            name: "on-fault",
            form: Form::TextOr("WAY", "exit"),
            tie: Tie::None,
            help: "After a device fault: `exit` ends the server with status 1, `stay` answers every request with EIO",
        },
        ArgumentRow {
            name: "on-full",
            form: Form::TextOr("WAY", "wait"),
            tie: Tie::None,
            help: "If the disk under a file with holes is full: `wait` tries again until there is space, `stop` takes it for a device fault",
        },
        ArgumentRow {
            name: "until-eof",
            form: Form::Flag,
            tie: Tie::None,
            help: "Stores everything and ends the server once standard input ends",
        },
        ArgumentRow {
            name: "status",
            form: Form::Text("SOCKET"),
            tie: Tie::None,
            help: "Path of a Unix socket at which the server gives its figures over HTTP; see nbdj status",
        },
        ArgumentRow {
            name: "device-timeout",
            form: Form::TextOr("SECONDS", "0"),
            tie: Tie::None,
            help: "Drops clients and exits (status 1) if a device call takes more seconds: 0.001 to 86400, as 0.1, or 0 for no limit",
        },
        ArgumentRow {
            name: "lock-check",
            form: Form::TextOr("SECONDS", "0"),
            tie: Tie::None,
            help: "Seconds between checks that the image is still locked and can be synced: 0.001 to 86400, as 0.1, or 0 for never",
        },
        WAIT_LOCK,
        VERBOSE,
    ],
};

static STATUS: SubcommandRow<'static> = SubcommandRow {
    name: "status",
    about: "Prints the figures of a running server: clients, rates, latencies, and what a power cut would lose",
    after_help: "Example: nbdj serve d.img --listen 127.0.0.1 --status d.status, and elsewhere: nbdj status d.status --watch\n\nExit status: 0 done; 1 no server answers there, or a fault of stream or memory; 2 a refused command line.",
    usage: None,
    arguments: &[
        ArgumentRow {
            name: "socket",
            form: Form::Word("SOCKET"),
            tie: Tie::None,
            help: "The socket given to serve --status",
        },
        ArgumentRow {
            name: "json",
            form: Form::Flag,
            tie: Tie::Excludes("watch"),
            help: "Prints the figures as the server sends them, as one JSON object",
        },
        ArgumentRow {
            name: "watch",
            form: Form::Flag,
            tie: Tie::Excludes("store"),
            help: "Prints new figures every second, with rates: a screen on a terminal, otherwise a line",
        },
        ArgumentRow {
            name: "store",
            form: Form::Flag,
            tie: Tie::Excludes("json"),
            help: "Prints no figures: asks the server to store every write that it has answered, and returns once all are durable",
        },
        VERBOSE,
    ],
};

static PIPE: SubcommandRow<'static> = SubcommandRow {
    name: "pipe",
    about: "Serves one connection over standard input and output: its transmission phase, without a handshake",
    after_help: "Example: nbdj pipe d.img --cache writethrough <requests >replies\n\nA kill or a power cut keeps every write that a FLUSH or a FUA reply has confirmed. With --cache ordered a FLUSH does not make anything durable: the last answered writes may be lost.\n\nExit status: 0 the client has ended the session; 1 a fault of file, image, device, stream or memory; 2 a refused command line; 4 a file or a device in use.",
    usage: None,
    arguments: &[PATH, FRAMES, CACHE, VERBOSE],
};

static RECOVER: SubcommandRow<'static> = SubcommandRow {
    name: "recover",
    about: "Recovers the image and prints the number of its last write",
    after_help: "Example: nbdj recover d.img\n\nThe journal is copied into the image, and is empty afterwards. A kill or a power cut loses nothing.\n\nExit status: 0 done; 1 a fault of file, image, device or memory; 2 a refused command line; 4 a file or a device in use.",
    usage: None,
    arguments: &[PATH, JSON, WAIT_LOCK, VERBOSE],
};

static UPGRADE: SubcommandRow<'static> = SubcommandRow {
    name: "upgrade",
    about: "Recovers the image and converts it to layout 2: four journal areas instead of two",
    after_help: "Example: nbdj upgrade d.img\n\nIts blocks stay as they are. A kill or a power cut loses nothing, and leaves one layout or the other.\n\nExit status: 0 done; 1 a fault of file, image, device or memory, or an area below 4M; 2 a refused command line; 4 a file or a device in use.",
    usage: None,
    arguments: &[PATH, WAIT_LOCK, VERBOSE],
};

static CHECK: SubcommandRow<'static> = SubcommandRow {
    name: "check",
    about: "Prints what the image holds, and writes nothing",
    after_help: "Example: nbdj check d.img\n\nA kill or a power cut changes nothing.\n\nExit status: 0 the image is whole; 1 a fault of file, device or memory; 2 a refused command line; 3 the image is bad; 4 a file or a device in use.",
    usage: None,
    arguments: &[PATH, JSON, DEEP, VERBOSE],
};

static REHEARSE: SubcommandRow<'static> = SubcommandRow {
    name: "rehearse",
    about: "Runs a script from standard input on a simulated device, crashes included",
    after_help: "Example: nbdj rehearse <script\n\nEach line is one step; docs/FORMATS.md describes them and what they print. A kill loses only the simulated device.\n\nExit status: 0 done; 1 a fault of device, stream or memory, or a sweep that found a difference; 2 a refused command line, or a line that is no step.",
    usage: None,
    arguments: &[
        ArgumentRow {
            name: "sweep",
            form: Form::Flag,
            tie: Tie::None,
            help: "Repeats the script with a crash at each device call, and compares what is found afterwards with what should be",
        },
        ArgumentRow {
            name: "faults",
            form: Form::Flag,
            tie: Tie::None,
            help: "Repeats the script with a fault at each device call, then a crash, and compares in the same way",
        },
        VERBOSE,
    ],
};

pub static IMPORT: SubcommandRow<'static> = SubcommandRow {
    name: "import",
    about: "Makes an image with the contents of a raw file, a block device, another image, or standard input",
    after_help: "Example: nbdj import disk.raw d.img\n\nAn image as SOURCE is known by its header, and is read with its journal; it isn't changed. Blocks that are all zero become holes. A kill or a power cut before the end leaves what the file held, or a file that doesn't open.\n\nExit status: 0 done; 1 a fault of file, device, stream or memory, data that --force would replace, a source larger than --size, or an area below 4M for layout 2; 2 a refused command line; 3 a source that is a bad image; 4 a file or a device in use.",
    usage: None,
    arguments: &[
        ArgumentRow {
            name: "source",
            form: Form::Word("SOURCE"),
            tie: Tie::None,
            help: "The raw file, block device or image with the contents, or - for standard input, which needs --size",
        },
        PATH,
        ArgumentRow {
            name: "size",
            form: Form::Text("SIZE"),
            tie: Tie::None,
            help: "Size of the image, in whole blocks of 4096 bytes: 4K to 64G, as 65536, 64K, 512M or 10G; not smaller than the source, whose size it is if left out",
        },
        ArgumentRow {
            name: "area",
            form: Form::Text("BYTES"),
            tie: Tie::None,
            help: "Size of a journal area (layout 1) or of two (layout 2): a multiple of 8192, 2M to 1G; 64M if left out",
        },
        ArgumentRow {
            name: "layout",
            form: LAYOUT_FORM,
            tie: Tie::None,
            help: "1 for two journal areas, 2 for four of half the size, which needs an --area of 4M or more; 2 if left out and the area is large enough",
        },
        PREALLOCATE,
        FORCE,
        VERBOSE,
    ],
};

static EXPORT: SubcommandRow<'static> = SubcommandRow {
    name: "export",
    about: "Writes the contents of the image, its journal included, to a raw file, a block device, or standard output",
    after_help: "Example: nbdj export d.img disk.raw\n\nThe image is locked and not changed: its journal stays as it is. In a file the holes of the image are holes. A kill or a power cut leaves a part of the contents at TARGET.\n\nExit status: 0 done; 1 a fault of file, device, stream or memory, or data that --force would replace; 2 a refused command line; 3 the image is bad; 4 a file or a device in use.",
    usage: None,
    arguments: &[
        PATH,
        ArgumentRow {
            name: "target",
            form: Form::Word("TARGET"),
            tie: Tie::None,
            help: "The raw file or block device that the contents are written to, or - for standard output",
        },
        FORCE,
        VERBOSE,
    ],
};
