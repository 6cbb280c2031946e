use crate::format_options::{FormatOptions, ImportSizes};
use crate::options::{OnFull, ServeOptions};
use crate::pipe_options::PipeOptions;
use crate::refusal::Refusal;
use image_model::Geometry;

/// An address at which clients arrive.
#[derive(Clone, Copy)]
pub enum Address<'a> {
    /// An IP address or a host's name, and a port; with port 0 the system picks one.
    Tcp(&'a str),
    /// The path of a Unix socket, which is made; and its file's mode, if it is given.
    Unix { path: &'a str, mode: Option<u32> },
}

/// How a script is run.
#[derive(Clone, Copy, PartialEq, Eq)]
pub enum Course {
    /// Once, as it stands.
    Once,
    /// Anew for each crash at a call of the device.
    Sweep,
    /// Anew for each fault of a call of the device.
    Faults,
}

/// What a server is asked for at its status socket, and how its figures are printed.
#[derive(Clone, Copy, PartialEq, Eq)]
pub enum StatusForm {
    /// Once, in lines for people.
    Lines,
    /// Once, as the JSON that the server sends.
    Json,
    /// Anew each second, with rates.
    Watch,
    /// Not at all: the server stores what it has accepted, and tells the number of the last write of that.
    Store,
}

/// The most bytes of an export's name as it is asked for. NBD allows 4,096, and a fresh name adds up to 21.
pub const MOST_NAME_BYTES: usize = 4_075;

/// The name by which clients ask for the export.
#[derive(Clone, Copy)]
pub struct ServedName<'a> {
    pub text: &'a str,
    /// Whether a hyphen and a number that differs at each start stand after it.
    pub is_fresh: bool,
}

/// What a command line asks for, and whether what happens is told on standard error.
#[derive(Drop)]
pub struct Invocation<'a> {
    pub plan: Plan<'a>,
    pub is_verbose: bool,
    /// Whether the plan waits while another process has locked the device.
    pub waits_for_lock: bool,
    /// What becomes of a write of the device for which its disk has no space.
    pub on_full: OnFull,
}

/// What is to be done. A path names a device's file, which the caller opens or makes.
#[derive(Drop)]
pub enum Plan<'a> {
    /// Makes the device an image of holes.
    Format {
        path: &'a str,
        geometry: Geometry,
        options: FormatOptions,
    },
    /// Makes the device an image with the contents of a source: of another path, or of standard input, if that is `-`.
    Import {
        source: &'a str,
        path: &'a str,
        sizes: ImportSizes,
        options: FormatOptions,
    },
    /// Gives the contents of the device's image to a target: to another path, or to standard output, if that is `-`.
    Export {
        path: &'a str,
        target: &'a str,
        /// Whether data that are there may be lost.
        replaces: bool,
    },
    /// Serves one connection over standard input and output.
    Pipe {
        path: &'a str,
        options: PipeOptions,
    },
    /// Serves clients over sockets: at these addresses, or at the sockets that the process was handed if there is none. Its figures are
    /// told at a socket of their own, if there is one.
    Serve {
        path: &'a str,
        addresses: Vec<Address<'a>>,
        status: Option<&'a str>,
        name: ServedName<'a>,
        options: ServeOptions,
    },
    /// Asks a server at its status socket for its figures.
    Status {
        socket: &'a str,
        form: StatusForm,
    },
    /// Opens the device, which recovers it, and says the number of its last command.
    Recover {
        path: &'a str,
        /// Whether it is said as JSON.
        is_json: bool,
    },
    /// Opens the device, which recovers it, and makes it one of layout 2.
    Upgrade {
        path: &'a str,
    },
    /// Says what the device holds, which is read alone.
    Check {
        path: &'a str,
        /// Whether it is said as JSON.
        is_json: bool,
        /// Whether each group of the journal is told too.
        is_deep: bool,
    },
    /// Runs a script from standard input on a simulated device.
    Rehearse {
        course: Course,
    },
    /// Tells why a format is refused, where a file could be opened or made at the path, and leaves it as it was.
    Refuse {
        path: &'a str,
        refusal: Refusal,
    },
}
