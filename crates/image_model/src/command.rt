ghost use Rattle.std.specs.Prelude.{◌≡◌, ◌<◌, ◌^◌};
ghost use Rattle.image_model.specs.Change.{edge_count};
ghost use Rattle.image_model.specs.Command.{body_of};

/// The state of a block.
#[derive(Clone, Copy, Debug, PartialEq, Eq)]
pub enum Kind {
    /// Bytes that were written.
    Data,
    /// Zero bytes, and room kept for them.
    Zero,
    /// Zero bytes, and no room kept for them.
    Hole,
}

/// Which of a clear's blocks become data.
#[derive(Clone, Copy, Debug, PartialEq, Eq)]
pub enum Edges {
    /// The first.
    Head,
    /// The last, which isn't the first.
    Tail,
    /// The first, and the last, which is another.
    Both,
}

impl Edges {
    /// How many blocks they are.
    pub fn count(self) -> usize
        ensures { result ≡ edge_count self }
    {
        match self {
            Edges::Head | Edges::Tail => 1,
            Edges::Both => 2,
        }
    }
}

/// A write command, in whole blocks of 4,096 bytes.
#[derive(Drop)]
pub enum Command {
    /// Writes 1 to 257 blocks from `first` on, which become data.
    Put {
        first: u64,
        bytes: Vec<u8>,
    },
    /// Makes blocks read as zero; the kind isn't data. No block at all is cleared to a hole by a trim that covers no whole
    /// block: such a command has a number, and changes nothing.
    Clear {
        first: u64,
        blocks: u32,
        kind: Kind,
    },
    /// Makes blocks read as zero, as a clear, but for the edges, which become data with these bytes, 4,096 for each.
    Edged {
        first: u64,
        blocks: u32,
        kind: Kind,
        edges: Edges,
        bytes: Vec<u8>,
    },
}

impl Command {
    /// The bytes that the command takes in a group of the journal: 13 and its data, and one more where it has edges.
    pub fn body_bytes(&self) -> u64
        requires { body_of self.now < 2 ^ 64 }
        ensures { result ≡ body_of self.now }
    {
        match self {
            Command::Put { first: _, bytes } => 13 + bytes.len() as u64,
            Command::Clear { .. } => 13,
            Command::Edged { bytes, .. } => 14 + bytes.len() as u64,
        }
    }
}
