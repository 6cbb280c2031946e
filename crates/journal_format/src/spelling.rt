/// The bytes of a group's head: its gate, the length of its body, its first number and its count of commands.
pub const GROUP_HEAD_BYTES: u32 = 17;
/// The most bytes of a group's body.
pub const MOST_BODY_BYTES: u32 = 8_388_608;
/// The bytes of a command before a put's data: its kind, its first block and its blocks.
pub const COMMAND_HEAD_BYTES: u32 = 13;

/// The kind of a command in a group that is a put.
pub const PUT: u8 = 1;
/// The kind of a clear to holes.
pub const HOLE: u8 = 2;
/// The kind of a clear to allocated zero.
pub const ALLOCATED_ZERO: u8 = 3;
/// The kind of a clear to holes but for edges.
pub const EDGED_HOLE: u8 = 4;
/// The kind of a clear to allocated zero but for edges.
pub const EDGED_ALLOCATED_ZERO: u8 = 5;

/// The byte after the head of a command with edges, where its head is one.
pub const HEAD: u8 = 1;
/// The same, where its tail is one.
pub const TAIL: u8 = 2;
/// The same, where both are.
pub const BOTH: u8 = 3;
