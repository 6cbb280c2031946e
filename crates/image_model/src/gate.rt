/// A gate of a group or of a header that is open: what stands after it counts. With every other byte it is closed.
pub const OPEN: u8 = 1;

/// The byte that closes a gate.
pub const CLOSED: u8 = 0;
