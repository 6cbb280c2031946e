//! The name that a client has asked for whose handshake came to nothing: what it has sent is kept until its handshake is over.

// The most bytes that are kept.
const MOST_HEARD: usize = 8_192;

// The flags that a client sends first, and what an option begins with.
const FLAG_BYTES: usize = 4;

const OPTION_MAGIC: &[u8] = b"IHAVEOPT";

const OPTION_HEAD: usize = 16;

// The options that name an export.
const EXPORT_NAME: u64 = 1;

const INFO: u64 = 6;

const GO: u64 = 7;

/// Keeps these bytes too, while there is room for them.
pub(crate) fn hear(heard: &mut Vec<u8>, bytes: &[u8]) {
    let room = MOST_HEARD.saturating_sub(heard.len()).min(bytes.len());
    // Without memory the name isn't told.
    let _ = heard.extend_from_slice(bytes.get(..room).unwrap_or(&[]));
}

/// The last name that a client has asked for by these bytes of its handshake.
pub(crate) fn last_name(heard: &[u8]) -> Option<&[u8]> {
    let mut rest = heard.get(FLAG_BYTES..)?;
    let mut found = None;
    for _ in 0..heard.len() {
        let Some((option, data, behind)) = next_option(rest) else {
            break;
        };
        match option {
            EXPORT_NAME => found = Some(data),
            INFO | GO => found = named_first(data),
            _ => {}
        }
        rest = behind;
    }
    found
}

// The number of the first option, its data, and what stands after it; None if it isn't whole.
fn next_option(bytes: &[u8]) -> Option<(u64, &[u8], &[u8])> {
    let head = bytes.get(..OPTION_HEAD)?;
    if !head.starts_with(OPTION_MAGIC) {
        return None;
    }
    let length = number_at(head, 12) as usize;
    let behind = bytes.get(OPTION_HEAD..)?;
    Some((
        number_at(head, 8),
        behind.get(..length)?,
        behind.get(length..)?,
    ))
}

// The name with which the data of an INFO or a GO begin, after its length.
fn named_first(data: &[u8]) -> Option<&[u8]> {
    let length = number_at(data.get(..4)?, 0) as usize;
    data.get(4..)?.get(..length)
}

// The number that four bytes spell, the highest first.
fn number_at(bytes: &[u8], from: usize) -> u64 {
    bytes.iter().skip(from).take(4).fold(0u64, |sum, byte| {
        sum.wrapping_mul(256).wrapping_add(u64::from(*byte))
    })
}
