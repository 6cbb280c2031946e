use std::alloc::{AllocError, Global};

/// The bytes that a row of hexadecimal digits spells; blanks in it are for the reader of the row.
pub fn bytes_of(alloc: Global, row: &str) -> Result<Vec<u8>, AllocError> {
    let mut bytes = Vec::new(alloc);
    let mut first = None;
    for digit in row.bytes() {
        let value = match digit {
            b'0'..=b'9' => digit - b'0',
            b'a'..=b'f' => digit - b'a' + 10,
            _ => continue,
        };
        first = match first {
            None => Some(value),
            Some(high) => {
                bytes.push(u8::wrapping_mul(high, 16) | value)?;
                None
            }
        };
    }
    Ok(bytes)
}
