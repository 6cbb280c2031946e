//! The parts of an option's data, read from the front of bytes.
ghost use Rattle.std.specs.Prelude.{◌≡◌, ◌≢◌, ℕ, ◌<◌, ◌^◌, List, ◌++◌, length, IfOk, IfSome, IfNone, IsErrOf};
ghost use Rattle.std.specs.Int.{w16, w32, to_be_bytes};
ghost use Rattle.option_wire.specs.Field.{AreQueries, AreTypes, IsText, counted, queries_bytes, types_bytes};

use crate::error::OptionFault;
use crate::text::Text;
use byteorder::{BigEndian, ByteOrder};
use std::alloc::Global;

fn take_u16(bytes: &[u8]) -> Option<(u16, &[u8])>
    ensures fits { IfSome result (λ taken. taken.0 < 2 ^ 16) }
    ensures found { IfSome result (λ taken. bytes.now ≡ to_be_bytes w16 taken.0 ++ taken.1.now) }
    ensures none { IfNone result (length bytes.now < 2) }
{
    if bytes.len() < 2 {
        return None;
    }
    let (number, rest) = bytes.split_at(2);
    Some((BigEndian::read_u16(number), rest))
}

fn take_u32(bytes: &[u8]) -> Option<(u32, &[u8])>
    ensures fits { IfSome result (λ taken. taken.0 < 2 ^ 32) }
    ensures found { IfSome result (λ taken. bytes.now ≡ to_be_bytes w32 taken.0 ++ taken.1.now) }
    ensures none { IfNone result (length bytes.now < 4) }
{
    if bytes.len() < 4 {
        return None;
    }
    let (number, rest) = bytes.split_at(4);
    Some((BigEndian::read_u32(number), rest))
}

/// The string that the bytes begin with, and the bytes after it.
pub fn take_text(bytes: &[u8]) -> Option<(&[u8], &[u8])>
    ensures fits { IfSome result (λ taken. IsText taken.0.now) }
    ensures found { IfSome result (λ taken. bytes.now ≡ counted taken.0.now ++ taken.1.now) }
    ensures none { IfNone result ((text rest : List ℕ) → IsText text → bytes.now ≢ counted text ++ rest) }
{
    let (len, rest) = take_u32(bytes)?;
    if rest.len() < len as usize {
        return None;
    }
    Some(rest.split_at(len as usize))
}

/// The types of information that the bytes are.
pub fn read_types(alloc: Global, bytes: &[u8]) -> Result<Vec<u16>, OptionFault>
    ensures fits { IfOk result (λ types. AreTypes types.items) }
    ensures found { IfOk result (λ types. bytes.now ≡ types_bytes types.items) }
    ensures none { IsErrOf result OptionFault.Malformed → (types : List ℕ) → AreTypes types → bytes.now ≢ types_bytes types }
{
    let Some((count, mut rest)) = take_u16(bytes) else {
        return Err(OptionFault::Malformed);
    };
    let mut types = Vec::new(alloc);
    for _ in 0..count {
        let Some((kind, behind)) = take_u16(rest) else {
            return Err(OptionFault::Malformed);
        };
        types.push(kind)?;
        rest = behind;
    }
    if !rest.is_empty() {
        return Err(OptionFault::Malformed);
    }
    Ok(types)
}

/// The queries that the bytes are.
pub fn read_queries(alloc: Global, bytes: &[u8]) -> Result<Vec<Text>, OptionFault>
    ensures fits { IfOk result (λ queries. AreQueries queries.items) }
    ensures found { IfOk result (λ queries. bytes.now ≡ queries_bytes queries.items) }
    ensures none { IsErrOf result OptionFault.Malformed
        → (queries : List (List ℕ)) → AreQueries queries → bytes.now ≢ queries_bytes queries }
{
    let Some((count, mut rest)) = take_u32(bytes) else {
        return Err(OptionFault::Malformed);
    };
    let mut queries = Vec::new(alloc);
    for _ in 0..count {
        let Some((query, behind)) = take_text(rest) else {
            return Err(OptionFault::Malformed);
        };
        queries.push(Text::from_slice(alloc, query)?)?;
        rest = behind;
    }
    if !rest.is_empty() {
        return Err(OptionFault::Malformed);
    }
    Ok(queries)
}
