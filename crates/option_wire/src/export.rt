ghost use Rattle.std.specs.Prelude.{◌≡◌, ◌+◌, ◌<◌, ◌++◌, OnOk, OnErr, length, vec_len, vec_capacity};
ghost use Rattle.std.specs.Int.{w16, w64, to_be_bytes};
ghost use Rattle.option_wire.specs.Export.{export_bytes};

use crate::reply::put;
use byteorder::{BigEndian, ByteOrder};
use std::alloc::AllocError;

const NUMBERS_LEN: usize = 10;

const ZEROES_LEN: usize = 124;

/// What an EXPORT_NAME is answered, in place of option replies ("Newstyle negotiation" of NBD's `proto.md`).
#[derive(Clone, Copy)]
pub struct ExportAnswer {
    /// The size of the export, in bytes.
    pub size: u64,
    /// Its transmission flags.
    pub flags: u16,
    /// Whether 124 zero bytes follow, as they do unless both sides set NO_ZEROES.
    pub zeroes: bool,
}

/// Appends the answer: 10 bytes, or 134. Refusal 0 (no memory), before anything is appended.
pub fn encode_export_answer(answer: &ExportAnswer, out: &mut Vec<u8>) -> Result<(), AllocError>
    ensures ok { OnOk result (out.new.items ≡ out.old.items ++ export_bytes answer.now) }

    // It fails only where there is no room for the answer.
    ensures err { OnErr result (out.new.items ≡ out.old.items) }
    ensures full { OnErr result (vec_capacity out.old < vec_len out.old + length (export_bytes answer.now)) }
{
    if answer.zeroes {
        out.reserve(NUMBERS_LEN + ZEROES_LEN)?;
        put(out, &encode_numbers(answer));
        put(out, &[0; ZEROES_LEN]);
    } else {
        out.reserve(NUMBERS_LEN)?;
        put(out, &encode_numbers(answer));
    }
    Ok(())
}

fn encode_numbers(answer: &ExportAnswer) -> [u8; 10]
    ensures { result ≡ to_be_bytes w64 answer.now.size ++ to_be_bytes w16 answer.now.flags }
{
    let mut bytes = [0; 10];
    BigEndian::write_u64(&mut bytes[0..8], answer.size);
    BigEndian::write_u16(&mut bytes[8..10], answer.flags);
    bytes
}
