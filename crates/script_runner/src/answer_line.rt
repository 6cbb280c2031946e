use image_model::BLOCK_BYTES;
use nbd_wire::{Answer, Run};
use std::fmt;
use std::fmt::{Display, Formatter};

/// What is printed of an answer to a connection, which a script names from 1 on: bytes by the first byte of each block.
#[derive(Drop)]
pub struct AnswerLine<'a> {
    pub connection: usize,
    pub answer: &'a Answer,
}

impl<'a> Display for AnswerLine<'a> {
    fn fmt<W: fmt::Write>(&self, f: &mut Formatter<W>) -> fmt::Result {
        write!(f, "answer {}", self.connection)?;
        match self.answer {
            Answer::Done => f.write_str(" ok"),
            Answer::Refused(errno) => write!(f, " error {}", errno.number()),
            Answer::Bytes(read) => write_bytes(f, read.bytes()),
            Answer::States(states) => write_runs(f, states.runs()),
        }
    }
}

fn write_bytes<W: fmt::Write>(f: &mut Formatter<W>, bytes: &[u8]) -> fmt::Result {
    f.write_str(" bytes")?;
    for at in (0..bytes.len()).step_by(BLOCK_BYTES as usize) {
        write!(f, " {:02x}", bytes[at])?;
    }
    Ok(())
}

fn write_runs<W: fmt::Write>(f: &mut Formatter<W>, runs: &[Run]) -> fmt::Result {
    f.write_str(" runs")?;
    for run in runs {
        write!(f, " {}:{}", u64::from(run.length) / BLOCK_BYTES, run.status)?;
    }
    Ok(())
}
