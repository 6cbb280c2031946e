ghost use Rattle.std.specs.Prelude.{◌≡◌};

use crate::life::{Life, Told, clear, flush, read, status, write};
use crate::script_line::StepLine;
use disk_model::{Disk, SimDisk};
use export_steps::{Step, StepFault};
use marks::BoardName;
use std::alloc::{AllocError, Global};

/// Carries out a line; a request that it sends has this cookie.
pub fn carry_out<B: BoardName>(
    alloc: Global,
    life: &mut Life<B, SimDisk>,
    line: StepLine,
    cookie: u64,
) -> Told
    ensures { ⟦<SimDisk as Disk>⟧.extent life.new.keeper.disk ≡ ⟦<SimDisk as Disk>⟧.extent life.old.keeper.disk }
{
    match line {
        StepLine::Copy(most) => copy(life, most),
        _ => match step_of(alloc, line, cookie) {
            Ok(step) => life.step(step),
            Err(_) => Told::Failed(StepFault::NoMemory),
        },
    }
}

// The step of a line.
fn step_of(alloc: Global, line: StepLine, cookie: u64) -> Result<Step, AllocError> {
    Ok(match line {
        StepLine::Put(connection, filling) => {
            Step::Send(connection, write(alloc, cookie, filling)?)
        }
        StepLine::Clear(connection, clearing, range) => {
            Step::Send(connection, clear(alloc, cookie, clearing, range))
        }
        StepLine::Read(connection, range) => Step::Send(connection, read(alloc, cookie, range)),
        StepLine::Status(connection, range) => {
            Step::Send(connection, status(alloc, cookie, range))
        }
        StepLine::Flush(connection) => Step::Send(connection, flush(alloc, cookie)),
        StepLine::Serve(connection) => Step::Serve(connection),
        StepLine::Answer(connection) => Step::Answer(connection),
        StepLine::Seal => Step::Seal,
        StepLine::Append => Step::Append,
        StepLine::Publish => Step::Publish,
        StepLine::Rotate => Step::Rotate,
        StepLine::Copy(_) => Step::Copy,
        StepLine::Map => Step::Map,
        StepLine::Finish => Step::Finish,
        StepLine::Clean => Step::Clean,
    })
}

// Copies up to this many blocks. It is held where there is none to copy.
fn copy<B: BoardName>(life: &mut Life<B, SimDisk>, most: u64) -> Told
    ensures { ⟦<SimDisk as Disk>⟧.extent life.new.keeper.disk ≡ ⟦<SimDisk as Disk>⟧.extent life.old.keeper.disk }
{
    let mut told = Told::Skipped;
    for _ in 0..most {
        match life.step(Step::Copy) {
            Told::Done => told = Told::Done,
            Told::Skipped => return told,
            failed => return failed,
        }
    }
    told
}
