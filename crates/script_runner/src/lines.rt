use crate::ending::End;
use crate::script_line::{Line, Setup, StepLine, parse};
use front_end::Refusal;
use std::alloc::{AllocError, Global};
use std::io::{BufRead, BufReader, ErrorKind, Read};
use std::mem;

/// The lines of a script, one after the other.
#[derive(Drop)]
pub struct Lines<R: Read + Drop> {
    reader: BufReader<R>,
    text: Vec<u8>,
    // How many were read.
    count: u64,
}

impl<R: Read + Drop> Lines<R> {
    pub fn new(alloc: Global, input: R) -> Result<Lines<R>, Refusal> {
        Ok(Lines {
            reader: BufReader::new(alloc, input).map_err(stream_refusal)?,
            text: Vec::new(alloc),
            count: 0,
        })
    }

    /// How many were read.
    pub fn count(&self) -> u64 {
        self.count
    }

    /// The first line, which makes the device.
    pub fn setup(&mut self, alloc: Global) -> Result<Setup, End> {
        match self.next(alloc)? {
            Some(Line::Format(setup)) => Ok(setup),
            _ => Err(End::NotAStep(1)),
        }
    }

    /// The next line; none at the end of the input. The last may lack its line feed.
    pub fn next(&mut self, alloc: Global) -> Result<Option<Line>, End> {
        self.text.clear();
        let read = self.reader.read_until(b'\n', &mut self.text);
        if read.map_err(stream_refusal)? == 0 {
            return Ok(None);
        }
        self.count = self.count.saturating_add(1);
        let text = self.text.strip_suffix(b"\n").unwrap_or(&self.text);
        match parse(alloc, text)? {
            Some(line) => Ok(Some(line)),
            None => Err(End::NotAStep(self.count)),
        }
    }
}

// Why a stream can't be read.
fn stream_refusal(error: std::io::Error) -> Refusal {
    match error.kind() {
        ErrorKind::OutOfMemory => Refusal::NoMemory,
        _ => Refusal::StreamFault,
    }
}

/// A script that was read whole, and in which nothing goes wrong by itself.
#[derive(Drop)]
pub struct Schedule {
    pub setup: Setup,
    /// The steps of each life of the device. Each but the first begins with an upgrade.
    pub lives: Vec<Vec<StepLine>>,
}

impl Schedule {
    /// Reads a script to its end. A line that crashes the device or lets a call of it fail is refused here, as one that is no
    /// step is.
    pub fn read<R: Read>(alloc: Global, input: &mut R) -> Result<Schedule, End> {
        let mut lines = Lines::new(alloc, input)?;
        let setup = lines.setup(alloc)?;
        let lives = lives_of(alloc, &mut lines)?;
        Ok(Schedule { setup, lives })
    }
}

// Reads the lines to their end: the steps of each life.
fn lives_of<R: Read + Drop>(
    alloc: Global,
    lines: &mut Lines<R>,
) -> Result<Vec<Vec<StepLine>>, End> {
    let mut lives = Vec::new(alloc);
    let mut steps = Vec::new(alloc);
    gather(alloc, lines, &mut lives, &mut steps)?;
    keep(&mut lives, steps)?;
    Ok(lives)
}

// Reads the lines to their end: the steps of each life but the last, and those of the last.
fn gather<R: Read + Drop>(
    alloc: Global,
    lines: &mut Lines<R>,
    lives: &mut Vec<Vec<StepLine>>,
    steps: &mut Vec<StepLine>,
) -> Result<(), End> {
    for _ in 0..u64::MAX {
        match lines.next(alloc)? {
            Some(Line::Step(step)) => keep(steps, step)?,
            Some(Line::Upgrade) => keep(lives, mem::replace(steps, Vec::new(alloc)))?,
            Some(_) => return Err(End::NotAStep(lines.count())),
            None => return Ok(()),
        }
    }
    Err(End::Refused(Refusal::StreamFault))
}

/// Adds one after the others.
pub fn keep<T: Drop>(all: &mut Vec<T>, next: T) -> Result<(), AllocError> {
    all.push(next)?;
    Ok(())
}
