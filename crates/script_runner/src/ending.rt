use checkpoint::KeeperFault;
use front_end::Refusal;
use std::alloc::AllocError;
use std::fmt::Display;
use std::io;
use std::io::Write;

/// How a script ends before its last line.
pub enum End {
    /// A line, counted from 1, is no step.
    NotAStep(u64),
    /// Why it ends is printed already.
    Printed,
    /// The script can't go on.
    Refused(Refusal),
}

impl From<Refusal> for End {
    fn from(refusal: Refusal) -> End {
        End::Refused(refusal)
    }
}

impl From<AllocError> for End {
    fn from(error: AllocError) -> End {
        End::Refused(Refusal::from(error))
    }
}

/// The exit status of a script that ended so: 0 where it is done, 2 where a line is no step, else 1. What isn't printed
/// already is told on `errors`.
pub fn exit_status<E: Write>(outcome: Result<(), End>, errors: &mut E) -> u8 {
    match outcome {
        Ok(()) => 0,
        // If not even that can be written, the status alone tells.
        Err(End::NotAStep(line)) => {
            let _ = writeln!(errors, "nbdj: line {line}: not a step");
            2
        }
        Err(End::Printed) => 1,
        Err(End::Refused(refusal)) => {
            let _ = writeln!(errors, "nbdj: {refusal} ({})", refusal.number());
            1
        }
    }
}

/// Prints that an opening or a format is refused, which ends a script.
pub fn failed<W: Write>(fault: KeeperFault, output: &mut W) -> End {
    match print_failed(Refusal::from(fault).number(), output) {
        Ok(()) => End::Printed,
        Err(refusal) => End::Refused(refusal),
    }
}

/// Prints the number of a refusal.
pub fn print_failed<W: Write>(number: u8, output: &mut W) -> Result<(), Refusal> {
    print(output, format_args!("failed {number}"))
}

/// Prints one line, at once.
pub fn print<W: Write, T: Display + Drop>(output: &mut W, line: T) -> Result<(), Refusal> {
    match write_line(output, line) {
        Ok(()) => Ok(()),
        Err(_) => Err(Refusal::StreamFault),
    }
}

fn write_line<W: Write, T: Display + Drop>(output: &mut W, line: T) -> io::Result<()> {
    writeln!(output, "{line}")?;
    output.flush()
}
