ghost use Rattle.std.specs.Prelude.{◌≡◌, IfOk};

use crate::trial::{Outcome, Trial};
use disk_model::{CallKind, CrashChoice, Disk, SimDisk};
use script_runner::{End, Schedule, Trouble, exit_status, failed, print};
use std::alloc::Global;
use std::fmt;
use std::fmt::{Display, Formatter};
use std::io::{Read, Write};

/// Runs a script anew for each call of the device after its first line, which stops there, and once to its end, and lets
/// the device crash, each time with each filling. Prints how many calls and runs there were and `ok`, or which crashes
/// were not right, and answers the exit status.
pub fn sweep<R: Read, W: Write, E: Write>(
    alloc: Global,
    input: &mut R,
    output: &mut W,
    errors: &mut E,
) -> u8 {
    exit_status(crash_everywhere(alloc, input, output), errors)
}

/// Runs a script anew for each call of the device after its first line, which fails, and lets the device crash at the
/// end, each time with each filling. Prints how many calls of each kind there were and `ok`, or which faults were not
/// right, and answers the exit status.
pub fn faults<R: Read, W: Write, E: Write>(
    alloc: Global,
    input: &mut R,
    output: &mut W,
    errors: &mut E,
) -> u8 {
    exit_status(fail_everywhere(alloc, input, output), errors)
}

// What is tried of the unsynced bytes at a crash, in this order.
const CHOICES: [CrashChoice; 5] = [
    CrashChoice::Fill(0),
    CrashChoice::Fill(1),
    CrashChoice::Fill(255),
    CrashChoice::Old,
    CrashChoice::New,
];

// How many calls were tried on a device, and whether all was right.
#[derive(Drop)]
struct Tally {
    disk: SimDisk,
    calls: u64,
    right: bool,
}

// A crash, or a fault and a crash, after which an opening wasn't right, or before which the device was said to have failed.
#[derive(Clone, Copy)]
struct Miss {
    trouble: Trouble,
    choice: CrashChoice,
}

impl Display for Miss {
    fn fmt<W: fmt::Write>(&self, f: &mut Formatter<W>) -> fmt::Result {
        let (words, k) = words_of(self.trouble);
        write!(f, "{words} {k} ")?;
        write_choice(f, self.choice)
    }
}

// The words for what went wrong, and at which call.
fn words_of(trouble: Trouble) -> (&'static str, u64) {
    match trouble {
        Trouble::Stop(k) => ("sweep failed", k),
        Trouble::Fault(CallKind::Read, k) => ("fault failed read", k),
        Trouble::Fault(CallKind::Write, k) => ("fault failed write", k),
        Trouble::Fault(CallKind::Sync, k) => ("fault failed sync", k),
    }
}

fn write_choice<W: fmt::Write>(f: &mut Formatter<W>, choice: CrashChoice) -> fmt::Result {
    match choice {
        CrashChoice::Fill(byte) => write!(f, "{byte:02x}"),
        CrashChoice::Old => f.write_str("old"),
        CrashChoice::New => f.write_str("new"),
    }
}

fn crash_everywhere<R: Read, W: Write>(
    alloc: Global,
    input: &mut R,
    output: &mut W,
) -> Result<(), End> {
    let (mut trial, work) = begin(alloc, input, output)?;
    let stops = crash_at_each(&mut trial, work, output)?;
    if !stops.right {
        return Err(End::Printed);
    }
    print_counts(
        &[("calls", stops.calls), ("runs", runs_of(stops.calls))],
        output,
    )
}

// How many runs there are for this many calls, and one to the end, with each filling.
fn runs_of(calls: u64) -> u64 {
    calls.saturating_add(1).saturating_mul(CHOICES.len() as u64)
}

// Prints that all was right, and how much there was.
fn print_counts<W: Write>(counts: &[(&str, u64)], output: &mut W) -> Result<(), End> {
    for (name, count) in counts {
        print(output, format_args!("{name} {count}"))?;
    }
    print(output, "ok")?;
    Ok(())
}

fn fail_everywhere<R: Read, W: Write>(
    alloc: Global,
    input: &mut R,
    output: &mut W,
) -> Result<(), End> {
    let (mut trial, work) = begin(alloc, input, output)?;
    let (reads, writes, syncs) = fail_each_kind(&mut trial, work, output)?;
    print_counts(
        &[("reads", reads), ("writes", writes), ("syncs", syncs)],
        output,
    )
}

// Lets each call of each kind fail in turn. How many reads, writes and syncs there were, where all was right.
fn fail_each_kind<W: Write>(
    trial: &mut Trial,
    work: SimDisk,
    output: &mut W,
) -> Result<(u64, u64, u64), End>
    requires { ⟦<SimDisk as Disk>⟧.extent work ≡ ⟦<SimDisk as Disk>⟧.extent trial.old.fresh }
{
    let reads = fail_at_each(trial, work, CallKind::Read, output)?;
    let writes = fail_at_each(trial, reads.disk, CallKind::Write, output)?;
    let syncs = fail_at_each(trial, writes.disk, CallKind::Sync, output)?;
    if !(reads.right && writes.right && syncs.right) {
        return Err(End::Printed);
    }
    Ok((reads.calls, writes.calls, syncs.calls))
}

// Reads a script to its end, and makes its device and one on which it can be run.
fn begin<R: Read, W: Write>(
    alloc: Global,
    input: &mut R,
    output: &mut W,
) -> Result<(Trial, SimDisk), End>
    ensures { IfOk result (λ begun. ⟦<SimDisk as Disk>⟧.extent begun.1 ≡ ⟦<SimDisk as Disk>⟧.extent begun.0.fresh) }
{
    let schedule = Schedule::read(alloc, input)?;
    match Trial::begin(alloc, schedule) {
        Ok(begun) => Ok(begun),
        Err(fault) => Err(failed(fault, output)),
    }
}

// Stops the device at each call in turn, up to the first that no run makes: that one crashes at the end.
fn crash_at_each<W: Write>(trial: &mut Trial, work: SimDisk, output: &mut W) -> Result<Tally, End>
    requires { ⟦<SimDisk as Disk>⟧.extent work ≡ ⟦<SimDisk as Disk>⟧.extent trial.old.fresh }
{
    let mut tally = Tally {
        disk: work,
        calls: 0,
        right: true,
    };
    for k in 1..u64::MAX {
        let outcome = try_fillings(trial, tally.disk, Trouble::Stop(k), false, output)?;
        tally = Tally {
            disk: outcome.disk,
            calls: k - 1,
            right: tally.right && outcome.right,
        };
        if !outcome.met {
            break;
        }
    }
    Ok(tally)
}

// Lets each call of a kind fail in turn, up to the first that no run makes.
fn fail_at_each<W: Write>(
    trial: &mut Trial,
    work: SimDisk,
    kind: CallKind,
    output: &mut W,
) -> Result<Tally, End>
    requires { ⟦<SimDisk as Disk>⟧.extent work ≡ ⟦<SimDisk as Disk>⟧.extent trial.old.fresh }
    ensures fresh { trial.new.fresh ≡ trial.old.fresh }
    ensures size { IfOk result (λ tally. ⟦<SimDisk as Disk>⟧.extent tally.disk ≡ ⟦<SimDisk as Disk>⟧.extent trial.old.fresh) }
{
    let mut tally = Tally {
        disk: work,
        calls: 0,
        right: true,
    };
    for k in 1..u64::MAX {
        let trouble = Trouble::Fault(kind, k);
        let told = told_early(trial, tally.disk, trouble, output)?;
        tally = Tally {
            disk: told.disk,
            calls: k - 1,
            right: tally.right && told.right,
        };
        if !told.met {
            break;
        }
        let outcome = try_fillings(trial, tally.disk, trouble, !told.right, output)?;
        tally = Tally {
            disk: outcome.disk,
            calls: k,
            right: tally.right && outcome.right,
        };
    }
    Ok(tally)
}

// Checks that no fault of the device is told before it comes; one that is counts as a miss with the first filling.
fn told_early<W: Write>(
    trial: &mut Trial,
    work: SimDisk,
    trouble: Trouble,
    output: &mut W,
) -> Result<Outcome, End>
    requires { ⟦<SimDisk as Disk>⟧.extent work ≡ ⟦<SimDisk as Disk>⟧.extent trial.old.fresh }
    ensures fresh { trial.new.fresh ≡ trial.old.fresh }
    ensures size { IfOk result (λ outcome. ⟦<SimDisk as Disk>⟧.extent outcome.disk ≡ ⟦<SimDisk as Disk>⟧.extent trial.old.fresh) }
{
    let outcome = match trial.watch(work, trouble) {
        Ok(outcome) => outcome,
        Err(fault) => return Err(failed(fault, output)),
    };
    if !outcome.right {
        let choice = CHOICES[0];
        print(output, Miss { trouble, choice })?;
    }
    Ok(outcome)
}

// Runs the script with this trouble and each filling, and tells what wasn't right, but for the first filling where that is
// told already.
fn try_fillings<W: Write>(
    trial: &mut Trial,
    work: SimDisk,
    trouble: Trouble,
    first_is_told: bool,
    output: &mut W,
) -> Result<Outcome, End>
    requires { ⟦<SimDisk as Disk>⟧.extent work ≡ ⟦<SimDisk as Disk>⟧.extent trial.old.fresh }
    ensures fresh { trial.new.fresh ≡ trial.old.fresh }
    ensures size { IfOk result (λ outcome. ⟦<SimDisk as Disk>⟧.extent outcome.disk ≡ ⟦<SimDisk as Disk>⟧.extent trial.old.fresh) }
{
    let mut all = Outcome {
        disk: work,
        met: false,
        right: true,
    };
    for choice in CHOICES {
        let outcome = match trial.run(all.disk, trouble, choice) {
            Ok(outcome) => outcome,
            Err(fault) => return Err(failed(fault, output)),
        };
        if !outcome.right && !(first_is_told && choice == CHOICES[0]) {
            print(output, Miss { trouble, choice })?;
        }
        all = Outcome {
            disk: outcome.disk,
            met: outcome.met,
            right: all.right && outcome.right,
        };
    }
    Ok(all)
}
