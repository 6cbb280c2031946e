ghost use Rattle.std.specs.Prelude.{◌≡◌, ◌⊎◌, Result, IsErrOf};
ghost use Rattle.disk_model.specs.Faults.{HasRisen};
ghost use Rattle.image_model.specs.Geometry.{device_bytes_of};
ghost use Rattle.nbdj_pipe.specs.Life.{IsLived};
ghost use Rattle.nbdj_pipe.specs.Pipe.{IsPiped, IsUnopened, status_of};
ghost use Rattle.front_end.specs.declared.refusal.Refusal.{Refusal};
ghost use Rattle.front_end.specs.declared.refusal.Refusal.TheVariants.{DeviceFault};
ghost use Rattle.journal_format.specs.Reading.{IsOnlyRead};
ghost use Rattle.nbdj_pipe.specs.Devices.{IsFormatCarriedOut, IsPrinted, IsRecoveryCarriedOut, IsUpgradeCarriedOut};
ghost use Rattle.nbdj_pipe.specs.Plan.{IfCheck, IfFormat, IfPipe, IfRecover, IfUpgrade, Suits};

use crate::session::pipe;
use checkpoint::{Keeper, Report};
use disk_model::Disk;
use front_end::{Plan, Refusal};
use image_model::{Geometry, Layout};
use serde_json::{Value, json};
use std::alloc::{AllocError, Global};
use std::fmt::Display;
use std::io;
use std::io::{Read, Write};

/// Carries out the plan on a device, and answers the exit status and the device: 0 where it is done, else 1, or 3 where a
/// check found the device bad (bad map, no header, bad header or damaged group), and a line `nbdj: TEXT (NUMBER)` on `errors`.
///
/// The device of a `Format` has the full size of its geometry; a `Rehearse` has none, and is what `script_runner` and
/// `nbdj_sweep` do, and a `Serve` is what `server::serve` does.
pub fn perform<D: Disk + Drop, R: Read, W: Write, E: Write>(
    alloc: Global,
    plan: &Plan<'_>,
    disk: D,
    input: &mut R,
    output: &mut W,
    errors: &mut E,
) -> (u8, D)
    requires { Suits plan.now (D.extent disk) }
    // A pipe wrote what it owes for what it read, by a run of the world, and answers 0 where it ended with a DISC.
    ensures piped { IfPipe plan.now (λ options. (outcome : Result (Unit {0}) Refusal) × (result.0 ≡ status_of outcome)
        × (IsUnopened D.state D.faults D.honest disk result.1 (R.remaining input.old) (R.remaining input.new) (W.contents output.old) (W.contents output.new) outcome
        ⊎ IsPiped (R.remaining input.old) (R.remaining input.new) (W.contents output.old) (W.contents output.new) outcome
        (IsLived D.state D.faults D.honest options.frames options.mode disk result.1))
        × (IsErrOf outcome DeviceFault → HasRisen (D.faults disk) (D.faults result.1))) }
    // A format, a recovery and an upgrade do what the keeper's calls do, and tell what that came to.
    ensures formatted { IfFormat plan.now (λ geometry. (outcome : Result (Unit {0}) Refusal) × (result.0 ≡ status_of outcome)
        × IsFormatCarriedOut D.state D.faults D.extent D.honest disk result.1 geometry outcome) }
    ensures recovered { IfRecover plan.now ((outcome : Result (Unit {0}) Refusal) × (result.0 ≡ status_of outcome)
        × IsRecoveryCarriedOut D.state D.faults D.extent D.honest disk result.1 outcome) }
    ensures upgraded { IfUpgrade plan.now ((outcome : Result (Unit {0}) Refusal) × (result.0 ≡ status_of outcome)
        × IsUpgradeCarriedOut D.state D.faults D.extent D.honest disk result.1 outcome) }
    // A check only reads.
    ensures checked { IfCheck plan.now (D.honest disk → IsOnlyRead (D.state disk) (D.state result.1)) }
{
    if let Plan::Check { is_json, .. } = *plan {
        return check(alloc, disk, is_json, output, errors);
    }
    let (outcome, disk) = match *plan {
        Plan::Format { geometry, .. } => format(alloc, disk, geometry, output),
        Plan::Pipe { path: _, options } => pipe(alloc, disk, options, input, output),
        Plan::Recover { path: _, is_json } => recover(alloc, disk, is_json, output),
        Plan::Upgrade { path: _ } => upgrade(alloc, disk, output),
        Plan::Import { .. }
        | Plan::Export { .. }
        | Plan::Serve { .. }
        | Plan::Status { .. }
        | Plan::Check { .. }
        | Plan::Rehearse { .. }
        | Plan::Refuse { .. } => unreachable!(),
    };
    (exit_status(outcome, errors), disk)
}

// Prints one line.
fn print<W: Write, T: Display + Drop>(output: &mut W, line: T) -> Result<(), Refusal>
    ensures { IsPrinted result }
{
    match writeln!(output, "{line}") {
        Ok(()) => Ok(()),
        Err(_) => Err(Refusal::StreamFault),
    }
}

// Prints a line of a name and a count.
fn print_count<W: Write>(name: &str, count: u64, output: &mut W) -> Result<(), Refusal>
    ensures { IsPrinted result }
{
    print(output, format_args!("{name} {count}"))
}

/// The exit status of what ended so, 0 or 1; a refusal is told by a line `nbdj: TEXT (NUMBER)`.
pub fn exit_status<E: Write>(outcome: Result<(), Refusal>, errors: &mut E) -> u8
    ensures { result ≡ status_of outcome }
{
    match outcome {
        Ok(()) => 0,
        Err(refusal) => {
            // If not even that can be written, the status alone tells.
            let _ = tell(refusal, errors);
            1
        }
    }
}

fn tell<E: Write>(refusal: Refusal, errors: &mut E) -> io::Result<()> {
    writeln!(errors, "nbdj: {refusal} ({})", refusal.number())
}

fn format<D: Disk, W: Write>(
    alloc: Global,
    mut disk: D,
    geometry: Geometry,
    output: &mut W,
) -> (Result<(), Refusal>, D)
    requires { D.extent disk ≡ device_bytes_of geometry.blocks geometry.area }
    ensures { IsFormatCarriedOut D.state D.faults D.extent D.honest disk result.1 geometry result.0 }
{
    match Keeper::format(alloc, &mut disk, geometry) {
        Ok(()) => {
            let result = print_count("formatted", geometry.device_bytes(), output);
            (result, disk)
        }
        Err(fault) => (Err(Refusal::from(fault)), disk),
    }
}

fn recover<D: Disk, W: Write>(
    alloc: Global,
    disk: D,
    is_json: bool,
    output: &mut W,
) -> (Result<(), Refusal>, D)
    ensures { IsRecoveryCarriedOut D.state D.faults D.extent D.honest disk result.1 result.0 }
{
    match Keeper::open(alloc, disk) {
        Ok(keeper) => {
            let result = print_recovered(alloc, keeper.count(), is_json, output);
            (result, keeper.into_disk())
        }
        Err((fault, disk)) => (Err(Refusal::from(fault)), disk),
    }
}

// Prints the number of the last command.
fn print_recovered<W: Write>(
    alloc: Global,
    commands: u64,
    is_json: bool,
    output: &mut W,
) -> Result<(), Refusal>
    ensures { IsPrinted result }
{
    if !is_json {
        return print_count("commands", commands, output);
    }
    match json_line(alloc, json!(in alloc; {"commands": commands})) {
        Ok(line) => print(output, line),
        // A line for which there is no memory can't be printed.
        Err(_) => Err(Refusal::StreamFault),
    }
}

fn json_line(alloc: Global, value: Result<Value, AllocError>) -> Result<String, AllocError> {
    value?.to_string(alloc)
}

fn upgrade<D: Disk, W: Write>(alloc: Global, disk: D, output: &mut W) -> (Result<(), Refusal>, D)
    ensures { IsUpgradeCarriedOut D.state D.faults D.extent D.honest disk result.1 result.0 }
{
    match Keeper::upgrade(alloc, disk) {
        Ok(keeper) => {
            let printed = print(output, "layout 2");
            (printed, keeper.into_disk())
        }
        Err((refused, disk)) => (Err(Refusal::from(refused)), disk),
    }
}

// Prints what the device holds, and gives the exit status.
fn check<D: Disk, W: Write, E: Write>(
    alloc: Global,
    mut disk: D,
    is_json: bool,
    output: &mut W,
    errors: &mut E,
) -> (u8, D)
    ensures { D.honest disk → IsOnlyRead (D.state disk) (D.state result.1) }
{
    let outcome = match Keeper::inspect(alloc, &mut disk) {
        Ok(report) if is_json => print_json(alloc, &report, output),
        Ok(report) => print_report(&report, output),
        Err(fault) => Err(Refusal::from(fault)),
    };
    (check_status(outcome, errors), disk)
}

// The exit status of a check that found the device bad.
const BAD_CONTENT: u8 = 3;

/// The exit status of what only reads a device and ended so: 3 where the device is bad, else as that of any other plan.
pub fn check_status<E: Write>(outcome: Result<(), Refusal>, errors: &mut E) -> u8 {
    let is_bad = match &outcome {
        Err(refusal) => is_of_content(*refusal),
        Ok(()) => false,
    };
    let status = exit_status(outcome, errors);
    if is_bad { BAD_CONTENT } else { status }
}

// Whether the refusal says that what the device holds is bad.
fn is_of_content(refusal: Refusal) -> bool {
    matches!(
        refusal,
        Refusal::BadMap | Refusal::NoHeader | Refusal::BadHeader | Refusal::DamagedGroup
    )
}

fn print_report<W: Write>(report: &Report, output: &mut W) -> Result<(), Refusal> {
    if report.layout == Layout::Two {
        print(output, "layout 2")?;
    }
    for (name, count) in counts_of(report) {
        print_count(name, count, output)?;
    }
    Ok(())
}

fn print_json<W: Write>(alloc: Global, report: &Report, output: &mut W) -> Result<(), Refusal> {
    print(output, json_line(alloc, report_json(alloc, report))?)
}

// What the lines of a report say, and the layout always.
fn report_json(alloc: Global, report: &Report) -> Result<Value, AllocError> {
    json!(in alloc; {
        "layout": if report.layout == Layout::Two { 2 } else { 1 },
        "blocks": report.blocks,
        "mode": report.before_last,
        "base": report.base,
        "commands": report.commands,
        "data": report.data_blocks,
        "zero": report.zero_blocks,
        "hole": report.hole_blocks
    })
}

// The lines of a report that hold a count.
fn counts_of(report: &Report) -> [(&'static str, u64); 7] {
    [
        ("blocks", report.blocks),
        ("mode", u64::from(report.before_last)),
        ("base", report.base),
        ("commands", report.commands),
        ("data", report.data_blocks),
        ("zero", report.zero_blocks),
        ("hole", report.hole_blocks),
    ]
}
