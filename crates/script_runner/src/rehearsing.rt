ghost use Rattle.std.specs.Prelude.{◌≡◌, IfOk, IfSome};
ghost use Rattle.checkpoint.specs.Recovery.{IsRecovered};
ghost use Rattle.device_image.specs.Keeps.{Keeps};
ghost use Rattle.image_model.specs.Image.{Image};
ghost use Rattle.script_runner.specs.Life.{IsLifeOf};
ghost use Rattle.script_runner.specs.inner.Life.{IsFoundFrom};
ghost use Rattle.export_steps.specs.Life.{IsNextLife};
ghost use Rattle.export_model.specs.World.{World};

use crate::answer_line::AnswerLine;
use crate::ending::{End, exit_status, failed, print, print_failed};
use crate::life::{BlockRun, Life, Told, last_answer, open};
use crate::lines::Lines;
use crate::script_line::{Line, Setup, StepLine};
use crate::stepping::carry_out;
use checkpoint::{Keeper, KeeperFault};
use disk_model::{CrashChoice, Disk, SimDisk};
use export_steps::{StepFault, next_life_law};
use front_end::Refusal;
use image_model::Kind;
use marks::{BlankBoard, BoardName};
use nbd_wire::Answer;
use std::alloc::Global;
use std::fmt::Display;
use std::io::{Read, Write};
use std::marker::Brand;

/// Runs a script from `input` on a simulated device, by `docs/FORMATS.md`, and answers the exit status: 0 if it is done, 2
/// if a line is no step, 1 if an opening or something else is refused.
///
/// The lines come one by one, and what a line prints is written before the next is read.
pub fn script<R: Read, W: Write, E: Write>(
    alloc: Global,
    input: &mut R,
    output: &mut W,
    errors: &mut E,
) -> u8 {
    exit_status(run(alloc, input, output), errors)
}

fn run<R: Read, W: Write>(alloc: Global, input: &mut R, output: &mut W) -> Result<(), End> {
    let mut lines = Lines::new(alloc, input)?;
    run_lines(alloc, &mut lines, output)
}

// Carries out the lines, life after life.
fn run_lines<R: Read, W: Write>(
    alloc: Global,
    lines: &mut Lines<&mut R>,
    output: &mut W,
) -> Result<(), End> {
    let mut course = first(alloc, lines, output)?;
    for _ in 0..u64::MAX {
        match lived(alloc, course, lines, output)? {
            Some(next) => course = next,
            None => return Ok(()),
        }
    }
    Err(End::Refused(Refusal::StreamFault))
}

// What the first life begins with: the device that the first line makes.
fn first<R: Read, W: Write>(
    alloc: Global,
    lines: &mut Lines<&mut R>,
    output: &mut W,
) -> Result<Course, End> {
    let setup = lines.setup(alloc)?;
    match begin(alloc, setup) {
        Ok(keeper) => Ok(Course {
            setup,
            keeper,
            found: None,
            hand: Hand {
                armed: CrashChoice::Old,
                cookie: 0,
            },
        }),
        Err(fault) => Err(failed(fault, output)),
    }
}

// Carries out the lines of one life of the device, on a board of its own.
fn lived<R: Read, W: Write>(
    alloc: Global,
    course: Course,
    lines: &mut Lines<&mut R>,
    output: &mut W,
) -> Result<Option<Course>, End> {
    match BlankBoard::new(alloc, course.keeper.count()) {
        Ok(blank) => course.live::<Brand, R, W>(alloc, blank, lines, output),
        Err(_) => Err(failed(KeeperFault::NoMemory, output)),
    }
}

// What goes from one life of the device to the next.
#[derive(Clone, Copy)]
struct Hand {
    // What unsynced bytes become at an armed crash.
    armed: CrashChoice,
    // The cookie of the last request.
    cookie: u64,
}

// How a life of the device ends.
#[derive(Clone, Copy)]
enum Way {
    Crash(CrashChoice),
    Upgrade,
}

// A script between two lives of its device.
struct Course {
    setup: Setup,
    keeper: Keeper<SimDisk>,
    // What the opening after a crash, or an upgrade, found; none where the device is new.
    found: Option<Vec<BlockRun>>,
    hand: Hand,
    ghost recovered: { IsRecovered keeper },
    ghost keeps: { ∥ (⟦<SimDisk as Disk>⟧.honest keeper.disk → (image : Image) × Keeps keeper (⟦<SimDisk as Disk>⟧.state keeper.disk) image keeper.count) ∥₁ },
}

// Written out, it is proved once, and not again in each function that lets such a value go.
impl Drop for Course {
    fn drop(self) {
        let Course {
            setup: _,
            keeper: _,
            found: _,
            hand: _,
        } = self;
    }
}

impl Course {
    // Carries out the lines of one life of the device, whose board gets its name here, and gives what the next life begins with if
    // this one ends by a crash or an upgrade.
    fn live<B: BoardName, R: Read, W: Write>(
        self,
        alloc: Global,
        blank: BlankBoard,
        lines: &mut Lines<&mut R>,
        output: &mut W,
    ) -> Result<Option<Course>, End>
        requires board { blank.board ≡ B.board }
        requires named { blank.opening ≡ B.opening }
        requires opening { blank.opening ≡ self.keeper.count }
    {
        let Course {
            setup,
            keeper,
            found,
            mut hand,
        } = self;
        let count = keeper.count();
        let Ok(mut life) = Life::<B, SimDisk>::begin(alloc, blank, keeper, setup) else {
            return Err(failed(KeeperFault::NoMemory, output));
        };
        let way = carry_out_all(alloc, &mut life, count, &found, &mut hand, lines, output);
        over(alloc, life, setup, hand, way, output)
    }
}

// Prints what the opening found of a device with this many commands, and carries out the lines up to the life's end; none if they
// end first.
fn carry_out_all<B: BoardName, R: Read, W: Write>(
    alloc: Global,
    life: &mut Life<B, SimDisk>,
    count: u64,
    found: &Option<Vec<BlockRun>>,
    hand: &mut Hand,
    lines: &mut Lines<&mut R>,
    output: &mut W,
) -> Result<Option<Way>, End> {
    print_found(count, found, output)?;
    for _ in 0..u64::MAX {
        let Some(line) = lines.next(alloc)? else {
            return Ok(None);
        };
        if let Some(way) = carry_out_line(alloc, life, hand, line, lines.count(), output)? {
            return Ok(Some(way));
        }
    }
    Err(End::Refused(Refusal::StreamFault))
}

// Carries out the line with this number, prints what it comes to, and says how the life ends if it does.
fn carry_out_line<B: BoardName, W: Write>(
    alloc: Global,
    life: &mut Life<B, SimDisk>,
    hand: &mut Hand,
    line: Line,
    number: u64,
    output: &mut W,
) -> Result<Option<Way>, End> {
    match line {
        Line::Format(_) => return Err(End::NotAStep(number)),
        Line::Step(line) => return step(alloc, life, hand, line, output),
        Line::Crash(choice) => return Ok(Some(Way::Crash(choice))),
        Line::Upgrade => return Ok(Some(Way::Upgrade)),
        Line::Fault(kind, k) => life.fail(kind, k),
        Line::CrashAt(k, choice) => {
            life.stop_at(k);
            hand.armed = choice;
        }
    }
    print(output, "armed")?;
    Ok(None)
}

// Carries out a step. If a stop was met, the device crashes.
fn step<B: BoardName, W: Write>(
    alloc: Global,
    life: &mut Life<B, SimDisk>,
    hand: &mut Hand,
    line: StepLine,
    output: &mut W,
) -> Result<Option<Way>, End> {
    hand.cookie = hand.cookie.wrapping_add(1);
    let told = carry_out(alloc, life, line, hand.cookie);
    if life.is_stopped() {
        print(output, "stopped")?;
        return Ok(Some(Way::Crash(hand.armed)));
    }
    tell(told, last_answer(life.log()), line, output)?;
    Ok(None)
}

// Prints what a step did.
fn tell<W: Write>(
    told: Told,
    answer: Option<&Answer>,
    line: StepLine,
    output: &mut W,
) -> Result<(), Refusal> {
    match told {
        Told::Done => print(output, "done"),
        Told::Skipped => print(output, "held"),
        Told::Failed(fault) => print_failed(number_of(fault), output),
        Told::Answered => print_answer(answer, line, output),
    }
}

// The life is over. If it ends by a crash or an upgrade the device is opened again, and the next life begins with at least what
// this one covers.
fn over<B: BoardName, W: Write>(
    alloc: Global,
    life: Life<B, SimDisk>,
    setup: Setup,
    hand: Hand,
    way: Result<Option<Way>, End>,
    output: &mut W,
) -> Result<Option<Course>, End>
    ensures { IfOk result (λ next. IfSome next (λ next. (world : World) → IsLifeOf ⟦<SimDisk as Disk>⟧.state ⟦<SimDisk as Disk>⟧.faults ⟦<SimDisk as Disk>⟧.honest world life.order life.keeper life.bench
        → (found : Image) × IsNextLife world found next.keeper.count)) }
{
    next_life_law::<SimDisk>();
    let (disk, _log) = life.end();
    let Some(way) = way? else {
        return Ok(None);
    };
    let (keeper, runs) = open_after(alloc, disk, hand.armed, way, output)?;
    Ok(Some(Course {
        setup,
        keeper,
        found: Some(runs),
        hand,
    }))
}

// Opens a device after a crash, or makes it one of layout 2. What wasn't stored is lost.
fn open_after<W: Write>(
    alloc: Global,
    mut disk: SimDisk,
    armed: CrashChoice,
    way: Way,
    output: &mut W,
) -> Result<(Keeper<SimDisk>, Vec<BlockRun>), End>
    ensures recovered { IfOk result (λ opened. IsRecovered opened.0) }
    ensures keeps { IfOk result (λ opened. (image : Image) × Keeps opened.0 (⟦<SimDisk as Disk>⟧.state opened.0.disk) image opened.0.count) }
    ensures found { IfOk result (λ opened. (image : Image) × IsFoundFrom (⟦<SimDisk as Disk>⟧.state disk) image opened.0.count) }
{
    match way {
        Way::Crash(choice) => {
            disk.crash(choice);
            open_again(alloc, disk, armed, false, output)
        }
        Way::Upgrade => open_again(alloc, disk, armed, true, output),
    }
}

// A new device, formatted and opened.
fn begin(alloc: Global, setup: Setup) -> Result<Keeper<SimDisk>, KeeperFault>
    ensures recovered { IfOk result IsRecovered }
    ensures keeps { IfOk result (λ keeper. (image : Image) × Keeps keeper (⟦<SimDisk as Disk>⟧.state keeper.disk) image keeper.count) }
{
    let Some(geometry) = setup.geometry() else {
        return Err(KeeperFault::AreaSmall);
    };
    let mut disk = SimDisk::new(alloc, geometry.device_bytes())?;
    Keeper::format(alloc, &mut disk, geometry)?;
    match Keeper::open(alloc, disk) {
        Ok(keeper) => Ok(keeper),
        Err((fault, _disk)) => Err(fault),
    }
}

// Opens a device after a crash, or makes it one of layout 2. If an armed crash falls into that, the device crashes and is opened
// once more.
fn open_again<W: Write>(
    alloc: Global,
    disk: SimDisk,
    armed: CrashChoice,
    upgrades: bool,
    output: &mut W,
) -> Result<(Keeper<SimDisk>, Vec<BlockRun>), End>
    ensures recovered { IfOk result (λ opened. IsRecovered opened.0) }
    ensures keeps { IfOk result (λ opened. (image : Image) × Keeps opened.0 (⟦<SimDisk as Disk>⟧.state opened.0.disk) image opened.0.count) }
    ensures found { IfOk result (λ opened. (image : Image) × IsFoundFrom (⟦<SimDisk as Disk>⟧.state disk) image opened.0.count) }
{
    match open(alloc, disk, upgrades) {
        Ok(opened) => Ok(opened),
        Err((fault, mut disk)) => {
            if !disk.is_stopped() {
                return Err(failed(fault, output));
            }
            print(output, "stopped")?;
            disk.crash(armed);
            match open(alloc, disk, false) {
                Ok(opened) => Ok(opened),
                Err((fault, _disk)) => Err(failed(fault, output)),
            }
        }
    }
}

// Prints the answer that was given last, to the connection of this line.
fn print_answer<W: Write>(
    answer: Option<&Answer>,
    line: StepLine,
    output: &mut W,
) -> Result<(), Refusal> {
    match (answer, line) {
        (Some(answer), StepLine::Answer(connection)) => {
            let connection = name_of(connection);
            print(output, AnswerLine { connection, answer })
        }
        _ => print(output, "held"),
    }
}

// Prints what an opening found of a device with this many commands; none where it is new.
fn print_found<W: Write>(
    count: u64,
    found: &Option<Vec<BlockRun>>,
    output: &mut W,
) -> Result<(), Refusal> {
    match found {
        None => print(output, "done"),
        Some(runs) => print_opened(count, runs, output),
    }
}

fn print_opened<W: Write>(count: u64, runs: &[BlockRun], output: &mut W) -> Result<(), Refusal> {
    print(output, format_args!("opened {count}"))?;
    for run in runs {
        let state = match run.kind {
            Kind::Data => 'd',
            Kind::Zero => 'z',
            Kind::Hole => 'h',
        };
        print(
            output,
            format_args!("run {} {} {state} {:02x}", run.first, run.blocks, run.byte),
        )?;
    }
    Ok(())
}

// How a script names a connection: from 1 on.
fn name_of(connection: usize) -> usize {
    connection.saturating_add(1)
}

// The number of a refusal of a step.
fn number_of(fault: StepFault) -> u8 {
    match fault {
        StepFault::NoMemory => 0,
        StepFault::DeviceFault => 1,
        StepFault::NumbersFull => 9,
        StepFault::FailedBefore => 16,
    }
}
