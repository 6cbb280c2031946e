ghost use Rattle.std.specs.Prelude.{◌≡◌, ◌≤◌, ◌<◌, IfSome, MatchOption};
ghost use Rattle.image_model.specs.declared.layout.Layout.TheVariants as Layout;

use disk_model::{CallKind, CrashChoice};
use export_steps::Mode;
use front_end::{LEAST_FRAMES, MOST_FRAMES};
use image_model::{BLOCK_BYTES, Geometry, Layout};
use std::alloc::{AllocError, Global};
use std::str;

/// The most connections of a script, which name them from 1 on.
pub const CONNECTIONS: usize = 16;

// The most bytes that a WRITE may announce: a server reads no more.
const MOST_WRITTEN: u32 = 33_554_432;

/// A line of a script, by `docs/FORMATS.md`.
#[derive(Clone, Copy)]
pub enum Line {
    /// A new device.
    Format(Setup),
    Step(StepLine),
    /// The k-th call of this kind from now on fails.
    Fault(CallKind, u64),
    /// The device crashes now.
    Crash(CrashChoice),
    /// It crashes at the k-th call from now on.
    CrashAt(u64, CrashChoice),
    /// The device is opened again, and made one of layout 2.
    Upgrade,
}

/// A step; a connection is named by its place, from 0 on.
#[derive(Clone, Copy)]
pub enum StepLine {
    /// A connection sends a WRITE.
    Put(usize, Filling),
    /// A connection sends a TRIM or a WRITE_ZEROES.
    Clear(usize, Clearing, Range),
    /// A connection sends a READ.
    Read(usize, Range),
    /// A connection sends a BLOCK_STATUS.
    Status(usize, Range),
    /// A connection sends a FLUSH.
    Flush(usize),
    Serve(usize),
    Answer(usize),
    Seal,
    Append,
    Publish,
    Rotate,
    /// This many steps of copying, or as many as there are.
    Copy(u64),
    Map,
    Finish,
    Clean,
}

/// What a device is made with.
#[derive(Clone, Copy)]
pub struct Setup {
    // Its sizes, in layout 1.
    geometry: Geometry,
    layout: Layout,
    ghost one: { geometry.layout ≡ Layout.One },
    /// The most blocks that may wait for the checkpoint: 512 to 65,536.
    pub frames: u32,
    pub mode: Mode,
    ghost frames_few: { frames ≤ 65536 },
}

impl Setup {
    /// The device's geometry; none where layout 2 would have areas below their limit: refusal 22 (area too small).
    pub fn geometry(&self) -> Option<Geometry>
        ensures { MatchOption result ((self.now.layout ≡ Layout.Two) × (self.now.geometry.area < 4194304))
            (λ geometry. (geometry.blocks ≡ self.now.geometry.blocks) × (geometry.area ≡ self.now.geometry.area) × (geometry.layout ≡ self.now.layout)) }
    {
        match self.layout {
            Layout::One => Some(self.geometry),
            Layout::Two => self.geometry.with_layout_two(),
        }
    }
}

/// The range that a request names, in bytes, and whether it has FUA.
#[derive(Clone, Copy)]
pub struct Range {
    pub offset: u64,
    pub length: u32,
    pub fua: bool,
}

/// A WRITE of bytes that are all the same.
#[derive(Clone, Copy)]
pub struct Filling {
    pub range: Range,
    pub byte: u8,
}

/// By which request bytes are made zero.
#[derive(Clone, Copy)]
pub enum Clearing {
    /// A TRIM.
    Trim,
    /// A WRITE_ZEROES, which may leave holes.
    Holes,
    /// A WRITE_ZEROES with NO_HOLE.
    Zeroes,
}

/// The line that a text is; none where it is no step.
pub fn parse(alloc: Global, text: &[u8]) -> Result<Option<Line>, AllocError> {
    let Ok(text) = str::from_utf8(text) else {
        return Ok(None);
    };
    let words: Vec<&str> = text.split(' ').collect(alloc)?;
    Ok(line_of(&words))
}

fn line_of(words: &[&str]) -> Option<Line> {
    let [word, operands @ ..] = words else {
        return None;
    };
    match *word {
        "format" => format(operands),
        "upgrade" if operands.is_empty() => Some(Line::Upgrade),
        "fault" => fault(operands),
        "crash" => crash(operands),
        word => Some(Line::Step(step_of(word, operands)?)),
    }
}

fn fault(operands: &[&str]) -> Option<Line> {
    match operands {
        [kind, k] => Some(Line::Fault(kind_of(kind)?, count_of(k)?)),
        _ => None,
    }
}

fn crash(operands: &[&str]) -> Option<Line> {
    match operands {
        [fill] => Some(Line::Crash(fill_of(fill)?)),
        ["at", k, fill] => Some(Line::CrashAt(count_of(k)?, fill_of(fill)?)),
        _ => None,
    }
}

// How a device is made, by the words after its sizes.
fn ways_of(words: &[&str]) -> Option<(Mode, Layout)> {
    let (mode, words) = match words {
        ["writethrough", rest @ ..] => (Mode::Writethrough, rest),
        ["ordered", rest @ ..] => (Mode::Ordered, rest),
        _ => (Mode::Writeback, words),
    };
    match words {
        [] => Some((mode, Layout::One)),
        ["layout2"] => Some((mode, Layout::Two)),
        _ => None,
    }
}

fn step_of(word: &str, operands: &[&str]) -> Option<StepLine> {
    match operands {
        [] => step_alone(word),
        [operand] => step_with(word, operand),
        [connection, request @ ..] if word == "send" => sent(connection_of(connection)?, request),
        _ => None,
    }
}

// The steps of one word.
const ALONE: [(&str, StepLine); 8] = [
    ("seal", StepLine::Seal),
    ("append", StepLine::Append),
    ("publish", StepLine::Publish),
    ("rotate", StepLine::Rotate),
    ("copy", StepLine::Copy(1)),
    ("map", StepLine::Map),
    ("finish", StepLine::Finish),
    ("clean", StepLine::Clean),
];

// A step of one word.
fn step_alone(word: &str) -> Option<StepLine> {
    for (name, step) in &ALONE {
        if *name == word {
            return Some(*step);
        }
    }
    None
}

// A step of a connection, or this many copies.
fn step_with(word: &str, operand: &str) -> Option<StepLine> {
    match word {
        "serve" => Some(StepLine::Serve(connection_of(operand)?)),
        "answer" => Some(StepLine::Answer(connection_of(operand)?)),
        "copy" => Some(StepLine::Copy(count_of(operand)?)),
        _ => None,
    }
}

// What a connection sends. A last word sets FUA of all but a FLUSH.
fn sent(connection: usize, words: &[&str]) -> Option<StepLine> {
    match words {
        ["flush"] => Some(StepLine::Flush(connection)),
        [request @ .., "fua"] => ranged(connection, request, true),
        _ => ranged(connection, words, false),
    }
}

// A request that names a range, of blocks or of bytes.
fn ranged(connection: usize, words: &[&str], fua: bool) -> Option<StepLine> {
    match words {
        [word, from, count] => plainly_ranged(connection, word, from, count, fua),
        [word, one, two, three] => ranged_with(connection, word, one, two, three, fua),
        _ => None,
    }
}

// One that names its range and a byte, or by which request.
fn ranged_with(
    connection: usize,
    word: &str,
    one: &str,
    two: &str,
    three: &str,
    fua: bool,
) -> Option<StepLine> {
    match word {
        "put" => put(connection, blocks_of(one, two, fua), three),
        "bytes" => put(connection, bytes_of(one, two, fua), three),
        "clear" => cleared(connection, one, Clearing::Trim, blocks_of(two, three, fua)),
        "zeroes" => cleared(connection, three, Clearing::Holes, bytes_of(one, two, fua)),
        _ => None,
    }
}

// One that names nothing but its range.
fn plainly_ranged(
    connection: usize,
    word: &str,
    from: &str,
    count: &str,
    fua: bool,
) -> Option<StepLine> {
    match word {
        "trim" => clear(connection, Clearing::Trim, bytes_of(from, count, fua)),
        "read" => Some(StepLine::Read(connection, blocks_of(from, count, fua)?)),
        "status" => Some(StepLine::Status(connection, blocks_of(from, count, fua)?)),
        _ => None,
    }
}

// One by which bytes are made zero: where they may be holes, by this request.
fn cleared(
    connection: usize,
    kind: &str,
    hole: Clearing,
    range: Option<Range>,
) -> Option<StepLine> {
    match kind {
        "hole" => clear(connection, hole, range),
        "zero" => clear(connection, Clearing::Zeroes, range),
        _ => None,
    }
}

fn clear(connection: usize, clearing: Clearing, range: Option<Range>) -> Option<StepLine> {
    Some(StepLine::Clear(connection, clearing, range?))
}

fn format(operands: &[&str]) -> Option<Line> {
    let [blocks, area, frames, ways @ ..] = operands else {
        return None;
    };
    let (mode, layout) = ways_of(ways)?;
    let geometry = geometry_of(blocks, area)?;
    let frames = frames_of(frames)?;
    Some(Line::Format(Setup {
        geometry,
        layout,
        frames,
        mode,
    }))
}

// The sizes of a device, in layout 1.
fn geometry_of(blocks: &str, area: &str) -> Option<Geometry>
    ensures { IfSome result (λ geometry. geometry.layout ≡ Layout.One) }
{
    let area = u32::try_from(number_of(area)?).ok()?;
    Geometry::new(number_of(blocks)?, area)
}

// The most blocks that may wait for the checkpoint.
fn frames_of(word: &str) -> Option<u32>
    ensures { IfSome result (λ frames. frames ≤ 65536) }
{
    let frames = number_of(word)?;
    if !(LEAST_FRAMES..=MOST_FRAMES).contains(&frames) {
        return None;
    }
    Some(frames as u32)
}

// A WRITE, if it isn't longer than what a server reads.
fn put(connection: usize, range: Option<Range>, byte: &str) -> Option<StepLine> {
    let range = range?;
    if range.length > MOST_WRITTEN {
        return None;
    }
    let byte = byte_of(byte)?;
    Some(StepLine::Put(connection, Filling { range, byte }))
}

// A range of whole blocks.
fn blocks_of(first: &str, blocks: &str, fua: bool) -> Option<Range> {
    range_of(first, blocks, BLOCK_BYTES, fua)
}

// A range of bytes.
fn bytes_of(offset: &str, length: &str, fua: bool) -> Option<Range> {
    range_of(offset, length, 1, fua)
}

// The range from a place on, both in units of `unit` bytes, if its length fits 32 bits.
fn range_of(from: &str, count: &str, unit: u64, fua: bool) -> Option<Range> {
    let offset = scaled(from, unit)?;
    let length = u32::try_from(scaled(count, unit)?).ok()?;
    Some(Range {
        offset,
        length,
        fua,
    })
}

// The bytes of `count` units.
fn scaled(count: &str, unit: u64) -> Option<u64> {
    number_of(count)?.checked_mul(unit)
}

// A number in decimal digits, without a sign.
fn number_of(word: &str) -> Option<u64> {
    if word.starts_with('+') {
        return None;
    }
    word.parse().ok()
}

// A number that is at least 1.
fn count_of(word: &str) -> Option<u64> {
    match number_of(word)? {
        0 => None,
        count => Some(count),
    }
}

// The place of a connection, which is named from 1 on.
fn connection_of(word: &str) -> Option<usize>
    ensures { IfSome result (λ connection. connection < 16) }
{
    let connection = number_of(word)?;
    if connection == 0 || connection > CONNECTIONS as u64 {
        return None;
    }
    Some(connection as usize - 1)
}

fn kind_of(word: &str) -> Option<CallKind> {
    match word {
        "read" => Some(CallKind::Read),
        "write" => Some(CallKind::Write),
        "sync" => Some(CallKind::Sync),
        _ => None,
    }
}

fn fill_of(word: &str) -> Option<CrashChoice> {
    match word {
        "old" => Some(CrashChoice::Old),
        "new" => Some(CrashChoice::New),
        byte => Some(CrashChoice::Fill(byte_of(byte)?)),
    }
}

// A byte in two lower-case hexadecimal digits.
fn byte_of(word: &str) -> Option<u8> {
    match word.as_bytes() {
        [high, low] => Some(16 * digit_of(*high)? + digit_of(*low)?),
        _ => None,
    }
}

fn digit_of(digit: u8) -> Option<u8>
    ensures { IfSome result (λ value. value < 16) }
{
    match digit {
        b'0'..=b'9' => Some(digit - b'0'),
        b'a'..=b'f' => Some(digit - b'a' + 10),
        _ => None,
    }
}
