use bitflags::Flags;
use export_model::{Event, Mode};
use image_model::{Edit, Kind};
use nbd_wire::{Answer, CommandFlags, FLUSH, Request, RequestHead, TRIM, WRITE, WRITE_ZEROES};
use plain_image::PlainImage;
use script_runner::PlayedLife;
use std::alloc::{AllocError, Global};

/// The most connections of a script.
const CONNECTIONS: usize = 16;

/// What a run promises of every later opening.
#[derive(Drop)]
pub struct Promise {
    /// What the write commands ask for, in the order of their numbers.
    pub edits: Vec<Edit>,
    /// This many of the first of them are there: all that were answered before a FLUSH was sent that is answered Ok, and all
    /// that wait until they are stored and are answered Ok. In ordered an answer promises nothing of what is stored: they are those
    /// that the last opening found.
    pub covered: u64,
    // Whether each upgrade found what was promised before it.
    kept: bool,
}

impl Promise {
    /// What these lives of a device promise.
    pub fn new(alloc: Global, lives: &[PlayedLife], mode: Mode) -> Result<Promise, AllocError> {
        let mut reading = Reading {
            mode,
            open: Vec::new(alloc),
            edits: Vec::new(alloc),
            answered: 0,
            covered: 0,
            kept: true,
        };
        for life in lives {
            reading.life(alloc, life)?;
        }
        Ok(reading.promise())
    }

    /// The image of `blocks` blocks after the first `count` commands; none if there are fewer, if one of them has no place in it,
    /// or if an upgrade had lost what was promised.
    pub fn image(
        &self,
        alloc: Global,
        blocks: u32,
        count: u64,
    ) -> Result<Option<PlainImage>, AllocError> {
        let mut image = PlainImage::new(alloc, blocks)?;
        if !self.kept || count > self.edits.len() as u64 {
            return Ok(None);
        }
        if !apply_all(&mut image, &self.edits[..count as usize]) {
            return Ok(None);
        }
        Ok(Some(image))
    }
}

// Carries out the edits, up to the first that has no place in the image; whether there was none.
fn apply_all(image: &mut PlainImage, edits: &[Edit]) -> bool {
    for edit in edits {
        if image.apply(edit).is_err() {
            return false;
        }
    }
    true
}

// A number that no command has: what waits for it is covered by no prefix.
const NO_NUMBER: u64 = u64::MAX;

// A request that a connection has open.
#[derive(Clone, Copy)]
struct Open {
    head: RequestHead,
    // Its place in the log.
    place: usize,
    // The number of its command.
    number: u64,
    // The greatest number that had been answered when it was sent.
    before: u64,
}

impl Open {
    // Its command got the place after those that these edits ask for.
    fn numbered(
        &mut self,
        alloc: Global,
        log: &[Event],
        edits: &mut Vec<Edit>,
    ) -> Result<(), AllocError> {
        if let Some(edit) = edit_at(alloc, log, self.place)? {
            self.number = append(edits, edit)?;
        }
        Ok(())
    }
}

// The logs of a device's lives, which are read from the first one's beginning.
struct Reading {
    mode: Mode,
    open: Vec<Option<Open>>,
    edits: Vec<Edit>,
    // The greatest number of a write that was answered Ok.
    answered: u64,
    covered: u64,
    kept: bool,
}

// Written out, it is proved once, and not again in each function that lets such a value go.
impl Drop for Reading {
    fn drop(self) {
        let Reading {
            mode: _,
            open: _,
            edits: _,
            answered: _,
            covered: _,
            kept: _,
        } = self;
    }
}

impl Reading {
    // What was promised up to here.
    fn promise(self) -> Promise {
        let Reading {
            mode: _,
            open: _,
            edits,
            answered: _,
            covered,
            kept,
        } = self;
        Promise {
            edits,
            covered,
            kept,
        }
    }

    // Reads the log of a life.
    fn life(&mut self, alloc: Global, life: &PlayedLife) -> Result<(), AllocError> {
        self.begin(alloc, life.opening)?;
        for (place, event) in life.log.iter().enumerate() {
            self.event(alloc, place, event, &life.log)?;
        }
        Ok(())
    }

    // Reads what stands at this place of a log.
    fn event(
        &mut self,
        alloc: Global,
        place: usize,
        event: &Event,
        log: &[Event],
    ) -> Result<(), AllocError> {
        match event {
            Event::Sent(connection, request) => self.sent(*connection, place, request.head()),
            Event::Numbered(connection, _) => return self.numbered(alloc, *connection, log),
            Event::Answered(connection, Answer::Done) => self.done(*connection),
            _ => {}
        }
        Ok(())
    }

    // A life begins with the first commands up to this number, which are stored. The others are lost, as are all requests.
    fn begin(&mut self, alloc: Global, opening: u64) -> Result<(), AllocError> {
        self.kept = self.kept && self.covered <= opening && opening <= self.edits.len() as u64;
        self.edits.truncate(opening as usize);
        self.open = vec![in alloc; None; CONNECTIONS]?;
        self.answered = opening;
        self.covered = opening;
        Ok(())
    }

    // A connection sent a request.
    fn sent(&mut self, connection: usize, place: usize, head: RequestHead) {
        let before = self.answered;
        if let Some(open) = self.open.get_mut(connection) {
            *open = Some(Open {
                head,
                place,
                number: NO_NUMBER,
                before,
            });
        }
    }

    // The command of a connection's request got its place in the order.
    fn numbered(
        &mut self,
        alloc: Global,
        connection: usize,
        log: &[Event],
    ) -> Result<(), AllocError> {
        match self.open.get_mut(connection) {
            Some(Some(open)) => open.numbered(alloc, log, &mut self.edits),
            _ => Ok(()),
        }
    }

    // A connection was answered Ok, without bytes or states.
    fn done(&mut self, connection: usize) {
        let open = match self.open.get(connection) {
            Some(Some(open)) => *open,
            _ => return,
        };
        match open.head.kind {
            FLUSH => self.flushed(open.before),
            WRITE | TRIM | WRITE_ZEROES => self.carried_out(open.head, open.number),
            _ => {}
        }
    }

    // A FLUSH was answered Ok, before which all up to this number were answered.
    fn flushed(&mut self, before: u64) {
        match self.mode {
            Mode::Writeback | Mode::Writethrough => self.covered = self.covered.max(before),
            Mode::Ordered => {}
        }
    }

    // The command with this head and this number was answered Ok.
    fn carried_out(&mut self, head: RequestHead, number: u64) {
        self.answered = self.answered.max(number);
        if is_durable(self.mode, head) {
            self.covered = self.covered.max(number);
        }
    }
}

// Whether a write command is answered once it is stored.
fn is_durable(mode: Mode, head: RequestHead) -> bool {
    match mode {
        Mode::Writeback => head.flags & CommandFlags::FUA.bits() != 0,
        Mode::Writethrough => true,
        Mode::Ordered => false,
    }
}

// Adds an edit after the others, and gives its number.
fn append(edits: &mut Vec<Edit>, edit: Edit) -> Result<u64, AllocError> {
    edits.push(edit)?;
    Ok(edits.len() as u64)
}

// What the request that was sent at this place of a log asks for, where it is a write command.
fn edit_at(alloc: Global, log: &[Event], place: usize) -> Result<Option<Edit>, AllocError> {
    match log.get(place) {
        Some(Event::Sent(_, request)) => edit_of(alloc, request),
        _ => Ok(None),
    }
}

// What a request asks for, where it is a write command.
fn edit_of(alloc: Global, request: &Request) -> Result<Option<Edit>, AllocError> {
    let head = request.head();
    if head.kind != WRITE {
        return Ok(clearing_of(head));
    }
    let bytes = Vec::from_slice(alloc, request.bytes())?;
    Ok(Some(Edit::Put {
        offset: head.offset,
        bytes,
    }))
}

// The same of one that makes bytes zero.
fn clearing_of(head: RequestHead) -> Option<Edit> {
    let offset = head.offset;
    let length = head.length;
    match head.kind {
        WRITE_ZEROES => Some(Edit::Zeroes {
            offset,
            length,
            kind: zeroes_of(head.flags),
        }),
        TRIM => Some(Edit::Trim { offset, length }),
        _ => None,
    }
}

// What a WRITE_ZEROES with these flags makes of whole blocks.
fn zeroes_of(flags: u16) -> Kind {
    if flags & CommandFlags::NO_HOLE.bits() != 0 {
        return Kind::Zero;
    }
    Kind::Hole
}
