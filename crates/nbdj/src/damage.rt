//! Where an image is damaged, as far as its structure tells: a walk over the journal's groups, the map and the header slots that is read
//! from docs/FORMATS.md alone, and changes nothing.

use disk_model::FileDisk;
use front_end::Refusal;
use header_slots::{Header, SLOT_BYTES, read_current};
use image_model::{BLOCK_BYTES, Side};
use std::alloc::{AllocError, Global};
use std::fs::File;
use std::io;
use std::os::unix::fs::FileExt;

// Where the first area begins.
const AREAS_FROM: u64 = 8_192;

// A gate that is open.
const OPEN: u8 = 1;

// The bytes of a gate and the head of a group after it, and of the head of a command.
const GROUP_HEAD: u64 = 17;

const COMMAND_HEAD: u64 = 13;

const MOST_BODY: u64 = 8_388_608;

const MOST_PUT_BLOCKS: u64 = 257;

// The kinds of a command.
const PUT: u8 = 1;

const HOLE: u8 = 2;

const EDGED_HOLE: u8 = 4;

const EDGED_ALLOCATED: u8 = 5;

// The bit of the edges that says that the last block is one.
const TAIL: u8 = 2;

// The bytes of a map that are read at once.
const PIECE: usize = 4_096;

/// A group of the journal, or what stands in its place.
#[derive(Clone, Copy)]
pub struct FoundGroup {
    pub area: u64,
    /// Counted from 1 in its area.
    pub number: u64,
    /// Where its gate stands in the file.
    pub at: u64,
    /// The number that its first command has to have.
    pub first: u64,
    /// How many commands it has, and its bytes with the gate.
    pub count: u64,
    pub bytes: u64,
    /// The rule that it breaks, if it is damaged.
    pub broken: Option<&'static str>,
}

/// A walk over the groups of the areas in use.
#[derive(Drop)]
pub struct GroupWalk<'a> {
    file: &'a File,
    header: Header,
    // How many areas are behind, and where in this one the next gate is.
    areas: u64,
    gate: u64,
    groups: u64,
    next: u64,
    is_over: bool,
}

impl<'a> GroupWalk<'a> {
    /// Over those of an image with this header.
    pub fn new(file: &'a File, header: Header) -> GroupWalk<'a> {
        GroupWalk {
            file,
            header,
            areas: 0,
            gate: 0,
            groups: 0,
            next: header.base.saturating_add(1),
            is_over: false,
        }
    }

    /// The next group; None after the last one, or after a damaged one.
    pub fn next_group(&mut self) -> io::Result<Option<FoundGroup>> {
        let in_use = u64::from(self.header.before_last).saturating_add(1);
        let size = u64::from(self.header.geometry.area_size());
        let ring = u64::from(self.header.geometry.areas()).max(1);
        for _ in 0..ring {
            if self.is_over || self.areas >= in_use {
                return Ok(None);
            }
            let first = u64::from(self.header.first_area);
            let area = first.saturating_add(self.areas) % ring;
            let from = AREAS_FROM.saturating_add(area.saturating_mul(size));
            let at = from.saturating_add(self.gate);
            if self.gate < size && byte_at(self.file, at)? == OPEN {
                let found = self.group_at(area, at, size)?;
                self.gate = self.gate.saturating_add(found.bytes);
                self.next = self.next.saturating_add(found.count);
                self.is_over = found.broken.is_some();
                return Ok(Some(found));
            }
            self.areas = self.areas.saturating_add(1);
            self.gate = 0;
            self.groups = 0;
        }
        Ok(None)
    }

    // The group after an open gate.
    fn group_at(&mut self, area: u64, at: u64, size: u64) -> io::Result<FoundGroup> {
        self.groups = self.groups.saturating_add(1);
        let mut found = FoundGroup {
            area,
            number: self.groups,
            at,
            first: self.next,
            count: 0,
            bytes: 0,
            broken: None,
        };
        let mut head = [0; 16];
        if self.gate.saturating_add(GROUP_HEAD) > size {
            found.broken = Some("its head passes the end of the area");
            return Ok(found);
        }
        self.file.read_exact_at(&mut head, at.saturating_add(1))?;
        let length = number_at(&head, 0, 4);
        let first = number_at(&head, 4, 8);
        let count = number_at(&head, 12, 4);
        let bytes = GROUP_HEAD.saturating_add(length);
        found.broken = if length > MOST_BODY || self.gate.saturating_add(bytes) >= size {
            Some("its length passes the limit, or the end of the area")
        } else if count == 0 {
            Some("it has no command")
        } else if first != self.next {
            Some("its first number isn't the next one")
        } else if first.checked_add(count - 1).is_none() {
            Some("its numbers pass the last one")
        } else {
            self.broken_command(at.saturating_add(GROUP_HEAD), length, count)?
        };
        found.count = count;
        found.bytes = bytes;
        Ok(found)
    }

    // The rule that a command of these bytes breaks.
    fn broken_command(
        &self,
        from: u64,
        length: u64,
        count: u64,
    ) -> io::Result<Option<&'static str>> {
        const PAST: Option<&str> = Some("its commands pass its length");
        let mut at = 0u64;
        for _ in 0..count {
            let mut head = [0; 14];
            if at.saturating_add(COMMAND_HEAD) > length {
                return Ok(PAST);
            }
            let place = from.saturating_add(at);
            self.file.read_exact_at(&mut head[..13], place)?;
            let kind = head[0];
            let mut body = 0u64;
            let mut edges = 0;
            if kind == PUT {
                body = number_at(&head, 9, 4).saturating_mul(BLOCK_BYTES);
            } else if kind == EDGED_HOLE || kind == EDGED_ALLOCATED {
                if at.saturating_add(COMMAND_HEAD) >= length {
                    return Ok(PAST);
                }
                edges = byte_at(self.file, place.saturating_add(COMMAND_HEAD))?;
                let blocks = u64::from(edges & 1).saturating_add(u64::from(edges >> 1 & 1));
                body = blocks.saturating_mul(BLOCK_BYTES).saturating_add(1);
            }
            if let Some(rule) = self.broken_range(kind, edges, &head) {
                return Ok(Some(rule));
            }
            at = at.saturating_add(COMMAND_HEAD).saturating_add(body);
            if at > length {
                return Ok(PAST);
            }
        }
        if at != length {
            return Ok(Some("its commands end before it does"));
        }
        Ok(None)
    }

    // The rule that the head of a command breaks.
    fn broken_range(&self, kind: u8, edges: u8, head: &[u8]) -> Option<&'static str> {
        let first = number_at(head, 1, 8);
        let blocks = number_at(head, 9, 4);
        let is_edged = kind == EDGED_HOLE || kind == EDGED_ALLOCATED;
        if !(PUT..=EDGED_ALLOCATED).contains(&kind) {
            return Some("a command has no kind that there is");
        }
        if is_edged && !(1..=3).contains(&edges) {
            return Some("a command has edges that there aren't");
        }
        let least = match kind {
            HOLE => 0,
            EDGED_HOLE | EDGED_ALLOCATED if edges & TAIL == TAIL => 2,
            _ => 1,
        };
        if blocks < least || (kind == PUT && blocks > MOST_PUT_BLOCKS) {
            return Some("a command has too few blocks, or too many");
        }
        if first.saturating_add(blocks) > self.header.geometry.blocks {
            return Some("a command passes the end of the image");
        }
        None
    }
}

// The byte at a place of a file.
fn byte_at(file: &File, at: u64) -> io::Result<u8> {
    let mut byte = [0; 1];
    file.read_exact_at(&mut byte, at)?;
    Ok(byte[0])
}

// The number that some bytes spell, the highest first.
fn number_at(bytes: &[u8], from: usize, count: usize) -> u64 {
    bytes.iter().skip(from).take(count).fold(0u64, |sum, byte| {
        sum.wrapping_mul(256).wrapping_add(u64::from(*byte))
    })
}

/// Where the image in this file is damaged, if the refusal is of damage and the place can be told.
pub fn place_of(alloc: Global, file: File, size: u64, refusal: Refusal) -> Option<String> {
    match refusal {
        Refusal::BadHeader => place_in_header(alloc, &file).ok()?.ok(),
        Refusal::DamagedGroup | Refusal::BadMap => {
            let mut disk = FileDisk::new(file, size);
            let (header, _) = read_current(&mut disk).ok()?;
            let file = disk.into_file();
            if refusal == Refusal::BadMap {
                place_in_map(alloc, &file, &header).ok()??.ok()
            } else {
                place_in_journal(alloc, &file, header).ok()??.ok()
            }
        }
        _ => None,
    }
}

type Told = Result<String, AllocError>;

fn place_in_journal(alloc: Global, file: &File, header: Header) -> io::Result<Option<Told>> {
    let mut walk = GroupWalk::new(file, header);
    for _ in 0..u64::MAX {
        let Some(found) = walk.next_group()? else {
            break;
        };
        if let Some(rule) = found.broken {
            let FoundGroup {
                area,
                number,
                at,
                first,
                ..
            } = found;
            return Ok(Some(format!(in alloc;
                "area {area}, group {number} at offset {at}, whose first write is number {first}: {rule}"
            )));
        }
    }
    Ok(None)
}

fn place_in_map(alloc: Global, file: &File, header: &Header) -> io::Result<Option<Told>> {
    let geometry = header.geometry;
    let slot = match header.map_slot {
        Side::Zero => 0u64,
        Side::One => 1,
    };
    let from = AREAS_FROM
        .saturating_add(u64::from(geometry.area).saturating_mul(2))
        .saturating_add(geometry.map_bytes().saturating_mul(slot));
    let mut piece = [0; PIECE];
    for at in 0..geometry.map_bytes() / PIECE as u64 {
        let place = at.saturating_mul(PIECE as u64);
        file.read_exact_at(&mut piece, from.saturating_add(place))?;
        for (within, byte) in piece.iter().enumerate() {
            let place = place.saturating_add(within as u64);
            let codes = [byte & 3, byte >> 2 & 3, byte >> 4 & 3, byte >> 6 & 3];
            for (pair, code) in codes.iter().enumerate() {
                let code = *code;
                let block = place.saturating_mul(4).saturating_add(pair as u64);
                if code == 3 || (code != 0 && block >= geometry.blocks) {
                    let offset = from.saturating_add(place);
                    return Ok(Some(format!(in alloc;
                        "map slot {slot}, the byte at offset {offset}: block {block} has code {code}"
                    )));
                }
            }
        }
    }
    Ok(None)
}

fn place_in_header(alloc: Global, file: &File) -> io::Result<Told> {
    let zero = generation_at(file, 0)?;
    let one = generation_at(file, SLOT_BYTES)?;
    Ok(match (zero, one) {
        (Some(zero), Some(one)) if zero == one => format!(in alloc;
            "both header slots, at offsets 0 and {SLOT_BYTES}, have generation {zero}"
        ),
        (zero, one) if one > zero => format!(in alloc;
            "header slot 1 at offset {SLOT_BYTES}, or the file's length, breaks a rule"
        ),
        _ => format!(in alloc; "header slot 0 at offset 0, or the file's length, breaks a rule"),
    })
}

// The generation of the header at this offset, if its gate is open.
fn generation_at(file: &File, from: u64) -> io::Result<Option<u64>> {
    let mut head = [0; 17];
    file.read_exact_at(&mut head, from)?;
    if head[0] != OPEN {
        return Ok(None);
    }
    Ok(Some(number_at(&head, 9, 8)))
}
