ghost use Rattle.std.specs.Prelude.{◌≡◌, ℕ, take, ◌+◌, ◌≤◌, ◌<◌, ◌^◌, [], ◌∷◌, ◌++◌, length, OnOk};
ghost use Rattle.image_model.specs.Change.{change_of};
ghost use Rattle.image_model.specs.Command.{bodies_of, body_of};
ghost use Rattle.journal_format.specs.Group.{IsGroup, number_after};
ghost use Rattle.journal_format.specs.Touches.{AreWithin, ranges_of, touched_by, touched_by_changes};
ghost use Rattle.journal_format.specs.Spelling.{stored_of, clear_byte, edged_byte, edges_byte, change_head, change_bytes, group_head, group_bytes};
ghost use Rattle.journal_format.specs.declared.touch.Touch.TheVariants as Touch;

use image_model::{BLOCK_BYTES, CLOSED, Command, Edges, Kind};
use journal_format::{
    ALLOCATED_ZERO, BOTH, COMMAND_HEAD_BYTES, CommandTouch, EDGED_ALLOCATED_ZERO, EDGED_HOLE, HEAD,
    HOLE, PUT, StoredEdges, TAIL, Touch, TouchedRange,
};
use std::alloc::AllocError;
use std::marker::Model;

/// Commands with consecutive numbers, which are stored all or not at all.
///
/// A group can't be dropped: `Area::append` takes it, or `into_parts` takes it apart.
pub struct Group {
    first: u64,
    commands: Vec<Command>,
    body: u32,
}

impl Model for Group {
    ghost use Rattle.std.specs.Prelude.{◌≡◌};
    ghost use Rattle.image_model.specs.Command.{bodies_of};
    ghost use Rattle.journal_format.specs.Group.{IsGroup, Numbered};

    ghost Value = { Numbered };

    ghost view = { λ group. record { first = group.first; commands = group.commands.items } };

    ghost invariant = { λ group. IsGroup group.first group.commands.items × (group.body ≡ bodies_of group.commands.items) };
}

// The bytes of the commands in a group.
#[tactic(auto, using(std::proofs::lemmas::List::Sums::sum_by_more, std::proofs::lemmas::List::Sums::sum_by_more_le))]
fn bodies(commands: &[Command]) -> u32
    requires { bodies_of commands.now ≤ 8388608 }
    ensures { result ≡ bodies_of commands.now }
{
    let mut sum = 0u64;
    for command in commands {
        sum += command.body_bytes();
    }
    sum as u32
}

impl Group {
    /// The commands as one group, the first of them with the number `first`.
    pub fn new(first: u64, commands: Vec<Command>) -> Group
        requires { IsGroup first commands.items }
        ensures { result ≡ record { first = first; commands = commands.items } }
    {
        let body = bodies(&commands);
        Group {
            first,
            commands,
            body,
        }
    }

    /// The number of the first command, and the commands.
    pub fn into_parts(self) -> (u64, Vec<Command>)
        ensures first { result.0 ≡ self.first }
        ensures commands { result.1.items ≡ self.commands }
    {
        let Group {
            first,
            commands,
            body: _,
        } = self;
        (first, commands)
    }

    /// The number of the first command.
    pub fn first(&self) -> u64
        ensures { result ≡ self.now.first }
    {
        self.first
    }

    /// The commands, in their order.
    pub fn commands(&self) -> &[Command]
        ensures commands { result.now ≡ self.now.commands }
        ensures some { 1 ≤ length result.now }
    {
        &self.commands
    }

    // The bytes of the commands.
    pub(crate) fn body_bytes(&self) -> u32
        ensures exact { result ≡ bodies_of self.now.commands }
        ensures bounded { result ≤ 8388608 }
        ensures sound { IsGroup self.now.first self.now.commands }
    {
        self.body
    }

    // The number after the last; 0 where no number is left.
    pub(crate) fn number_after(&self) -> u64
        ensures { result ≡ number_after self.now }
    {
        self.first.wrapping_add(self.commands.len() as u64)
    }

    // The number of commands: each takes 13 bytes at least, so it fits.
    #[tactic(auto, using(crate::proofs::Bodies::count_within_bodies))]
    pub(crate) fn count(&self) -> u32
        ensures { result ≡ length self.now.commands }
    {
        self.commands.len() as u32
    }

    // Notes what the commands touch, whose bytes stand from this place of the device on.
    pub(crate) fn note(&self, place: u64, touched: &mut Vec<TouchedRange>) -> Result<(), AllocError>
        requires { place + bodies_of self.now.commands < 2 ^ 64 }
        ensures noted { OnOk result (touched.new.items ≡ touched.old.items ++ touched_by_changes place (stored_of self.now).changes) }
        ensures begins { take (length touched.old.items) touched.new.items ≡ touched.old.items }
        ensures within { (from end : ℕ) → from ≤ place → place + bodies_of self.now.commands ≤ end → AreWithin from end touched.old.items
            → AreWithin from end touched.new.items }
    {
        let mut place = place;
        for command in &self.commands {
            touched_by(place, command).note(touched)?;
            place += command.body_bytes();
        }
        Ok(())
    }

    // What is written after the group's gate: its head, its commands, and the next gate closed.
    pub(crate) fn spell(&self, buffer: &mut Vec<u8>) -> Result<(), AllocError>
        ensures spelled { OnOk result (buffer.new.items ≡ group_bytes (stored_of self.now) ++ 0 ∷ []) }
    {
        buffer.clear();
        buffer.reserve_exact(self.body as usize + 17)?;
        self.spell_commands(buffer)?;
        buffer.push(CLOSED)?;
        Ok(())
    }

    // The head of the group and its commands.
    fn spell_commands(&self, buffer: &mut Vec<u8>) -> Result<(), AllocError>
        requires { buffer.old.items ≡ [] }
        ensures { OnOk result (buffer.new.items ≡ group_bytes (stored_of self.now)) }
    {
        spell_group_head(self.body, self.first, self.count(), buffer)?;
        for command in &self.commands {
            spell_command(command, buffer)?;
        }
        Ok(())
    }
}

// What the command touches, whose bytes stand from this place of the device on.
fn touched_by(place: u64, command: &Command) -> CommandTouch
    requires on_device { place + body_of command.now < 2 ^ 64 }
    requires small { body_of command.now ≤ 8388608 }
    ensures { ranges_of result ≡ touched_by place (change_of command.now) }
{
    let data = place + COMMAND_HEAD_BYTES as u64;
    match command {
        Command::Put { first, bytes } => CommandTouch {
            range: TouchedRange {
                first: *first,
                blocks: (bytes.len() as u64 / BLOCK_BYTES) as u32,
                touch: Touch::Put(data),
            },
            edges: None,
        },
        Command::Clear {
            first,
            blocks,
            kind,
        } => CommandTouch {
            range: cleared(*first, *blocks, *kind),
            edges: None,
        },
        Command::Edged {
            first,
            blocks,
            kind,
            edges,
            bytes,
        } => CommandTouch {
            range: cleared(*first, *blocks, *kind),
            edges: Some(StoredEdges {
                edges: *edges,
                place: data + 1,
                blocks: bytes.len() as u64 / BLOCK_BYTES,
            }),
        },
    }
}

// Blocks that were cleared to this state.
fn cleared(first: u64, blocks: u32, kind: Kind) -> TouchedRange
    ensures { result ≡ record { first = first; blocks = blocks; touch = Touch.Clear kind } }
{
    TouchedRange {
        first,
        blocks,
        touch: Touch::Clear(kind),
    }
}

// The head of a group after its gate: the length of its body, its first number, its count of commands.
#[tactic(auto, unfolding(journal_format::specs::Spelling::group_head))]
fn spell_group_head(
    body: u32,
    first: u64,
    count: u32,
    buffer: &mut Vec<u8>,
) -> Result<(), AllocError>
    ensures { OnOk result (buffer.new.items ≡ buffer.old.items ++ group_head body first count) }
{
    buffer.extend_from_slice(&body.to_be_bytes())?;
    buffer.extend_from_slice(&first.to_be_bytes())?;
    buffer.extend_from_slice(&count.to_be_bytes())
}

// A command of a group: its head, and its bytes, with edges after the byte that says which.
#[tactic(auto, unfolding(journal_format::specs::Spelling::change_bytes))]
fn spell_command(command: &Command, buffer: &mut Vec<u8>) -> Result<(), AllocError>
    requires { body_of command.now ≤ 8388608 }
    ensures { OnOk result (buffer.new.items ≡ buffer.old.items ++ change_bytes (change_of command.now)) }
{
    match command {
        Command::Put { first, bytes } => {
            let blocks = (bytes.len() / BLOCK_BYTES as usize) as u32;
            spell_head(PUT, *first, blocks, buffer)?;
            buffer.extend_from_slice(bytes)
        }
        Command::Clear {
            first,
            blocks,
            kind,
        } => spell_head(cleared_kind(*kind), *first, *blocks, buffer),
        Command::Edged {
            first,
            blocks,
            kind,
            edges,
            bytes,
        } => {
            spell_head(edged_kind(*kind), *first, *blocks, buffer)?;
            buffer.push(edges_byte(*edges))?;
            buffer.extend_from_slice(bytes)
        }
    }
}

// The head of a command: its kind, its first block, its blocks.
#[tactic(auto, unfolding(journal_format::specs::Spelling::change_head))]
fn spell_head(kind: u8, first: u64, blocks: u32, buffer: &mut Vec<u8>) -> Result<(), AllocError>
    ensures { OnOk result (buffer.new.items ≡ buffer.old.items ++ change_head kind first blocks) }
{
    buffer.push(kind)?;
    buffer.extend_from_slice(&first.to_be_bytes())?;
    buffer.extend_from_slice(&blocks.to_be_bytes())
}

// The byte that stands for a Clear to this kind.
fn cleared_kind(kind: Kind) -> u8
    ensures { result ≡ clear_byte kind }
{
    match kind {
        Kind::Zero => ALLOCATED_ZERO,
        Kind::Data | Kind::Hole => HOLE,
    }
}

// The byte that stands for a Clear to this kind but for edges.
fn edged_kind(kind: Kind) -> u8
    ensures { result ≡ edged_byte kind }
{
    match kind {
        Kind::Zero => EDGED_ALLOCATED_ZERO,
        Kind::Data | Kind::Hole => EDGED_HOLE,
    }
}

// The byte that says which edges there are.
fn edges_byte(edges: Edges) -> u8
    ensures { result ≡ edges_byte edges }
{
    match edges {
        Edges::Head => HEAD,
        Edges::Tail => TAIL,
        Edges::Both => BOTH,
    }
}
