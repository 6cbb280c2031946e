ghost use Rattle.std.specs.Prelude.{◌≡◌, ◌+◌, ◌-◌, ◌<◌, ◌≤◌, ◌++◌, [], ◌∷◌, ◌↔◌, IsTrue, All, length, take, drop, OnOk, OnErr, IfOk};
ghost use Rattle.std.specs.VecDeque.{deque_len, deque_capacity};
ghost use Rattle.std.specs.Vec.{vec_capacity};
ghost use Rattle.order_book.specs.Pending.{HasSmallBody, most_body};
ghost use Rattle.order_book.specs.inner.Pending.{IsLongest};

use image_model::Command;
use std::alloc::{AllocError, Global};
use std::collections::VecDeque;
use std::marker::Model;

/// Commands that wait for a group, in their order, with places kept free for more.
#[derive(Drop)]
pub(crate) struct PendingCommands {
    commands: VecDeque<Command>,
}

impl Model for PendingCommands {
    ghost use Rattle.std.specs.Prelude.{◌-◌};
    ghost use Rattle.std.specs.VecDeque.{deque_len, deque_capacity};
    ghost use Rattle.order_book.specs.Pending.{Waiting};

    ghost Value = { Waiting };

    ghost view = { λ pending. record {
      commands = pending.commands.items;
      spare = deque_capacity pending.commands - deque_len pending.commands;
    } };
}

/// The most bytes that a command takes in a group.
const MOST_COMMAND_BYTES: u64 = 1_052_685;

/// Whether each of the commands takes no more bytes in a group than one may.
pub(crate) fn have_small_bodies(commands: &[Command]) -> bool
    ensures { IsTrue result ↔ All HasSmallBody commands.now }
{
    commands
        .iter()
        .all(|command| command.body_bytes() <= MOST_COMMAND_BYTES)
}

// How many commands from the front have bodies of at most `limit` bytes together.
fn longest(commands: &VecDeque<Command>, limit: u64) -> usize
    requires small { All HasSmallBody commands.now.items }
    requires enough { most_body ≤ limit }
    requires limit { limit ≤ 8388608 }
    ensures longest { IsLongest limit commands.now.items result }
    ensures first { 0 < length commands.now.items → 0 < result }
{
    let mut sum = 0u64;
    for count in 0..commands.len() {
        sum += commands[count].body_bytes();
        if sum > limit {
            return count;
        }
    }
    commands.len()
}

// Moves the first `count` commands after those of `taken`, which has room for them.
fn move_front(commands: &mut VecDeque<Command>, count: usize, taken: &mut Vec<Command>)
    requires there { count ≤ deque_len commands.old }
    requires room { length taken.old.items + count ≤ vec_capacity taken.old }
    ensures taken { taken.new.items ≡ taken.old.items ++ take count commands.old.items }
    ensures rest { commands.new.items ≡ drop count commands.old.items }
    ensures capacity { deque_capacity commands.new ≡ deque_capacity commands.old }
{
    for _ in 0..count {
        if let Some(command) = commands.pop_front() {
            taken.push_reserved(command);
        }
    }
}

// Puts the commands before those that wait, for which there is room.
fn move_back(commands: &mut VecDeque<Command>, mut returned: Vec<Command>)
    requires room { deque_len commands.old + length returned.items ≤ deque_capacity commands.old }
    ensures commands { commands.new.items ≡ returned.items ++ commands.old.items }
    ensures capacity { deque_capacity commands.new ≡ deque_capacity commands.old }
{
    while let Some(command) = returned.pop() {
        commands.push_front_reserved(command);
    }
}

impl PendingCommands {
    pub(crate) fn new(alloc: Global) -> PendingCommands
        ensures { result.commands ≡ [] }
    {
        PendingCommands {
            commands: VecDeque::new(alloc),
        }
    }

    /// The allocator of the commands.
    pub(crate) fn allocator(&self) -> Global {
        *self.commands.allocator()
    }

    /// Makes room for `count` commands more.
    pub(crate) fn reserve(&mut self, count: usize) -> Result<(), AllocError>
        ensures commands { self.new.commands ≡ self.old.commands }
        ensures spare { self.old.spare ≤ self.new.spare }
        ensures ok { OnOk result (count ≤ self.new.spare) }
    {
        self.commands.reserve(count)
    }

    /// Adds a command at the end.
    pub(crate) fn push(&mut self, command: Command)
        requires { 1 ≤ self.old.spare }
        ensures commands { self.new.commands ≡ self.old.commands ++ command ∷ [] }
        ensures spare { self.new.spare + 1 ≡ self.old.spare }
    {
        self.commands.push_back_reserved(command);
    }

    pub(crate) fn is_empty(&self) -> bool
        ensures { IsTrue result ↔ (self.now.commands ≡ []) }
    {
        self.commands.is_empty()
    }

    /// How many commands from the front have bodies of at most `limit` bytes together.
    pub(crate) fn longest(&self, limit: u64) -> usize
        requires small { All HasSmallBody self.now.commands }
        requires enough { most_body ≤ limit }
        requires limit { limit ≤ 8388608 }
        ensures longest { IsLongest limit self.now.commands result }
        ensures first { 0 < length self.now.commands → 0 < result }
    {
        longest(&self.commands, limit)
    }

    /// Takes the first `count` commands out, and keeps their places free.
    pub(crate) fn take(&mut self, count: usize) -> Result<Vec<Command>, AllocError>
        requires { count ≤ length self.old.commands }
        ensures taken { IfOk result (λ taken. taken.items ≡ take count self.old.commands) }
        ensures rest { OnOk result (self.new.commands ≡ drop count self.old.commands) }
        ensures spare { OnOk result (self.new.spare ≡ self.old.spare + count) }
        ensures err { OnErr result (self.new ≡ self.old) }
    {
        let mut taken = Vec::with_capacity(*self.commands.allocator(), count)?;
        move_front(&mut self.commands, count, &mut taken);
        Ok(taken)
    }

    /// Puts commands back before those that wait.
    pub(crate) fn put_back(&mut self, commands: Vec<Command>)
        requires { length commands.items ≤ self.old.spare }
        ensures commands { self.new.commands ≡ commands.items ++ self.old.commands }
        ensures spare { self.new.spare + length commands.items ≡ self.old.spare }
    {
        move_back(&mut self.commands, commands);
    }
}
