//! An order that two threads share through one lock.
ghost use Rattle.std.specs.Prelude.{◌≡◌, ◌+◌, ◌*◌, ◌≤◌, ◌<◌, ◌^◌, length, [], true, IfSome};
ghost use Rattle.image_model.specs.Command.{IsCommand};
ghost use Rattle.marks.specs.Known.{known};

use crate::requests::formatted;
use checkpoint::Keeper;
use disk_model::SimDisk;
use image_model::Command;
use marks::{BlankBoard, Board, BoardName, KeeperSeat, Opened, OrderSeat, Pass};
use order_book::Order;
use std::alloc::Global;
use std::marker::Brand;
use std::sync::{Mutex, Wait};
use std::thread::{self, Threads};

const AREA: u32 = 8_388_608;

// A keeper, and a board at its count that has no name yet.
struct Start {
    blank: BlankBoard,
    keeper: Keeper<SimDisk>,
    ghost opening: { blank.opening ≡ keeper.count },
}

// Written out, it is proved once, and not again in each function that lets such a value go.
impl Drop for Start {
    fn drop(self) {
        let Start {
            blank: _,
            keeper: _,
        } = self;
    }
}

impl Start {
    // The board and the keeper.
    fn into_parts(self) -> (BlankBoard, Keeper<SimDisk>)
        ensures board { result.0 ≡ self.blank }
        ensures opening { result.0.opening ≡ result.1.count }
    {
        let Start { blank, keeper } = self;
        (blank, keeper)
    }
}

// A keeper of an image of holes, and a board for it.
fn start_over_holes(alloc: Global, blocks: u64) -> Option<Start> {
    let keeper = Keeper::open(alloc, formatted(alloc, blocks, AREA)?).ok()?;
    let blank = BlankBoard::new(alloc, keeper.count()).ok()?;
    Some(Start { blank, keeper })
}

// An order over what the keeper holds.
fn order_over<B: BoardName>(
    alloc: Global,
    keeper: &Keeper<SimDisk>,
    frames: u32,
    seat: OrderSeat<B>,
) -> Option<Order<B>>
    requires frames { frames < 2 ^ 20 }
    requires named { keeper.now.count ≡ B.opening }
    requires seat { seat ≡ record { history = []; accepted = keeper.now.count; base = keeper.now.count } }
{
    let map = keeper.map(alloc).ok()?;
    Order::new(alloc, map, keeper.count(), frames, AREA, seat).ok()
}

// How many blocks the bytes fill, where these are whole and no more than a command has.
fn whole_blocks(bytes: &[u8]) -> Option<u64>
    ensures whole { IfSome result (λ blocks. length bytes.now ≡ 4096 * blocks) }
    ensures few { IfSome result (λ blocks. blocks ≤ 257) }
{
    let blocks = bytes.len() as u64 / 4096;
    if bytes.len() as u64 != 4096 * blocks || blocks > 257 {
        return None;
    }
    Some(blocks)
}

// Whether an image of this many blocks takes the command, which is a put.
fn is_put_inside(image: u64, command: &Command) -> bool
    ensures { result ≡ true → IsCommand image command.now }
{
    match command {
        Command::Put { first, bytes } => match whole_blocks(bytes) {
            Some(blocks) => 1 <= blocks && blocks <= image && *first <= image - blocks,
            None => false,
        },
        _ => false,
    }
}

// The number that the order gives a put of one block; none where it is refused, or the block lies outside the image.
fn accept_put<B: BoardName>(
    alloc: Global,
    order: &mut Order<B>,
    board: &Board<B>,
    pass: &mut Pass<B>,
    block: u64,
) -> Option<u64> {
    let bytes = vec![in alloc; 7; 4096].ok()?;
    let command = Command::Put {
        first: block,
        bytes,
    };
    if !is_put_inside(order.blocks(), &command) {
        return None;
    }
    match order.accept(board, pass, command) {
        Ok(number) => Some(number),
        Err((_fault, _command)) => None,
    }
}

// What came of a thread: the numbers that its puts were given, and its pass.
struct Ran<B: BoardName> {
    numbers: Vec<u64>,
    pass: Pass<B>,
}

// Written out, it is proved once, and not again in each function that lets such a value go.
impl<B: BoardName> Drop for Ran<B> {
    fn drop(self) {
        let Ran {
            numbers: _,
            pass: _,
        } = self;
    }
}

// A keeper with the seat that raises the durable number, as one lock holds them.
#[derive(Drop)]
struct SeatedKeeper<B: BoardName> {
    seat: KeeperSeat<B>,
    keeper: Keeper<SimDisk>,
}

// Accepts 100 puts of one block through the lock.
fn accept_puts<B: BoardName>(
    rt: &impl Wait,
    alloc: Global,
    board: &Board<B>,
    order: &Mutex<Order<B>>,
    mut pass: Pass<B>,
) -> Option<Ran<B>> {
    let mut numbers = Vec::with_capacity(alloc, 100).ok()?;
    for block in 0..100 {
        if let Some(number) = accept_put(alloc, &mut *order.lock(rt), board, &mut pass, block) {
            numbers.push(number).ok()?;
        }
    }
    Some(Ran { numbers, pass })
}

// What a pass sees once another one has told it: no less than that one knew.
fn told<B: BoardName>(board: &Board<B>, one: &mut Pass<B>, other: &mut Pass<B>) -> u64
    ensures { known one.old ≤ result }
{
    let told = board.tell(one);
    board.learn(other, told);
    board.look_accepted(other)
}

// Stores what is pending, the keeper's lock outside and the order's inside, as far as one group takes it.
fn store<B: BoardName>(
    rt: &impl Wait,
    board: &Board<B>,
    keeper: &Mutex<SeatedKeeper<B>>,
    order: &Mutex<Order<B>>,
) -> bool {
    let mut guard = keeper.lock(rt);
    let held = &mut *guard;
    let Ok(Some(group)) = order.lock(rt).seal() else {
        return false;
    };
    if let Err((_, group)) = held.keeper.append(group) {
        let _commands = group.into_parts();
        return false;
    }
    order.lock(rt).publish(board, &mut held.seat, &held.keeper);
    true
}

// What came of two threads that shared an order: the numbers that they were given, the accepted number that the pass of one sees,
// told by that of the other, and the durable one, once all was stored.
struct Shared {
    numbers: Vec<u64>,
    seen: u64,
    durable: u64,
}

// Written out, it is proved once, and not again in each function that lets such a value go.
impl Drop for Shared {
    fn drop(self) {
        let Shared {
            numbers: _,
            seen: _,
            durable: _,
        } = self;
    }
}

// Has two threads share an order.
fn share<B: BoardName + Send + Sync, R: Threads + Wait + Sync>(
    rt: &R,
    alloc: Global,
    start: Start,
) -> Option<Shared>
    requires board { start.blank.board ≡ B.board }
    requires named { start.blank.opening ≡ B.opening }
{
    let (blank, keeper) = start.into_parts();
    let Opened {
        board,
        order: order_seat,
        keeper: seat,
        roster: _,
        passes,
    } = blank.open::<B>(alloc, 2).ok()?;
    let order = Mutex::new(order_over(alloc, &keeper, 100, order_seat)?);
    let keeper = Mutex::new(SeatedKeeper { seat, keeper });
    let ran = accept_by_all(rt, alloc, &board, &order, passes)?;
    if !store(rt, &board, &keeper, &order) {
        return None;
    }
    tell_all(alloc, &board, ran)
}

// Accepts 100 puts for each pass, by a thread of its own.
fn accept_by_all<B: BoardName + Send + Sync, R: Threads + Wait + Sync>(
    rt: &R,
    alloc: Global,
    board: &Board<B>,
    order: &Mutex<Order<B>>,
    passes: Vec<Pass<B>>,
) -> Option<Vec<Option<Ran<B>>>> {
    thread::map_vec(
        rt,
        passes,
        &|pass| accept_puts(rt, alloc, board, order, pass),
    )
    .ok()
}

// What the last two of the passes know once one has told the other, with the numbers that both were given.
fn tell_all<B: BoardName>(
    alloc: Global,
    board: &Board<B>,
    mut ran: Vec<Option<Ran<B>>>,
) -> Option<Shared> {
    let mut one = ran.pop()??;
    let mut other = ran.pop()??;
    let seen = told(board, &mut one.pass, &mut other.pass);
    let durable = board.look_durable(&mut other.pass);
    let mut numbers = Vec::new(alloc);
    numbers.extend_from_slice(&one.numbers).ok()?;
    numbers.extend_from_slice(&other.numbers).ok()?;
    Some(Shared {
        numbers,
        seen,
        durable,
    })
}

// Whether the numbers are those from 1 on, each once.
fn each_once(numbers: &mut Vec<u64>) -> bool {
    numbers.sort_unstable();
    let mut last = 0;
    for number in numbers.iter() {
        if number.checked_sub(1) != Some(last) {
            return false;
        }
        last = *number;
    }
    true
}

#[test]
fn two_threads_share_the_order(rt: HostRuntime) {
    let start = start_over_holes(rt.alloc(), 100).expect(&rt, "a board over holes");
    let mut shared = share::<Brand, _>(&rt, rt.alloc(), start).expect(&rt, "two threads");
    assert!(rt; shared.numbers.len() == 200);
    assert!(rt; each_once(&mut shared.numbers));
    assert!(rt; shared.seen == 200);
    assert!(rt; shared.durable == 200);
}
