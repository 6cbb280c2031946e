//! What threads know of the numbers of write commands: how many were accepted, and how many of those are durable.
//!
//! A board has two watermarks that only grow, read without a lock. A pass knows from then on what it has read, and what it was
//! told by other passes. In the proofs alone, the board also has the history, the list of all accepted commands: what any pass
//! knows of it is a prefix of that one list.
//!
//! Also in the proofs alone, a board may keep a log of what each client sends and is answered. Each such event is a step on the
//! board, and the log is in the order of these steps.
#![tactic(auto)]

mod blank;
mod board;
mod name;
mod rule;
mod said;
mod seats;
mod steps;
mod view;

pub use blank::{BlankBoard, Opened};
pub use board::Board;
pub use name::{BoardName, NoLog, Trust};
pub use seats::{KeeperSeat, OrderSeat, Pass, Roster, Told};
pub use view::Client;
