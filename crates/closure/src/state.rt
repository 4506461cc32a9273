ghost use Rattle.std.specs.Prelude.{◌≡◌, ◌≤◌, true, vec_len};
ghost use Rattle.closure_tables.specs.Tables.{below};
ghost use Rattle.closure_tables.specs.Valid.{valid};

use closure_tables::{Argument, Cell, Entry};
use tables::Levels;

mod calls;
mod dues;
mod starts;
mod steps;
mod storing;
mod writes;

// Tables of lengths that never change, how much of them is in use, and the closure in hand. A term stands where nodes are in use.
#[derive(Drop)]
pub struct Closure {
    cells: Vec<Cell>,
    entries: Vec<Entry>,
    stack: Vec<Argument>,
    levels: Levels,
    hand: Argument,
    ghost nodes_fit: { levels.nodes.capacity ≤ vec_len cells },
    ghost entries_fit: { levels.entries.capacity ≤ vec_len entries },
    ghost stack_fit: { levels.stack.capacity ≤ vec_len stack },
    ghost kept: { valid (below levels.nodes.used cells.items levels.entries.used entries.items levels.stack.used stack.items hand) ≡ true },
}
