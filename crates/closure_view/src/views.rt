ghost use Rattle.std.specs.Prelude.{◌≡◌, ◌^◌, ◌<◌, true, length};
ghost use Rattle.closure_tables.specs.Valid.{valid};
ghost use Rattle.closure_view.specs.Lent.{lent};

use closure_tables::{Argument, Cell, Entry};

// The places in use of the closure machine's tables, lent for a look at the standing term.
#[derive(Clone, Copy)]
pub struct View<'a> {
    pub cells: &'a [Cell],
    pub entries: &'a [Entry],
    pub stack: &'a [Argument],
    pub hand: Argument,
    ghost few: { length entries.now < 2 ^ 31 },
    ghost kept: { valid (lent cells.now entries.now stack.now hand) ≡ true },
}
