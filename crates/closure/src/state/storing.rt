ghost use Rattle.std.specs.Prelude.{◌≡◌, ◌≤◌, vec_len};
ghost use Rattle.node.specs.declared.nodes.Located.{Located};
ghost use Rattle.closure_tables.specs.Received.{joined};

use closure_tables::Cell;
use node::{Located, Part};
use reading::Receiver;
use tables::Level;

// Tells an application that its right side begins at that node.
fn join(cells: &mut Vec<Cell>, part: Option<Part>, number: u16)
    ensures items { cells.new.items ≡ joined part number cells.old.items }
    ensures len { vec_len cells.new ≡ vec_len cells.old }
{
    if let Some(Part::Right(application)) = part
        && let Some(cell) = cells.get_mut(usize::from(application))
    {
        *cell = Cell::Application { right: number };
    }
}

// The table of nodes, which holds them in the order of the code, and its level, lent while a code is read into them.
#[derive(Drop)]
pub(super) struct Nodes<'a> {
    pub cells: &'a mut Vec<Cell>,
    pub level: &'a mut Level,
    ghost fits: { level.now.capacity ≤ vec_len cells.now },
}

impl Receiver for Nodes<'_> {
    ghost use Rattle.closure.specs.Stores.{Stored, stored_in, storing};

    ghost Held = { Stored };

    ghost held = { stored_in };

    ghost more = { storing };

    // Past a full table nothing is stored: the reading goes on, since a fault of the code comes first.
    fn put(&mut self, node: Located) {
        let Some(at) = self.level.take() else {
            return;
        };
        join(self.cells, node.part, node.number);
        self.cells[at] = Cell::from(node.node);
    }
}
