// The decisions of a look at a position, apart from the tables.
ghost use Rattle.std.specs.Prelude.{◌≡◌, ◌^◌, ◌<◌};
ghost use Rattle.closure_tables.specs.Presented.{height};
ghost use Rattle.closure_view.specs.Heads.{cell_head, link_index};

use crate::positions::spot_number;
use closure_tables::{Cell, Spot};
use writer::Head;

// Which link of the chain fills the cell, if it is a place of none of the functions passed.
pub(crate) fn link_index(depth: u16, cell: Cell) -> Option<u8>
    ensures { result ≡ link_index depth cell }
{
    match cell {
        Cell::Place(index) if u16::from(index) >= depth => Some(index - depth as u8),
        _ => None,
    }
}

// A spot whose cell nothing fills, with that cell.
#[derive(Clone, Copy)]
pub(crate) struct Found {
    pub spot: Spot,
    pub cell: Cell,
    ghost node: { spot.node < 65535 },
    ghost chain: { height spot.chain < 2 ^ 31 },
}

impl Found {
    // None at a function that is as deep as a number has room for.
    pub(crate) fn head(self) -> Option<Head>
        ensures { result ≡ cell_head self.spot self.cell }
    {
        let spot = self.spot;
        match self.cell {
            Cell::Application { right } => Some(Head::Application {
                left: spot_number(Spot {
                    node: spot.node + 1,
                    ..spot
                }),
                right: spot_number(Spot {
                    node: right,
                    ..spot
                }),
            }),
            Cell::Function => Some(Head::Function {
                body: spot_number(Spot {
                    node: spot.node + 1,
                    depth: spot.depth.checked_add(1)?,
                    ..spot
                }),
            }),
            Cell::Place(index) => Some(Head::Place(index)),
            Cell::Ingredient(number) => Some(Head::Ingredient(number)),
        }
    }
}
