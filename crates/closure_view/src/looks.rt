ghost use Rattle.std.specs.Prelude.{◌≡◌, ◌-◌, ◌<◌, ◌≤◌, true, length, slice_index_or};
ghost use Rattle.closure_tables.specs.Positions.{root, spot_inside};
ghost use Rattle.closure_view.specs.Views.{tables_of};
ghost use Rattle.closure_view.specs.Looks.{standing_at, Shows, ShowsOnSpine, Resolved};

use crate::heads::{Found, link_index};
use crate::links::link;
use crate::positions::{height, position_of, spine_number, spot_number};
use crate::views::View;
use closure_tables::{Argument, Position, Spot};
use writer::{Head, Unfolding};

impl View<'_> {
    // Whether there are such a node and such a chain.
    fn holds(&self, spot: Spot) -> bool
        ensures { result ≡ spot_inside (tables_of self.now) spot }
    {
        usize::from(spot.node) < self.cells.len() && height(spot.chain) <= self.entries.len() as u64
    }

    // Goes from a filled place to what fills it until nothing fills the cell. At a free place nothing is found.
    fn resolve(&self, mut spot: Spot) -> Option<Found>
        requires { spot_inside (tables_of self.now) spot ≡ true }
        ensures { Resolved self.now spot result }
    {
        loop {
            let cell = self.cells[usize::from(spot.node)];
            let Some(index) = link_index(spot.depth, cell) else {
                return Some(Found { spot, cell });
            };
            let entry = link(self.entries, spot.chain, index)?;
            spot = self.entries[entry as usize].argument.into();
        }
    }

    // The head at a spot.
    fn look_inside(&self, spot: Spot) -> Option<Head>
        ensures { Shows self.now spot result }
    {
        if !self.holds(spot) {
            return None;
        }
        self.resolve(spot)?.head()
    }

    // The last of so many stacked arguments, the nearest first.
    fn last_of(&self, taken: usize) -> Argument
        requires some { 0 < taken }
        requires stacked { taken ≤ length self.now.stack.now }
        ensures { result ≡ slice_index_or self.now.stack.now (length self.now.stack.now - taken) result }
    {
        self.stack[self.stack.len() - taken]
    }

    // The head of the closure in hand applied to so many of the stacked arguments.
    fn look_on_spine(&self, taken: usize) -> Option<Head>
        ensures { ShowsOnSpine self.now taken result }
    {
        if self.cells.is_empty() || taken > self.stack.len() {
            return None;
        }
        if taken == 0 {
            return self.look_inside(self.hand.into());
        }
        Some(Head::Application {
            left: spine_number(taken - 1),
            right: spot_number(self.last_of(taken).into()),
        })
    }

    // Where the whole of the standing term is found.
    pub fn root(&self) -> u64
        ensures { result ≡ root (tables_of self.now) }
    {
        spine_number(self.stack.len())
    }
}

impl Unfolding for View<'_> {
    ghost term = { standing_at };

    fn look(&self, position: u64) -> Option<Head> {
        match position_of(position) {
            Position::Inside(spot) => self.look_inside(spot),
            Position::Spine(taken) => self.look_on_spine(taken),
        }
    }
}
