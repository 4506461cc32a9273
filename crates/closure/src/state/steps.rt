ghost use Rattle.std.specs.Prelude.{◌≡◌, ◌<◌, Ok, MatchResult};
ghost use Rattle.machine.specs.declared.faults.MachineFault.TheVariants.{Empty};
ghost use Rattle.closure_tables.specs.declared.rows.Cell.TheVariants.{Application, Function, Place};
ghost use Rattle.closure_tables.specs.Steps.{StepsAs};
ghost use Rattle.closure.specs.Views.{Hand, configuration};

use crate::state::Closure;
use closure_tables::{Argument, Cell, Entry};
use closure_view::link;
use machine::{MachineFault, Outcome, Table, Transition};

impl Closure {
    // Search: the right side waits, the left side is next.
    fn descend(&mut self, right: u16) -> Outcome
        requires hand { Hand self.old (Application right) }
        ensures { StepsAs (configuration self.old) (Ok result) (configuration self.new) }
    {
        let Some(at) = self.levels.stack.take() else {
            return Outcome::Full(Table::Stack);
        };
        self.stack[at] = Argument {
            node: right,
            chain: self.hand.chain,
        };
        self.hand.node += 1;
        Outcome::Made(Transition::Search)
    }

    // β: the nearest argument becomes an entry in front of the chain, and the body is next. Without an argument all is done.
    fn enter(&mut self) -> Outcome
        requires hand { Hand self.old Function }
        ensures { StepsAs (configuration self.old) (Ok result) (configuration self.new) }
    {
        let waiting = &self.stack[..self.levels.stack.used()];
        let Some(&argument) = waiting.last() else {
            return Outcome::Done;
        };
        let Some(entry) = self.levels.entries.take() else {
            return Outcome::Full(Table::Entries);
        };
        // its place is the highest in use
        let _ = self.levels.stack.release();
        self.entries[entry] = Entry {
            argument,
            next: self.hand.chain,
        };
        self.hand = Argument {
            node: self.hand.node + 1,
            chain: Some(entry as u32),
        };
        Outcome::Made(Transition::Beta)
    }

    // Substitution: what fills the place is next.
    fn fetch(&mut self, index: u8) -> Outcome
        requires hand { Hand self.old (Place index) }
        ensures { StepsAs (configuration self.old) (Ok result) (configuration self.new) }
    {
        let entries = &self.entries[..self.levels.entries.used()];
        let Some(entry) = link(entries, self.hand.chain, index) else {
            unreachable()
        };
        self.hand = self.entries[entry as usize].argument;
        Outcome::Made(Transition::Substitution)
    }

    // The cell in hand, if a term stands.
    pub(super) fn cell(&self) -> Result<Cell, MachineFault>
        ensures { MatchResult result
            (λ cell. (0 < self.now.levels.nodes.used) × Hand self.now cell)
            (λ fault. (fault ≡ Empty) × (self.now.levels.nodes.used ≡ 0)) }
    {
        let cells = &self.cells[..self.levels.nodes.used()];
        cells
            .get(usize::from(self.hand.node))
            .copied()
            .ok_or(MachineFault::Empty)
    }

    // Makes the transition due, if there is one and places for it.
    pub(crate) fn advance(&mut self) -> Result<Outcome, MachineFault>
        ensures { StepsAs (configuration self.old) result (configuration self.new) }
    {
        Ok(match self.cell()? {
            Cell::Application { right } => self.descend(right),
            Cell::Function => self.enter(),
            Cell::Place(index) => self.fetch(index),
            Cell::Ingredient(_) => Outcome::Done,
        })
    }
}
