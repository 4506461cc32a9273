ghost use Rattle.std.specs.Prelude.{◌≡◌, Some};
ghost use Rattle.std.specs.Fmt.{padded};
ghost use Rattle.machine.specs.Outcomes.{table_number, table_name};

use crate::transitions::Transition;
use std::fmt;

// The tables of a machine, with their numbers.
#[derive(Clone, Copy, PartialEq, Eq, Debug)]
pub enum Table {
    Stack = 2,
    Entries = 3,
    Nodes = 4,
}

impl Table {
    pub fn name(&self) -> &'static str
        ensures { result.now ≡ table_name self.now }
    {
        match self {
            Table::Stack => "stack",
            Table::Entries => "entries",
            Table::Nodes => "nodes",
        }
    }
}

impl fmt::Display for Table {
    ghost output = { λ table. Some (table_name table) };

    ghost styled_output = { λ table style. Some (padded style (table_name table)) };

    fn fmt<W: fmt::Write>(&self, f: &mut fmt::Formatter<W>) -> fmt::Result {
        f.pad(self.name())
    }
}

// The number of a table.
impl From<Table> for u8 {
    ghost from_gives = { λ table number. number ≡ table_number table };

    fn from(table: Table) -> u8 {
        table as u8
    }
}

// What a machine comes to when it is to make a transition.
#[derive(Clone, Copy, PartialEq, Eq, Debug)]
pub enum Outcome {
    Made(Transition),
    // the term that stands is normal
    Done,
    // that table has no place for the transition due
    Full(Table),
}
