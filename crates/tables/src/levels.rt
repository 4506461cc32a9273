ghost use Rattle.std.specs.Prelude.{◌≡◌, ◌≤◌};
ghost use Rattle.tables.specs.Limits.{entry_limit, table_limit};

mod places;
mod tables;

// How many places of a table are in use, and how many it has. Those in use are the lowest.
#[derive(Clone, Copy, PartialEq, Eq, Debug)]
pub struct Level {
    used: usize,
    capacity: usize,
    ghost within: { used ≤ capacity },
    ghost limited: { capacity ≤ table_limit },
}

impl Level {
    pub fn used(&self) -> usize
        ensures { result ≡ self.now.used }
    {
        self.used
    }

    pub fn capacity(&self) -> usize
        ensures { result ≡ self.now.capacity }
    {
        self.capacity
    }
}

// The levels of the tables of one machine.
#[derive(Clone, Copy, PartialEq, Eq, Debug)]
pub struct Levels {
    pub nodes: Level,
    pub entries: Level,
    pub stack: Level,
    ghost few: { entries.capacity ≤ entry_limit },
}
