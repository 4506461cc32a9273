ghost use Rattle.std.specs.Prelude.{◌≡◌};
ghost use Rattle.tables.specs.Usages.{usages, usages_over, freed};

use crate::levels::{Level, Levels};

const NODE_LIMIT: usize = 16_777_216;

const ENTRY_LIMIT: usize = 1_048_576;

const STACK_LIMIT: usize = 16_777_216;

impl Levels {
    // Over tables of those lengths, with every place free.
    pub fn over(nodes: usize, entries: usize, stack: usize) -> Self
        ensures { usages result ≡ usages_over nodes entries stack }
    {
        Levels {
            nodes: Level::over(nodes, NODE_LIMIT),
            entries: Level::over(entries, ENTRY_LIMIT),
            stack: Level::over(stack, STACK_LIMIT),
        }
    }

    // Every place is free again.
    pub fn reset(&mut self)
        ensures { usages self.new ≡ freed (usages self.old) }
    {
        self.nodes.reset();
        self.entries.reset();
        self.stack.reset();
    }
}
