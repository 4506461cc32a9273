ghost use Rattle.std.specs.Prelude.{◌≡◌, vec_len};
ghost use Rattle.machine.specs.Rules.{start_of};
ghost use Rattle.abstract_machine.specs.Configurations.{started};
ghost use Rattle.closure_tables.specs.Presented.{no_price};
ghost use Rattle.closure.specs.Views.{configuration, meaning, as_made};

use crate::state::Closure;
use crate::state::storing::Nodes;
use closure_tables::{Argument, Cell, Entry};
use machine::MachineFault;
use reading::read;
use tables::{Guard, Levels};

impl Closure {
    // Over tables of those lengths, which it never changes; what they hold does not matter.
    pub fn new(cells: Vec<Cell>, entries: Vec<Entry>, stack: Vec<Argument>) -> Self
        ensures { configuration result ≡ as_made (vec_len cells) (vec_len entries) (vec_len stack) }
    {
        let levels = Levels::over(cells.len(), entries.len(), stack.len());
        Closure {
            cells,
            entries,
            stack,
            levels,
            hand: Argument::BLANK,
        }
    }

    // Reads a code into the table of nodes; however that is refused, the levels are put back.
    pub(crate) fn begin(&mut self, code: &[u8]) -> Result<u16, MachineFault>
        ensures answer { result ≡ start_of code.now (meaning self.old) }
        ensures after { configuration self.new ≡ started no_price code.now (configuration self.old) }
    {
        if self.levels.nodes.used() > 0 {
            return Err(MachineFault::Standing);
        }
        let capacity = self.levels.nodes.capacity();
        let guard = Guard::over(&mut self.levels);
        let levels = &mut *guard.levels;
        levels.reset();
        let mut nodes = Nodes {
            cells: &mut self.cells,
            level: &mut levels.nodes,
        };
        let size = read(&mut nodes, code)?;
        if usize::from(size) > capacity {
            return Err(MachineFault::TooLarge);
        }
        guard.keep();
        // the whole term, in which no place is free
        self.hand = Argument {
            node: 0,
            chain: None,
        };
        Ok(size)
    }
}
