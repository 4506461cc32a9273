ghost use Rattle.machine.specs.Rules.{write_of};
ghost use Rattle.machine.specs.Writing.{AfterWrite};
ghost use Rattle.closure.specs.Views.{meaning};

use crate::state::Closure;
use closure_view::View;
use machine::MachineFault;
use writer::write_code;

impl Closure {
    // Writes the code of the standing term to the front of the output; answers its length.
    pub(crate) fn write_standing(
        &self,
        output: &mut [u8],
        scratch: &mut [u64],
    ) -> Result<usize, MachineFault>
        ensures { AfterWrite (write_of (meaning self.now) output.old scratch.old) result output.new scratch.new }
    {
        if self.levels.nodes.used() == 0 {
            return Err(MachineFault::Empty);
        }
        let view = View {
            cells: &self.cells[..self.levels.nodes.used()],
            entries: &self.entries[..self.levels.entries.used()],
            stack: &self.stack[..self.levels.stack.used()],
            hand: self.hand,
        };
        write_code(&view, view.root(), output, scratch)
    }
}
