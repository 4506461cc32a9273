ghost use Rattle.std.specs.Prelude.{◌≡◌};
ghost use Rattle.machine.specs.Rules.{AfterStart, emptied, outcome_due, AfterStep, write_of};
ghost use Rattle.machine.specs.Writing.{AfterWrite};
ghost use Rattle.abstract_machine.specs.Configurations.{explained, vacated, started, stepped};
ghost use Rattle.closure_tables.specs.Presented.{no_price};
ghost use Rattle.closure.specs.Views.{configuration, meaning};
ghost use Rattle.closure.specs.Soundness.{sound};

use crate::state::Closure;
use machine::{Machine, MachineFault, Outcome};

// Beside the rules of a machine, each call promises that it is the abstract machine's: its answer and the configuration that it leaves
// follow from the configuration before, which is what lies below the levels, and from the arguments.
impl Machine for Closure {
    const KIND: u8 = 2;

    ghost KIND = { 2 };

    ghost meaning = { meaning };

    ghost sound = { sound };

    fn start(&mut self, code: &[u8]) -> Result<u16, MachineFault>
        ensures rules { AfterStart code.now (meaning self.old) result (meaning self.new) }
        ensures after { configuration self.new ≡ started no_price code.now (configuration self.old) }
    {
        self.begin(code)
    }

    fn empty(&mut self)
        ensures rules { meaning self.new ≡ emptied (meaning self.old) }
        ensures after { configuration self.new ≡ vacated (configuration self.old) }
    {
        self.levels.reset();
    }

    fn due(&self) -> Result<Outcome, MachineFault>
        ensures { result ≡ outcome_due (explained no_price (configuration self.now)) }
    {
        self.outcome()
    }

    fn step(&mut self) -> Result<Outcome, MachineFault>
        ensures rules { AfterStep (meaning self.old) result (meaning self.new) }
        ensures after { configuration self.new ≡ stepped no_price (configuration self.old) }
    {
        self.advance()
    }

    fn write(&self, output: &mut [u8], scratch: &mut [u64]) -> Result<usize, MachineFault>
        ensures { AfterWrite (write_of (explained no_price (configuration self.now)) output.old scratch.old) result output.new scratch.new }
    {
        self.write_standing(output, scratch)
    }
}
