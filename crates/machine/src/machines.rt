ghost use Rattle.std.specs.Prelude.{◌≡◌, ℕ};
ghost use Rattle.machine.specs.Meanings.{Meaning, Sound};
ghost use Rattle.machine.specs.Writing.{AfterWrite};
ghost use Rattle.machine.specs.Rules.{AfterStart, emptied, outcome_due, AfterStep, write_of};

use crate::faults::MachineFault;
use crate::outcomes::Outcome;

// A machine that reduces the term that stands in it, one transition at a time.
pub trait Machine {
    // the number of its kind
    const KIND: u8;

    ghost KIND: { ℕ };

    // what a machine means to whoever uses it
    ghost meaning: { Self → Meaning };

    // Takes a code and lets its term stand; answers the size.
    fn start(&mut self, code: &[u8]) -> Result<u16, MachineFault>
        ensures { AfterStart code.now (meaning self.old) result (meaning self.new) };

    // Frees every place; no term stands.
    fn empty(&mut self)
        ensures { meaning self.new ≡ emptied (meaning self.old) };

    // What a step would come to.
    fn due(&self) -> Result<Outcome, MachineFault>
        ensures { result ≡ outcome_due (meaning self.now) };

    // Makes the transition due, if there is one and places for it.
    fn step(&mut self) -> Result<Outcome, MachineFault>
        ensures { AfterStep (meaning self.old) result (meaning self.new) };

    // Writes the code of the term that stands to the front of the output; answers its length.
    fn write(&self, output: &mut [u8], scratch: &mut [u64]) -> Result<usize, MachineFault>
        ensures { AfterWrite (write_of (meaning self.now) output.old scratch.old) result output.new scratch.new };

    ghost sound: { (m : Self) → Sound (meaning m) };
}
