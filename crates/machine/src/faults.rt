ghost use Rattle.std.specs.Prelude.{◌≡◌, Some};
ghost use Rattle.std.specs.Fmt.{padded};
ghost use Rattle.node.specs.declared.faults.Fault.{Fault};
ghost use Rattle.machine.specs.declared.faults.MachineFault.{MachineFault};
ghost use Rattle.machine.specs.declared.faults.MachineFault.TheVariants.{Code};
ghost use Rattle.machine.specs.Faults.{machine_number, machine_name};

use node::Fault;
use std::error::Error;
use std::fmt;

// Why a call on a machine is refused.
#[derive(Clone, Copy, PartialEq, Eq, Debug)]
pub enum MachineFault {
    // the code is no recipe
    Code(Fault),
    // the table of nodes has not as many places as the recipe has nodes
    TooLarge,
    // a term stands already
    Standing,
    // no term stands
    Empty,
    // not one scratch place for each byte of the output
    ShortScratch,
    // the output has no room for the whole code
    ShortOutput,
}

impl MachineFault {
    pub fn name(&self) -> &'static str
        ensures { result.now ≡ machine_name self.now }
    {
        match self {
            MachineFault::Code(fault) => fault.name(),
            MachineFault::TooLarge => "recipe too large",
            MachineFault::Standing => "a recipe stands",
            MachineFault::Empty => "nothing stands",
            MachineFault::ShortScratch => "scratch too short",
            MachineFault::ShortOutput => "output too short",
        }
    }
}

impl fmt::Display for MachineFault {
    ghost output = { λ fault. Some (machine_name fault) };

    ghost styled_output = { λ fault style. Some (padded style (machine_name fault)) };

    fn fmt<W: fmt::Write>(&self, f: &mut fmt::Formatter<W>) -> fmt::Result {
        f.pad(self.name())
    }
}

impl Error for MachineFault {}

// The number of a refusal.
impl From<MachineFault> for u8 {
    ghost from_gives = { λ fault number. number ≡ machine_number fault };

    fn from(fault: MachineFault) -> u8 {
        match fault {
            MachineFault::Code(fault) => u8::from(fault),
            MachineFault::TooLarge => 8,
            MachineFault::Standing => 9,
            MachineFault::Empty => 10,
            MachineFault::ShortScratch => 12,
            MachineFault::ShortOutput => 13,
        }
    }
}

impl From<Fault> for MachineFault {
    ghost from_gives = { λ f m. m ≡ Code f };

    fn from(value: Fault) -> Self {
        MachineFault::Code(value)
    }
}
