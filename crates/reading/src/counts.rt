ghost use Rattle.std.specs.Prelude.{◌≡◌, Some};
ghost use Rattle.std.specs.Fmt.{padded};
ghost use Rattle.node.specs.declared.faults.Fault.{Fault};
ghost use Rattle.reading.specs.declared.counts.CountFault.{CountFault};
ghost use Rattle.reading.specs.declared.counts.CountFault.TheVariants.{Code};
ghost use Rattle.reading.specs.CountFaults.{count_number, count_name};
ghost use Rattle.reading.specs.Counts.{counted};

use crate::counter::Counter;
use node::Fault;
use std::error::Error;
use std::fmt;

// Why a count is refused.
#[derive(Clone, Copy, PartialEq, Eq, Debug)]
pub enum CountFault {
    // no recipe has an ingredient of that number
    UnknownIngredient,
    Code(Fault),
}

impl CountFault {
    pub fn name(&self) -> &'static str
        ensures { result.now ≡ count_name self.now }
    {
        match self {
            CountFault::UnknownIngredient => "unknown ingredient",
            CountFault::Code(fault) => fault.name(),
        }
    }
}

// The number of a refusal.
impl From<CountFault> for u8 {
    ghost from_gives = { λ fault number. number ≡ count_number fault };

    fn from(fault: CountFault) -> u8 {
        match fault {
            CountFault::UnknownIngredient => 15,
            CountFault::Code(fault) => u8::from(fault),
        }
    }
}

impl fmt::Display for CountFault {
    ghost output = { λ fault. Some (count_name fault) };

    ghost styled_output = { λ fault style. Some (padded style (count_name fault)) };

    fn fmt<W: fmt::Write>(&self, f: &mut fmt::Formatter<W>) -> fmt::Result {
        f.pad(self.name())
    }
}

impl Error for CountFault {}

impl From<Fault> for CountFault {
    ghost from_gives = { λ fault count_fault. count_fault ≡ Code fault };

    fn from(fault: Fault) -> Self {
        CountFault::Code(fault)
    }
}

// How often an ingredient occurs in a code, inside functions as well.
pub fn count(code: &[u8], ingredient: u16) -> Result<u16, CountFault>
    ensures { result ≡ counted code.now ingredient }
{
    let counter = Counter::new(ingredient)?;
    let found = counter.over(code)?;
    Ok(found)
}
