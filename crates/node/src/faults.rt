ghost use Rattle.std.specs.Prelude.{◌≡◌, Some};
ghost use Rattle.std.specs.Fmt.{padded};
ghost use Rattle.node.specs.Faults.{number_of, name_of, byte_of};

use std::error::Error;
use std::fmt;

// Why a code is no recipe. Each case holds its byte place, the byte of the code that a refusal points at.
#[derive(Clone, Copy, PartialEq, Eq, Debug)]
pub enum Fault {
    Missing { at: usize },
    UnknownTag { at: usize },
    TooManyNodes { at: usize },
    TooDeep { at: usize },
    Uncovered { at: usize },
    NoSuchIngredient { at: usize },
    Leftover { at: usize },
}

impl Fault {
    pub fn name(&self) -> &'static str
        ensures { result.now ≡ name_of self.now }
    {
        match self {
            Fault::Missing { at: _ } => "byte missing",
            Fault::UnknownTag { at: _ } => "unknown tag",
            Fault::TooManyNodes { at: _ } => "too many nodes",
            Fault::TooDeep { at: _ } => "functions nested too deep",
            Fault::Uncovered { at: _ } => "place not covered",
            Fault::NoSuchIngredient { at: _ } => "no such ingredient",
            Fault::Leftover { at: _ } => "bytes left over",
        }
    }

    // The byte of the code that it is at.
    pub fn byte(&self) -> usize
        ensures { result ≡ byte_of self.now }
    {
        match *self {
            Fault::Missing { at }
            | Fault::UnknownTag { at }
            | Fault::TooManyNodes { at }
            | Fault::TooDeep { at }
            | Fault::Uncovered { at }
            | Fault::NoSuchIngredient { at }
            | Fault::Leftover { at } => at,
        }
    }
}

// The number of a refusal.
impl From<Fault> for u8 {
    ghost from_gives = { λ fault number. number ≡ number_of fault };

    fn from(fault: Fault) -> u8 {
        match fault {
            Fault::Missing { at: _ } => 1,
            Fault::UnknownTag { at: _ } => 2,
            Fault::TooManyNodes { at: _ } => 3,
            Fault::TooDeep { at: _ } => 4,
            Fault::Uncovered { at: _ } => 5,
            Fault::NoSuchIngredient { at: _ } => 6,
            Fault::Leftover { at: _ } => 7,
        }
    }
}

impl fmt::Display for Fault {
    ghost output = { λ fault. Some (name_of fault) };

    ghost styled_output = { λ fault style. Some (padded style (name_of fault)) };

    fn fmt<W: fmt::Write>(&self, f: &mut fmt::Formatter<W>) -> fmt::Result {
        f.pad(self.name())
    }
}

impl Error for Fault {}
