ghost use Rattle.std.specs.Prelude.{◌≡◌};

use crate::rows::Argument;

// A place inside a closure: a node, how many functions of the closure are passed on the way to it, and the closure's chain.
#[derive(Clone, Copy, PartialEq, Eq, Debug)]
pub struct Spot {
    pub node: u16,
    pub depth: u16,
    pub chain: Option<u32>,
}

// Where the closure begins.
impl From<Argument> for Spot {
    ghost use Rattle.closure_tables.specs.Positions.{closure_spot};

    ghost from_gives = { λ a s. s ≡ closure_spot a };

    fn from(closure: Argument) -> Self {
        Spot {
            node: closure.node,
            depth: 0,
            chain: closure.chain,
        }
    }
}

// Where a part of the standing term is found.
#[derive(Clone, Copy, PartialEq, Eq, Debug)]
pub enum Position {
    // the closure in hand, applied to so many of the stacked arguments, the nearest first
    Spine(usize),
    Inside(Spot),
}
