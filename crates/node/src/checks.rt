ghost use Rattle.std.specs.Prelude.{◌≡◌, Ok, Result};
ghost use Rattle.node.specs.Checks.{roomed, admitted, judged};

use crate::faults::Fault;
use crate::nodes::{Misspelling, Node};

const MOST_NODES: u16 = 4096;

const MOST_NESTED: u8 = 128;

pub const LAST_INGREDIENT: u16 = 4095;

// Where a node stands in a reading: its code begins at byte `at`, `number` nodes come before it, and it is under `depth` functions.
#[derive(Clone, Copy, PartialEq, Eq, Debug)]
pub struct Site {
    pub at: usize,
    pub number: u16,
    pub depth: u8,
}

impl Site {
    // A recipe has room for one node more than `number`.
    fn room(self) -> Result<(), Fault>
        ensures { result ≡ roomed self.at self.number (Ok tt) }
    {
        if self.number >= MOST_NODES {
            return Err(Fault::TooManyNodes { at: self.at });
        }
        Ok(())
    }

    // The checks at a node that stands here.
    pub fn admit(self, node: Node) -> Result<Node, Fault>
        ensures { result ≡ admitted self.at self.number self.depth node }
    {
        self.room()?;
        let Site { at, depth, .. } = self;
        match node {
            Node::Function if depth >= MOST_NESTED => Err(Fault::TooDeep { at }),
            Node::Place(index) if index >= u16::from(depth) => Err(Fault::Uncovered { at }),
            Node::Ingredient(i) if i > LAST_INGREDIENT => Err(Fault::NoSuchIngredient { at }),
            _ => Ok(node),
        }
    }

    // All checks at what the bytes from here on spell, in a code of `end` bytes.
    pub fn judge(self, end: usize, spelling: Result<Node, Misspelling>) -> Result<Node, Fault>
        ensures { result ≡ judged end self.at self.number self.depth spelling }
    {
        match spelling {
            Ok(node) => self.admit(node),
            Err(Misspelling::Nothing) => Err(Fault::Missing { at: end }),
            Err(Misspelling::Unknown) => Err(Fault::UnknownTag { at: self.at }),
            Err(Misspelling::Cut) => {
                self.room()?;
                Err(Fault::Missing { at: end })
            }
        }
    }
}
