ghost use Rattle.std.specs.Prelude.{◌≡◌};
ghost use Rattle.node.specs.Spell.{spelling_of, width_of};

use crate::nodes::{Misspelling, Node};

// The node that the bytes at the front spell.
pub fn spell(bytes: &[u8]) -> Result<Node, Misspelling>
    ensures { result ≡ spelling_of bytes.now }
{
    match bytes {
        [] => Err(Misspelling::Nothing),
        [1, ..] => Ok(Node::Application),
        [2, ..] => Ok(Node::Function),
        [3, index, ..] => Ok(Node::Place(u16::from(*index))),
        [4, high, low, ..] => Ok(Node::Ingredient(u16::from_be_bytes([*high, *low]))),
        [3 | 4, ..] => Err(Misspelling::Cut),
        _ => Err(Misspelling::Unknown),
    }
}

impl Node {
    // How many bytes spell it.
    pub fn width(self) -> usize
        ensures { result ≡ width_of self }
    {
        match self {
            Node::Application | Node::Function => 1,
            Node::Place(_) => 2,
            Node::Ingredient(_) => 3,
        }
    }
}
