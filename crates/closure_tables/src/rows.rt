ghost use Rattle.std.specs.Prelude.{◌≡◌};
ghost use Rattle.closure_tables.specs.Received.{cell_of};

use node::Node;

// A node of the code. Nodes lie in the order of the code, so a left side and a body begin at the next one.
#[derive(Clone, Copy, PartialEq, Eq, Debug)]
pub enum Cell {
    // with the node that its right side begins at
    Application { right: u16 },
    Function,
    // with its index
    Place(u8),
    Ingredient(u16),
}

impl Cell {
    pub const BLANK: Cell = Cell::Ingredient(0);
}

// A node as a cell: where the right side of an application begins is not known yet, and an index that no recipe has is cut off.
impl From<Node> for Cell {
    ghost from_gives = { λ node cell. cell ≡ cell_of node };

    fn from(node: Node) -> Self {
        match node {
            Node::Application => Cell::Application { right: 0 },
            Node::Function => Cell::Function,
            Node::Place(index) => Cell::Place(u8::try_from(index).unwrap_or(u8::MAX)),
            Node::Ingredient(number) => Cell::Ingredient(number),
        }
    }
}

// A closure: a node, and the chain of entries that its free places are filled from, which is given by its nearest entry.
#[derive(Clone, Copy, PartialEq, Eq, Debug)]
pub struct Argument {
    pub node: u16,
    pub chain: Option<u32>,
}

impl Argument {
    pub const BLANK: Argument = Argument {
        node: 0,
        chain: None,
    };
}

// The argument that a β transition bound, and the rest of the chain that it stands at the front of.
#[derive(Clone, Copy, PartialEq, Eq, Debug)]
pub struct Entry {
    pub argument: Argument,
    pub next: Option<u32>,
}

impl Entry {
    pub const BLANK: Entry = Entry {
        argument: Argument::BLANK,
        next: None,
    };
}
