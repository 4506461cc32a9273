// A node of a term: its kind, and the number that it holds where it holds one.
#[derive(Clone, Copy, PartialEq, Eq, Debug)]
pub enum Node {
    Application,
    Function,
    Place(u16),
    Ingredient(u16),
}

// Why the bytes at the front of a code spell no node.
#[derive(Clone, Copy, PartialEq, Eq, Debug)]
pub enum Misspelling {
    // there are none
    Nothing,
    // no node has this tag
    Unknown,
    // the tag is known, and a byte after it is missing
    Cut,
}

// Which part of which node a node is, by that node's number.
#[derive(Clone, Copy, PartialEq, Eq, Debug)]
pub enum Part {
    Left(u16),
    Right(u16),
    Body(u16),
}

// A node and where it stands in its term. Nodes are numbered from 0 in the order of the code.
#[derive(Clone, Copy, PartialEq, Eq, Debug)]
pub struct Located {
    pub number: u16,
    pub node: Node,
    // the functions that it stands inside of, counted
    pub depth: u8,
    // the number of its function, if it is a place
    pub binder: Option<u16>,
    // the first node of a term is part of none
    pub part: Option<Part>,
}
