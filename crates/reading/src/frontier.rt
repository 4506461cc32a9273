ghost use Rattle.std.specs.Prelude.{◌≡◌, ◌<◌, ◌≤◌};
ghost use Rattle.term.specs.Terms.{most_nodes, most_nested};

use crate::right_sides::{RightSide, RightSides};
use node::{Located, Node, Part};

// A part of the term that is still to come, and its depth: the functions that it stands inside of.
#[derive(Clone, Copy)]
pub(crate) struct Opening {
    pub part: Option<Part>,
    pub depth: u8,
    ghost shallow: { depth ≤ most_nested },
}

// What comes after the nearest opening: a stack of right sides.
// Beside it, by depth, the number of each function around the nearest opening.
#[derive(Drop)]
pub(crate) struct Frontier {
    right_sides: RightSides,
    binders: [u16; 128],
}

impl Frontier {
    ghost use Rattle.node.specs.Checks.{Fitting};
    ghost use Rattle.code.specs.Scans.{located};
    ghost use Rattle.reading.specs.RightSides.{top_down};
    ghost use Rattle.reading.specs.Frontiers.{slot_of, Falling, Opened};

    pub(crate) fn new() -> Self
        ensures { result.right_sides.count ≡ 0 }
    {
        Frontier {
            right_sides: RightSides::new(),
            binders: [0; 128],
        }
    }

    // The node that fills an opening, with where it stands.
    pub(crate) fn locate(&self, number: u16, opening: Opening, node: Node) -> Located
        requires { Fitting opening.depth node }
        ensures { result ≡ located number (slot_of self.now.binders opening) node }
    {
        let Opening { part, depth } = opening;
        let binder = match node {
            Node::Place(index) => Some(self.binders[usize::from(depth) - 1 - usize::from(index)]),
            _ => None,
        };
        Located {
            number,
            node,
            depth,
            binder,
            part,
        }
    }

    // The nearest opening once a node has filled the one before: its first part, or the nearest right side.
    pub(crate) fn open(&mut self, filled: Located) -> Option<Opening>
        requires few { self.old.right_sides.count < most_nodes }
        requires shallow { filled.depth ≤ most_nested }
        requires fitting { Fitting filled.depth filled.node }
        requires falling { Falling filled.depth (top_down self.old.right_sides) }
        ensures { Opened self.old self.new filled result }
    {
        let Located {
            number,
            node,
            depth,
            ..
        } = filled;
        match node {
            Node::Application => {
                self.right_sides.push(RightSide {
                    application: number,
                    depth,
                });
                Some(Opening {
                    part: Some(Part::Left(number)),
                    depth,
                })
            }
            Node::Function => {
                self.binders[usize::from(depth)] = number;
                Some(Opening {
                    part: Some(Part::Body(number)),
                    depth: depth + 1,
                })
            }
            Node::Place(_) | Node::Ingredient(_) => {
                let RightSide { application, depth } = self.right_sides.pop()?;
                Some(Opening {
                    part: Some(Part::Right(application)),
                    depth,
                })
            }
        }
    }
}
