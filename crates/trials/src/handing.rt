// What is handed over, as a receiver sees it that keeps the latest node.
ghost use Rattle.std.specs.Prelude.{Some, Option};
ghost use Rattle.node.specs.declared.nodes.Located.{Located};

use node::{Located, Node, Part};
use reading::{Receiver, read};

#[derive(Clone, Copy)]
struct Latest(Option<Located>);

impl Receiver for Latest {
    ghost Held = { Option Located };

    ghost held = { λ latest. latest.0 };

    ghost more = { λ _ node. Some node };

    fn put(&mut self, node: Located) {
        self.0 = Some(node);
    }
}

// The last node that is handed over of a code.
fn last_of(code: &[u8]) -> Option<Located> {
    let mut latest = Latest(None);
    let _ = read(&mut latest, code);
    latest.0
}

#[test]
fn a_place_names_its_function(rt: HostRuntime) {
    let outer = Located {
        number: 4,
        node: Node::Place(1),
        depth: 2,
        binder: Some(0),
        part: Some(Part::Right(2)),
    };
    assert_eq!(rt; last_of(&[2, 2, 1, 3, 0, 3, 1]), Some(outer));
    let inner = Located {
        number: 5,
        node: Node::Place(0),
        depth: 2,
        binder: Some(4),
        part: Some(Part::Body(4)),
    };
    assert_eq!(rt; last_of(&[2, 1, 2, 3, 0, 2, 3, 0]), Some(inner));
}

#[test]
fn a_fault_is_not_handed_over(rt: HostRuntime) {
    let left = Located {
        number: 1,
        node: Node::Ingredient(7),
        depth: 0,
        binder: None,
        part: Some(Part::Left(0)),
    };
    assert_eq!(rt; last_of(&[1, 4, 0, 7, 4, 0x10, 0]), Some(left));
    assert_eq!(rt; last_of(&[3, 0]), None);
}
