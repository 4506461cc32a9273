// A table whose level its owner lends, as a receiver: a full table takes no more, and the reading goes on.
ghost use Rattle.trials.specs.Kept.{Kept, keeping};

use node::{Fault, Located};
use reading::{Receiver, read};

// The depths of the first four nodes.
#[derive(Drop)]
struct Depths<'a> {
    table: [u8; 4],
    level: &'a mut usize,
}

impl Receiver for Depths<'_> {
    ghost Held = { Kept };

    ghost held = { λ depths. record { table = depths.table; level = depths.level.now; level_lent = depths.level.ghost_name } };

    ghost more = { keeping };

    fn put(&mut self, node: Located) {
        if *self.level < 4 {
            self.table[*self.level] = node.depth;
            *self.level += 1;
        }
    }
}

// What is left in the table and at the level once a code was read.
fn kept_of(code: &[u8]) -> (Result<u16, Fault>, [u8; 4], usize) {
    let mut level = 0;
    let mut depths = Depths {
        table: [9; 4],
        level: &mut level,
    };
    let size = read(&mut depths, code);
    let Depths { table, level: _ } = depths;
    (size, table, level)
}

#[test]
fn a_full_table_takes_no_more(rt: HostRuntime) {
    let (size, table, level) = kept_of(&[2, 1, 2, 1, 3, 0, 3, 1, 4, 0, 5]);
    assert_eq!(rt; size, Ok(7));
    assert_eq!(rt; level, 4);
    assert_eq!(rt; table, [0, 1, 1, 2]);
}

#[test]
fn a_refused_code_fills_what_came_before(rt: HostRuntime) {
    let (size, table, level) = kept_of(&[2, 1, 3, 0, 9]);
    assert_eq!(rt; size, Err(Fault::UnknownTag { at: 4 }));
    assert_eq!(rt; level, 3);
    assert_eq!(rt; table, [0, 1, 1, 9]);
}
