// Codes written, and what is left in the buffers.
ghost use Rattle.trials.specs.Trees.{tree, sample};

use machine::MachineFault;
use writer::{Head, Unfolding, write_code};

// A tree that is twice as large at each level: the position is the level.
#[derive(Clone, Copy)]
struct Doubling;

impl Unfolding for Doubling {
    ghost term = { λ _. tree };

    fn look(&self, position: u64) -> Option<Head> {
        Some(match position.checked_sub(1) {
            None => Head::Ingredient(261),
            Some(below) => Head::Application {
                left: below,
                right: below,
            },
        })
    }
}

// One node of each kind, and a function whose body is missing.
#[derive(Clone, Copy)]
struct Samples;

impl Unfolding for Samples {
    ghost term = { λ _. sample };

    fn look(&self, position: u64) -> Option<Head> {
        match position {
            0 => Some(Head::Application { left: 1, right: 2 }),
            1 => Some(Head::Function { body: 3 }),
            2 => Some(Head::Ingredient(261)),
            3 => Some(Head::Place(200)),
            4 => Some(Head::Function { body: 5 }),
            _ => None,
        }
    }
}

#[test]
fn a_code_is_written_to_the_front(rt: HostRuntime) {
    let mut output = [9; 8];
    let mut scratch = [9; 8];
    assert_eq!(rt; write_code(&Samples, 0, &mut output, &mut scratch), Ok(7));
    assert_eq!(rt; output, [1, 2, 3, 200, 4, 1, 5, 9]);
    assert_eq!(rt; scratch, [0; 8]);
}

#[test]
fn left_sides_come_first(rt: HostRuntime) {
    let mut output = [9; 15];
    let mut scratch = [9; 15];
    assert_eq!(rt; write_code(&Doubling, 2, &mut output, &mut scratch), Ok(15));
    assert_eq!(rt; output, [1, 1, 4, 1, 5, 4, 1, 5, 1, 4, 1, 5, 4, 1, 5]);
    assert_eq!(rt; scratch, [0; 15]);
}

#[test]
fn a_longer_code_leaves_nothing(rt: HostRuntime) {
    let mut output = [9; 14];
    let mut scratch = [9; 15];
    assert_eq!(rt;
        write_code(&Doubling, 2, &mut output, &mut scratch),
        Err(MachineFault::ShortOutput)
    );
    assert_eq!(rt; output, [0; 14]);
    assert_eq!(rt; scratch, [0; 15]);
}

#[test]
fn a_vast_term_is_refused_at_once(rt: HostRuntime) {
    let mut output = [9; 64];
    let mut scratch = [9; 64];
    assert_eq!(rt;
        write_code(&Doubling, u64::MAX, &mut output, &mut scratch),
        Err(MachineFault::ShortOutput)
    );
    assert_eq!(rt;
        write_code(&Doubling, 60, &mut [], &mut []),
        Err(MachineFault::ShortOutput)
    );
}

#[test]
fn a_missing_part_is_refused(rt: HostRuntime) {
    let mut output = [9; 4];
    let mut scratch = [9; 4];
    assert_eq!(rt;
        write_code(&Samples, 4, &mut output, &mut scratch),
        Err(MachineFault::ShortOutput)
    );
    assert_eq!(rt; output, [0; 4]);
    assert_eq!(rt; scratch, [0; 4]);
}

#[test]
fn a_short_scratch_leaves_both(rt: HostRuntime) {
    let mut output = [9; 4];
    let mut scratch = [9; 3];
    assert_eq!(rt;
        write_code(&Samples, 3, &mut output, &mut scratch),
        Err(MachineFault::ShortScratch)
    );
    assert_eq!(rt; output, [9; 4]);
    assert_eq!(rt; scratch, [9; 3]);
}
