// Machines, through their interface, on recipes with known ends.
use closure::Closure;
use closure_tables::{Argument, Cell, Entry};
use machine::{Machine, MachineFault, Outcome, Table, Transition};
use node::Fault;
use std::alloc::{AllocError, Global};
use std::fmt::Debug;
use std::test::Fail;

// a function that returns its argument, applied to an ingredient
const IDENTITY: [u8; 7] = [0x01, 0x02, 0x03, 0x00, 0x04, 0x00, 0x05];

// a function that applies its argument to itself, applied to itself: it has no end
const ENDLESS: [u8; 13] = [
    0x01, 0x02, 0x01, 0x03, 0x00, 0x03, 0x00, 0x02, 0x01, 0x03, 0x00, 0x03, 0x00,
];

// an argument that is used twice, once inside itself: a machine that does not tell the two uses apart never ends
const NESTED: [u8; 25] = [
    0x01, 0x02, 0x01, 0x01, 0x01, 0x03, 0x00, 0x03, 0x00, 0x02, 0x03, 0x00, 0x02, 0x01, 0x03, 0x00,
    0x03, 0x00, 0x02, 0x02, 0x01, 0x03, 0x01, 0x03, 0x00,
];

fn machine_of(
    heap: Global,
    nodes: usize,
    entries: usize,
    stack: usize,
) -> Result<Closure, AllocError> {
    Ok(Closure::new(
        vec![in heap; Cell::BLANK; nodes]?,
        vec![in heap; Entry::BLANK; entries]?,
        vec![in heap; Argument::BLANK; stack]?,
    ))
}

// How often a machine made each kind of transition.
#[derive(Clone, Copy, PartialEq, Eq, Debug)]
struct Counts {
    betas: u32,
    substitutions: u32,
    searches: u32,
}

fn counted(betas: u32, substitutions: u32, searches: u32) -> Counts {
    Counts {
        betas,
        substitutions,
        searches,
    }
}

// Steps until nothing is made, or `most` transitions are.
fn run<M: Machine>(machine: &mut M, most: u32) -> Result<Counts, MachineFault> {
    let mut made = counted(0, 0, 0);
    for _ in 0..most {
        match machine.step()? {
            Outcome::Made(Transition::Beta) => made.betas = made.betas.saturating_add(1),
            Outcome::Made(Transition::Substitution) => {
                made.substitutions = made.substitutions.saturating_add(1)
            }
            Outcome::Made(Transition::Search) => made.searches = made.searches.saturating_add(1),
            Outcome::Done | Outcome::Full(_) => return Ok(made),
        }
    }
    Ok(made)
}

// Fails a trial whose answer is another; `assert_eq!` would want the right to abort.
fn check_eq<T: PartialEq + Debug + Drop>(found: T, wanted: T) -> Result<(), Fail> {
    if found == wanted {
        return Ok(());
    }
    Err(Fail::new(format_args!("{found:?}, and not {wanted:?}")))
}

// A recipe, its size, how often each kind of transition is made of it, and the code that stands then.
#[derive(Clone, Copy)]
struct Trial<'a> {
    code: &'a [u8],
    size: u16,
    counts: Counts,
    standing: &'a [u8],
}

fn stands<M: Machine>(machine: &M, code: &[u8]) -> Result<(), Fail> {
    let mut output = [0; 32];
    let mut scratch = [0; 32];
    let length = machine.write(&mut output, &mut scratch)?;
    check_eq(&output[..length], code)
}

fn ends<M: Machine>(machine: &mut M, trial: &Trial) -> Result<(), Fail> {
    check_eq(machine.start(trial.code), Ok(trial.size))?;
    check_eq(run(machine, 1000)?, trial.counts)?;
    check_eq(machine.due(), Ok(Outcome::Done))?;
    stands(machine, trial.standing)?;
    machine.empty();
    Ok(())
}

fn all_end<M: Machine>(machine: &mut M) -> Result<(), Fail> {
    let trials = [
        Trial {
            code: &[0x04, 0x00, 0x05],
            size: 1,
            counts: counted(0, 0, 0),
            standing: &[0x04, 0x00, 0x05],
        },
        Trial {
            code: &IDENTITY,
            size: 4,
            counts: counted(1, 1, 1),
            standing: &[0x04, 0x00, 0x05],
        },
        Trial {
            code: &[0x01, 0x02, 0x03, 0x00, 0x02, 0x03, 0x00],
            size: 5,
            counts: counted(1, 1, 1),
            standing: &[0x02, 0x03, 0x00],
        },
        Trial {
            code: &[0x01, 0x04, 0x00, 0x01, 0x04, 0x00, 0x02],
            size: 3,
            counts: counted(0, 0, 1),
            standing: &[0x01, 0x04, 0x00, 0x01, 0x04, 0x00, 0x02],
        },
        Trial {
            code: &NESTED,
            size: 18,
            counts: counted(6, 7, 6),
            standing: &[0x02, 0x01, 0x03, 0x00, 0x03, 0x00],
        },
    ];
    for trial in &trials {
        ends(machine, trial)?;
    }
    Ok(())
}

#[test]
fn recipes_end_as_known(rt: HostRuntime) -> Result<(), Fail> {
    all_end(&mut machine_of(rt.alloc(), 18, 6, 8)?)
}

fn comes_round<M: Machine>(machine: &mut M) -> Result<(), Fail> {
    machine.start(&ENDLESS)?;
    check_eq(run(machine, 13)?, counted(3, 6, 4))?;
    stands(machine, &ENDLESS)
}

#[test]
fn what_has_no_end_comes_round(rt: HostRuntime) -> Result<(), Fail> {
    comes_round(&mut machine_of(rt.alloc(), 9, 4, 2)?)
}

fn fills<M: Machine>(machine: &mut M, code: &[u8], made: Counts, table: Table) -> Result<(), Fail> {
    machine.start(code)?;
    check_eq(run(machine, 1000)?, made)?;
    check_eq(machine.due(), Ok(Outcome::Full(table)))?;
    check_eq(machine.step(), Ok(Outcome::Full(table)))
}

#[test]
fn entries_run_out(rt: HostRuntime) -> Result<(), Fail> {
    fills(
        &mut machine_of(rt.alloc(), 9, 2, 2)?,
        &ENDLESS,
        counted(2, 3, 3),
        Table::Entries,
    )
}

#[test]
fn the_stack_runs_out(rt: HostRuntime) -> Result<(), Fail> {
    fills(
        &mut machine_of(rt.alloc(), 8, 1, 0)?,
        &IDENTITY,
        counted(0, 0, 0),
        Table::Stack,
    )
}

fn writes<M: Machine>(machine: &mut M) -> Result<(), Fail> {
    let mut short = [9; 2];
    let mut output = [9; 3];
    let mut scratch = [9; 3];
    check_eq(
        machine.write(&mut short, &mut scratch),
        Err(MachineFault::Empty),
    )?;
    check_eq(short, [9; 2])?;
    machine.start(&[0x04, 0x00, 0x05])?;
    check_eq(
        machine.write(&mut short, &mut scratch),
        Err(MachineFault::ShortOutput),
    )?;
    check_eq(short, [0; 2])?;
    check_eq(scratch, [0; 3])?;
    check_eq(machine.write(&mut output, &mut scratch), Ok(3))?;
    check_eq(output, [0x04, 0x00, 0x05])
}

#[test]
fn a_write_fits_or_leaves_nothing(rt: HostRuntime) -> Result<(), Fail> {
    writes(&mut machine_of(rt.alloc(), 1, 0, 0)?)
}

fn refuses_in_order<M: Machine>(machine: &mut M) -> Result<(), Fail> {
    check_eq(machine.step(), Err(MachineFault::Empty))?;
    let longer = [0x01, 0x02, 0x03, 0x00, 0x04, 0x00, 0x05, 0x00];
    check_eq(
        machine.start(&longer),
        Err(MachineFault::Code(Fault::Leftover { at: 7 })),
    )?;
    check_eq(machine.start(&IDENTITY), Err(MachineFault::TooLarge))?;
    check_eq(machine.due(), Err(MachineFault::Empty))?;
    check_eq(machine.start(&[0x02, 0x03, 0x00]), Ok(2))?;
    check_eq(machine.start(&[]), Err(MachineFault::Standing))
}

#[test]
fn starts_are_refused_in_order(rt: HostRuntime) -> Result<(), Fail> {
    refuses_in_order(&mut machine_of(rt.alloc(), 3, 1, 1)?)
}
