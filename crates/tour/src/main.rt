// Takes a recipe of a real bakery through everything there is, and prints what happens.
#![tactic(auto)]

use closure::Closure;
use closure_tables::{Argument, Cell, Entry};
use machine::{Machine, MachineFault, Outcome};
use reading::{count, read};
use std::io;

const PANTRY: [(&str, u16); 5] = [
    ("flour", 1),
    ("water", 2),
    ("salt", 3),
    ("yeast", 4),
    ("butter", 5),
];

// A step that works one thing into another twice, applied to butter and to a plain dough.
const HOUSE_DOUGH: [u8; 34] = [
    0x01, 0x01, 0x02, 0x02, 0x01, 0x01, 0x03, 0x00, 0x03, 0x01, 0x03, 0x01, 0x04, 0x00, 0x05, 0x01,
    0x01, 0x01, 0x01, 0x04, 0x00, 0x01, 0x04, 0x00, 0x01, 0x04, 0x00, 0x02, 0x04, 0x00, 0x03, 0x04,
    0x00, 0x04,
];

fn print_code(rt: &impl Print, code: &[u8]) -> io::Result<()> {
    print!(rt; "  code")?;
    for byte in code {
        print!(rt; " {byte:02X}")?;
    }
    println!(rt; "")
}

fn print_verdict(rt: &impl Print, code: &[u8]) -> io::Result<()> {
    match read(&mut (), code) {
        Ok(size) => println!(rt; "  a recipe of {size} nodes"),
        Err(fault) => println!(rt;
            "  refused with {}, {fault}, at byte {}",
            u8::from(fault),
            fault.byte()
        ),
    }
}

fn print_counts(rt: &impl Print, code: &[u8]) -> io::Result<()> {
    for (name, ingredient) in PANTRY {
        match count(code, ingredient) {
            Ok(found) => println!(rt; "  {name}: {found}")?,
            Err(fault) => println!(rt; "  {name} not counted: {}, {fault}", u8::from(fault))?,
        }
    }
    Ok(())
}

fn print_recipe(rt: &impl Print) -> io::Result<()> {
    println!(rt; "The house dough: butter, worked into a plain dough twice")?;
    print_code(rt, &HOUSE_DOUGH)?;
    print_verdict(rt, &HOUSE_DOUGH)?;
    print_counts(rt, &HOUSE_DOUGH)
}

fn print_damaged(rt: &impl Print) -> io::Result<()> {
    println!(rt; "The same, cut short")?;
    print_verdict(rt, &HOUSE_DOUGH[0..33])?;

    println!(rt; "The same, with an unknown tag")?;
    let mut unknown = HOUSE_DOUGH;
    unknown[12] = 0x09;
    print_verdict(rt, &unknown)?;

    println!(rt; "The same, with a byte left over")?;
    let mut longer = [0; 35];
    longer[0..34].copy_from_slice(&HOUSE_DOUGH);
    print_verdict(rt, &longer)
}

fn print_machine_refusal(rt: &impl Print, fault: MachineFault) -> io::Result<()> {
    println!(rt; "  refused with {}, {fault}", u8::from(fault))
}

// Each transition, until none is made.
fn print_steps<M: Machine>(rt: &impl Print, machine: &mut M) -> io::Result<()> {
    for _ in 0..100 {
        match machine.step() {
            Ok(Outcome::Made(transition)) => println!(rt; "  {transition}")?,
            Ok(Outcome::Done) => return println!(rt; "  done"),
            Ok(Outcome::Full(table)) => return println!(rt; "  full: {table}"),
            Err(fault) => return print_machine_refusal(rt, fault),
        }
    }
    Ok(())
}

fn print_standing<M: Machine>(rt: &impl Print, machine: &M) -> io::Result<()> {
    let mut output = [0; 64];
    let mut scratch = [0; 64];
    match machine.write(&mut output, &mut scratch) {
        Ok(length) => {
            let code = &output[..length];
            print_code(rt, code)?;
            print_counts(rt, code)
        }
        Err(fault) => print_machine_refusal(rt, fault),
    }
}

fn print_reduction<M: Machine>(rt: &impl Print, machine: &mut M) -> io::Result<()> {
    println!(rt; "The house dough in a machine of kind {}", M::KIND)?;
    match machine.start(&HOUSE_DOUGH) {
        Ok(size) => println!(rt; "  started with {size} nodes")?,
        Err(fault) => print_machine_refusal(rt, fault)?,
    }
    print_steps(rt, machine)?;
    println!(rt; "What stands then")?;
    print_standing(rt, machine)
}

fn main(rt: HostRuntime) -> io::Result<()> {
    print_recipe(&rt)?;
    print_damaged(&rt)?;
    let heap = rt.alloc();
    let mut machine = Closure::new(
        [Cell::BLANK; 64].to_vec(heap)?,
        [Entry::BLANK; 16].to_vec(heap)?,
        [Argument::BLANK; 16].to_vec(heap)?,
    );
    print_reduction(&rt, &mut machine)
}
