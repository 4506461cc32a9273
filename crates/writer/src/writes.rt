ghost use Rattle.std.specs.Prelude.{◌≡◌, ◌<◌, ◌≤◌, length};
ghost use Rattle.machine.specs.Writing.{written, AfterWrite};
ghost use Rattle.writer.specs.Pending.{waiting, ahead};
ghost use Rattle.writer.specs.Walks.{advanced, AfterWalk};

use crate::heads::Head;
use crate::pending::Pending;
use crate::sheet::Sheet;
use crate::unfolding::Unfolding;
use machine::MachineFault;

// Where the writing goes on behind a head: at its first part, or at the latest right side that is pending.
fn advance(pending: &mut Pending<'_>, head: Head) -> Option<u64>
    requires { pending.old.count < length pending.old.places.now }
    ensures { ahead result pending.new ≡ advanced head (waiting pending.old) }
{
    match head {
        Head::Application { left, right } => {
            pending.push(right);
            Some(left)
        }
        Head::Function { body } => Some(body),
        Head::Place(_) | Head::Ingredient(_) => pending.pop(),
    }
}

// Writes the code of the term at the root to the front of the output; answers its length, if it fits.
#[tactic(auto, using(crate::proofs::Walking::falling))]
fn walk<U: Unfolding>(terms: &U, root: u64, output: &mut [u8], scratch: &mut [u64]) -> Option<usize>
    requires { length output.old ≤ length scratch.old }
    ensures { AfterWalk (U.term terms.now root) output.old result output.new }
{
    let mut sheet = Sheet::over(output);
    let mut pending = Pending::over(scratch);
    let mut next = Some(root);
    while let Some(position) = next {
        let head = terms.look(position)?;
        sheet.put(head)?;
        next = advance(&mut pending, head);
    }
    Some(sheet.end)
}

// Writes the code of the term at a position to the front of the output; answers its length.
// The scratch is its only memory: a right side waits there until the left one is written.
pub fn write_code<U: Unfolding>(
    terms: &U,
    root: u64,
    output: &mut [u8],
    scratch: &mut [u64],
) -> Result<usize, MachineFault>
    ensures { AfterWrite (written (U.term terms.now root) output.old scratch.old) result output.new scratch.new }
{
    if scratch.len() < output.len() {
        return Err(MachineFault::ShortScratch);
    }
    let length = walk(terms, root, output, scratch);
    scratch.fill(0);
    match length {
        Some(length) => Ok(length),
        None => {
            output.fill(0);
            Err(MachineFault::ShortOutput)
        }
    }
}
