ghost use Rattle.std.specs.Prelude.{◌≡◌, ◌≤◌, length, fold};
ghost use Rattle.code.specs.Scans.{finished, handed_over};
ghost use Rattle.code.specs.Verdicts.{verdict, told};
ghost use Rattle.code.specs.Law.{ReadingLaw};

use crate::frontier::{Frontier, Opening};
use crate::receiver::Receiver;
use node::{Fault, Site, spell};

// The answer where nothing more is to come.
fn finish(end: usize, number: u16, rest: &[u8]) -> Result<u16, Fault>
    requires { length rest.now ≤ end }
    ensures { result ≡ finished end number rest.now }
{
    let at = end - rest.len();
    match rest {
        [] => Ok(number),
        [_, ..] => Err(Fault::Leftover { at }),
    }
}

// Reads a code left to right, gives the receiver each node that passes, and answers the size of the term or the first fault.
pub fn read<R: Receiver>(receiver: &mut R, code: &[u8]) -> Result<u16, Fault>
    ensures answer { result ≡ told (verdict code.now) }
    ensures held { R.held receiver.new ≡ fold R.more (R.held receiver.old) (handed_over code.now) }
    ensures law { ReadingLaw code.now }
{
    let mut frontier = Frontier::new();
    // the whole term
    let mut nearest = Some(Opening {
        part: None,
        depth: 0,
    });
    let mut number = 0;
    let mut rest = code;
    while let Some(opening) = nearest {
        let site = Site {
            at: code.len() - rest.len(),
            number,
            depth: opening.depth,
        };
        let node = site.judge(code.len(), spell(rest))?;
        // here, where the compiled code knows the width: further down it asks for the node's kind again
        rest = &rest[node.width()..];
        let located = frontier.locate(number, opening, node);
        receiver.put(located);
        nearest = frontier.open(located);
        number += 1;
    }
    finish(code.len(), number, rest)
}
