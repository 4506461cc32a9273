ghost use Rattle.std.specs.Prelude.{ℕ, Option};
ghost use Rattle.term.specs.Terms.{Term};
ghost use Rattle.writer.specs.Heads.{Looks};

use crate::heads::Head;

// Terms that nobody has built, and that can be looked at from the root down.
pub trait Unfolding {
    // the term at a position, where the position and each one that it leads to name something
    ghost term: { Self → ℕ → Option Term };

    // None where the position names no term.
    fn look(&self, position: u64) -> Option<Head>
        ensures { Looks (term self.now) position result };
}
