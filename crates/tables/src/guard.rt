ghost use Rattle.std.specs.Prelude.{◌≡◌};

use crate::levels::Levels;

// Holds the levels while work is under way that may be refused. As it ends they are again what they were, unless it is told to keep them.
pub struct Guard<'a> {
    pub levels: &'a mut Levels,
    saved: Levels,
}

impl Guard<'_> {
    // The clause `lent` says that these levels, and not others of the same value, come back as the guard leaves them.
    pub fn over(levels: &mut Levels) -> Guard<'_>
        ensures levels { result.levels.now ≡ levels.old }
        ensures lent { result.levels.ghost_name ≡ levels.entry.ghost_name }
        ensures saved { result.saved ≡ levels.old }
    {
        let saved = *levels;
        Guard { levels, saved }
    }

    // Ends the guard with the levels as they are.
    pub fn keep(self)
        ensures { self.exit.0.now ≡ self.entry.levels.now }
    {
        let Guard {
            levels: _,
            saved: _,
        } = self;
    }
}

impl Drop for Guard<'_> {
    fn drop(self)
        ensures { self.exit.0.now ≡ self.entry.saved }
    {
        let Guard { levels, saved } = self;
        *levels = saved;
    }
}
