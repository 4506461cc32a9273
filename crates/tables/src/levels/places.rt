ghost use Rattle.std.specs.Prelude.{◌≡◌, ◌≤◌};
ghost use Rattle.tables.specs.Limits.{table_limit, capacity_of};
ghost use Rattle.tables.specs.Usages.{usage, free_of, unused, first_free, one_more, last_used, one_less};

use crate::levels::Level;

impl Level {
    // A table of that length with every place free; what it has past the limit is not for use.
    pub(crate) fn over(length: usize, limit: usize) -> Self
        requires { limit ≤ table_limit }
        ensures { usage result ≡ unused (capacity_of length limit) }
    {
        Level {
            used: 0,
            capacity: length.min(limit),
        }
    }

    pub fn free(&self) -> usize
        ensures { result ≡ free_of (usage self.now) }
    {
        self.capacity - self.used
    }

    // Takes the lowest free place into use and answers its number. Where the table is full nothing changes.
    pub fn take(&mut self) -> Option<usize>
        ensures place { result ≡ first_free (usage self.old) }
        ensures level { usage self.new ≡ one_more (usage self.old) }
    {
        if self.used >= self.capacity {
            return None;
        }
        let place = self.used;
        self.used += 1;
        Some(place)
    }

    // Gives the highest place in use back and answers its number. Where none is in use nothing changes.
    pub fn release(&mut self) -> Option<usize>
        ensures place { result ≡ last_used (usage self.old) }
        ensures level { usage self.new ≡ one_less (usage self.old) }
    {
        self.used = self.used.checked_sub(1)?;
        Some(self.used)
    }

    pub(crate) fn reset(&mut self)
        ensures { usage self.new ≡ unused self.old.capacity }
    {
        self.used = 0;
    }
}
