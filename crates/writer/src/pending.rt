ghost use Rattle.std.specs.Prelude.{◌≡◌, ◌<◌, ◌≤◌, length};

// The right sides that wait until their left ones are written, at the front of places that are lent.
#[derive(Drop)]
pub(crate) struct Pending<'a> {
    places: &'a mut [u64],
    count: usize,
    ghost within: { count ≤ length places.now },
}

impl Pending<'_> {
    ghost use Rattle.writer.specs.Pending.{none_wait, waiting, pushed, ahead, popped};

    // None waits.
    pub(crate) fn over(places: &mut [u64]) -> Pending<'_>
        ensures { waiting result ≡ none_wait (length places.old) }
    {
        Pending { places, count: 0 }
    }

    pub(crate) fn push(&mut self, right: u64)
        requires { self.old.count < length self.old.places.now }
        ensures { waiting self.new ≡ pushed right (waiting self.old) }
    {
        self.places[self.count] = right;
        self.count += 1;
    }

    // The latest.
    pub(crate) fn pop(&mut self) -> Option<u64>
        ensures { ahead result self.new ≡ popped (waiting self.old) }
    {
        self.count = self.count.checked_sub(1)?;
        Some(self.places[self.count])
    }
}
