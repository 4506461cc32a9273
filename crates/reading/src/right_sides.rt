ghost use Rattle.std.specs.Prelude.{◌≡◌, ◌+◌, ◌<◌, ◌≤◌, [], ◌∷◌, MatchOption};
ghost use Rattle.term.specs.Terms.{most_nodes};

// A right side that waits for the left side: its application's number, and its depth.
#[derive(Clone, Copy)]
pub(crate) struct RightSide {
    pub application: u16,
    pub depth: u8,
}

// The right sides that wait, a stack. All its places are set to zero at each reading, which two plain tables make cheap.
#[derive(Drop)]
pub(crate) struct RightSides {
    applications: [u16; 4096],
    depths: [u8; 4096],
    count: usize,
    ghost within: { count ≤ most_nodes },
}

impl RightSides {
    ghost use Rattle.reading.specs.RightSides.{top_down};

    // None waits.
    pub(crate) fn new() -> Self
        ensures { result.count ≡ 0 }
    {
        RightSides {
            applications: [0; 4096],
            depths: [0; 4096],
            count: 0,
        }
    }

    pub(crate) fn push(&mut self, right_side: RightSide)
        requires { self.old.count < most_nodes }
        ensures rows { top_down self.new ≡ right_side ∷ top_down self.old }
        ensures count { self.new.count ≡ self.old.count + 1 }
    {
        let RightSide { application, depth } = right_side;
        // a name of its own: else the compiled code reads the count again after each write to a table
        let top = self.count;
        self.applications[top] = application;
        self.depths[top] = depth;
        self.count = top + 1;
    }

    // The latest.
    pub(crate) fn pop(&mut self) -> Option<RightSide>
        ensures { MatchOption result
            ((top_down self.old ≡ []) × (self.new ≡ self.old))
            (λ right_side. (top_down self.old ≡ right_side ∷ top_down self.new) × (self.old.count ≡ self.new.count + 1)) }
    {
        let top = self.count.checked_sub(1)?;
        self.count = top;
        Some(RightSide {
            application: self.applications[top],
            depth: self.depths[top],
        })
    }
}
