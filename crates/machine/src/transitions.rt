ghost use Rattle.std.specs.Prelude.{◌≡◌, Some};
ghost use Rattle.std.specs.Fmt.{padded};
ghost use Rattle.machine.specs.Outcomes.{transition_number, transition_name};

use std::fmt;

// The kinds of transition, with their numbers.
#[derive(Clone, Copy, PartialEq, Eq, Debug)]
pub enum Transition {
    // a function takes its argument
    Beta = 1,
    // a filled place gives way to what fills it
    Substitution = 2,
    // from an application to its left side
    Search = 3,
}

impl Transition {
    pub fn name(&self) -> &'static str
        ensures { result.now ≡ transition_name self.now }
    {
        match self {
            Transition::Beta => "beta",
            Transition::Substitution => "substitution",
            Transition::Search => "search",
        }
    }
}

impl fmt::Display for Transition {
    ghost output = { λ transition. Some (transition_name transition) };

    ghost styled_output = { λ transition style. Some (padded style (transition_name transition)) };

    fn fmt<W: fmt::Write>(&self, f: &mut fmt::Formatter<W>) -> fmt::Result {
        f.pad(self.name())
    }
}

// The number of a kind of transition.
impl From<Transition> for u8 {
    ghost from_gives = { λ transition number. number ≡ transition_number transition };

    fn from(transition: Transition) -> u8 {
        transition as u8
    }
}
