ghost use Rattle.std.specs.Prelude.{◌≡◌, if◌then◌else◌, nat_lt};
ghost use Rattle.machine.specs.declared.outcomes.Outcome.TheVariants.{Made, Full};
ghost use Rattle.machine.specs.Rules.{outcome_due};
ghost use Rattle.tables.specs.Usages.{usage, free_of};
ghost use Rattle.closure.specs.Views.{meaning};

use crate::state::Closure;
use closure_tables::Cell;
use machine::{MachineFault, Outcome, Table, Transition};
use tables::Level;

// Whether a table has a place for a transition.
fn afford(level: &Level, transition: Transition, table: Table) -> Outcome
    ensures { result ≡ (if nat_lt 0 (free_of (usage level.now)) then Made transition else Full table) }
{
    if level.free() > 0 {
        Outcome::Made(transition)
    } else {
        Outcome::Full(table)
    }
}

impl Closure {
    // What a step would come to. A substitution copies nothing, so there are always places for it.
    pub(crate) fn outcome(&self) -> Result<Outcome, MachineFault>
        ensures { result ≡ outcome_due (meaning self.now) }
    {
        Ok(match self.cell()? {
            Cell::Application { right: _ } => {
                afford(&self.levels.stack, Transition::Search, Table::Stack)
            }
            Cell::Function if self.levels.stack.used() == 0 => Outcome::Done,
            Cell::Function => afford(&self.levels.entries, Transition::Beta, Table::Entries),
            Cell::Place(_) => Outcome::Made(Transition::Substitution),
            Cell::Ingredient(_) => Outcome::Done,
        })
    }
}
