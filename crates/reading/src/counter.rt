ghost use Rattle.std.specs.Prelude.{◌≡◌};
ghost use Rattle.node.specs.declared.nodes.Located.{Located};
ghost use Rattle.reading.specs.declared.counter.Counter.{Counter};
ghost use Rattle.reading.specs.Counters.{after_node};
ghost use Rattle.code.specs.Verdicts.{verdict};
ghost use Rattle.reading.specs.Counts.{occurring, counter_of};

use crate::counts::CountFault;
use crate::reads::read;
use crate::receiver::Receiver;
use node::{Fault, LAST_INGREDIENT, Located, Node};

// A receiver that counts the nodes that hold one ingredient.
#[derive(Clone, Copy)]
pub(crate) struct Counter {
    ingredient: u16,
    found: u16,
}

impl Counter {
    pub(crate) fn new(ingredient: u16) -> Result<Self, CountFault>
        ensures { result ≡ counter_of ingredient }
    {
        if ingredient > LAST_INGREDIENT {
            return Err(CountFault::UnknownIngredient);
        }
        Ok(Counter {
            ingredient,
            found: 0,
        })
    }

    // How many nodes of a whole code hold the ingredient.
    pub(crate) fn over(mut self, code: &[u8]) -> Result<u16, Fault>
        requires { self.found ≡ 0 }
        ensures { result ≡ occurring self.ingredient (verdict code.now) }
    {
        read(&mut self, code)?;
        Ok(self.found)
    }
}

impl Receiver for Counter {
    ghost Held = { Counter };

    ghost held = { λ c. c };

    ghost more = { after_node };

    fn put(&mut self, node: Located) {
        // a pattern: where nodes are compared, the compiled loop of a reading asks for their kind again
        if matches!(node.node, Node::Ingredient(i) if i == self.ingredient) {
            self.found = self.found.saturating_add(1);
        }
    }
}
