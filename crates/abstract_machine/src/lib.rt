// The abstract machine that stands behind the real ones is a definition of specs/; here stand its laws.
#![tactic(auto)]

ghost use Rattle.abstract_machine.specs.Law.{MachineLaw, ObeysRules};

// Search and substitution keep the term, β is one weak head step of it, what is done is normal.
pub fn reduces_its_term()
    ensures { MachineLaw }
{}

// With tables of limited length it obeys the rules of a machine.
pub fn obeys_the_rules()
    ensures { ObeysRules }
{}
