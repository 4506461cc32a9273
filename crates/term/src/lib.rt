// Terms, their codes and weak head reduction are definitions of specs/; here stand the laws of the reduction.
#![tactic(auto)]

ghost use Rattle.term.specs.Reduction.{FillsItsPlace, TakesInTurn, AtMostOneStep, NormalOrSteps, StepKeepsClosed};

// Filling a place puts the term there, and changes nothing else.
pub fn fills_its_place()
    ensures { FillsItsPlace }
{}

// A function of two arguments takes them in turn.
pub fn takes_in_turn()
    ensures { TakesInTurn }
{}

// A term has at most one step.
pub fn at_most_one_step()
    ensures { AtMostOneStep }
{}

// A closed term is normal or has a step, and not both.
pub fn normal_or_steps()
    ensures { NormalOrSteps }
{}

// A step keeps a term closed.
pub fn step_keeps_closed()
    ensures { StepKeepsClosed }
{}
