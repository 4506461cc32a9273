// The limits that follow from the rules of a machine. What they speak of are definitions of specs/; here stand the laws.
#![tactic(auto)]

ghost use Rattle.limits.specs.Counts.{Triangles};
ghost use Rattle.limits.specs.Limits.{LimitsOfRuns, EnoughPlaces};
ghost use Rattle.limits.specs.Runs.{RunsGrow};

// Twice the sum of the numbers up to n is n (n + 1).
pub fn triangles()
    ensures { Triangles }
{}

// A run begins with a start and goes on with each transition.
pub fn runs_grow()
    ensures { RunsGrow }
{}

// How many transitions a run has and how many places it takes, by its β transitions.
pub fn limits_of_runs()
    ensures { LimitsOfRuns }
{}

// How many places are enough for a term to come to its normal form.
pub fn enough_places()
    ensures { EnoughPlaces }
{}
