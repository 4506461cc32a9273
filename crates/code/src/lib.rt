// What a whole code means, as definitions of specs/: the nodes that a reading hands over, and its verdict.
#![tactic(auto)]
