// The sums of the blackboard.
#![tactic(auto)]

ghost use Rattle.sum_laws.specs.Sums.{Sums};

pub fn sums()
    ensures { Sums }
{}
