// One exchange of two packets between two clocks, over the width of the words: HELLO's step 3 and NTP's formulas.
#![tactic(auto)]

ghost use Rattle.exchange.specs.HalfDelay.{HalfDelay};
ghost use Rattle.exchange.specs.Needed.{Needed};

// The half-delay law: twice the error of an exchange's offset is at most its delay plus one, by both formulas and at every width.
#[tactic(auto, using(crate::proofs::HalfDelay::half_delay_lem))]
pub fn half_delay()
    ensures { HalfDelay }
{}

// Each of its conditions is needed.
pub fn conditions_needed()
    ensures { Needed }
{}
