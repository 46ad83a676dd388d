// Laws of a host's clock, over lists of its calls.
#![tactic(auto)]

ghost use Rattle.clock_laws.specs.Moves.{ClockMoves};
ghost use Rattle.clock_laws.specs.NeverBack.{NeverBack};
ghost use Rattle.clock_laws.specs.Slewed.{Slewed};
ghost use Rattle.clock_laws.specs.Lasts.{Lasts};
ghost use Rattle.clock_laws.specs.Back.{Sharp};

// What a call does to the clock is its moves, one after another.
pub fn clock_moves()
    ensures { ClockMoves }
{}

// A later reading is at least an earlier one less one millisecond, where between them are ticks, slewing sets, seconds and one adjust at most, the date stays, and counter and ticks together do not fall.
pub fn never_back()
    ensures { NeverBack }
{}

// After a set that slews, the amounts added to CLOCK by adjusts and the rest in DELTA sum to the set amount. DELTA shrinks towards 0.
pub fn slewed()
    ensures { Slewed }
{}

// How many adjusts a slew takes, exactly, and what remains.
pub fn lasts()
    ensures { Lasts }
{}

// A clock goes back by exactly one, and by more where any one hypothesis is not met.
pub fn sharp()
    ensures { Sharp }
{}
