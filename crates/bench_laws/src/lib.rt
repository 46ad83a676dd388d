// What is proved of the class bench: two runs join to one, a run is the list of calls that its events name, and demand 3 on it.
#![tactic(auto)]

ghost use Rattle.std.specs.Prelude.{◌≡◌};
ghost use Rattle.bench_laws.specs.Laws.{Stays, Joins};
ghost use Rattle.bench_laws.specs.Calls.{Calls};
ghost use Rattle.bench_laws.specs.Bound.{Bound};
ghost use Rattle.bench_laws.specs.Example.{Example};
ghost use Rattle.bench_laws.specs.Exchange.{Exchange};

// After events a run does not refuse the bench, and the count is the budget or the number of events that remain.
pub fn stays()
    ensures { Stays }
{}

// Two runs equal one run with the sum of their budgets.
pub fn joins()
    ensures { Joins }
{}

// Set-up and run are lists of calls, whatever the octets of the file are. They end by their form: set-up counts the file's hosts, and a run its budget.
pub fn calls()
    ensures { Calls }
{}

// Demand 3 for a file whose hosts and cables are those of a room, with events at the room's milliseconds.
pub fn bound()
    ensures { Bound }
{}

// A small file, run.
pub fn example()
    ensures { Example }
{}

// A file that meets every condition of demand 3 on the bench.
pub fn exchange()
    ensures { Exchange }
{}
