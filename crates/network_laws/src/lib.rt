// Theorems about hosts and rooms of hosts.
#![tactic(auto)]

ghost use Rattle.network_laws.specs.Heard.{Heard};
ghost use Rattle.network_laws.specs.Answers.{Answers};
ghost use Rattle.network_laws.specs.Refusals.{Refusals};
ghost use Rattle.network_laws.specs.Frame.{Frame};
ghost use Rattle.network_laws.specs.Locality.{Locality};
ghost use Rattle.network_laws.specs.Range.{Range};
ghost use Rattle.network_laws.specs.Isolation.{Isolation, IsolationFromInitialize, Alone};
ghost use Rattle.network_laws.specs.Class.{ClassIsolation};
ghost use Rattle.network_laws.specs.Pair.{Pair};
ghost use Rattle.network_laws.specs.LineCalls.{LineCalls};
ghost use Rattle.network_laws.specs.OwnAlone.{OwnAlone};
ghost use Rattle.network_laws.specs.WalkEnds.{WalkEnds};
ghost use Rattle.network_laws.specs.TutorSeen.{TutorSeen};
ghost use Rattle.network_laws.specs.MidWalk.{MidWalk};
ghost use Rattle.network_laws.specs.EachBox.{EachBox};
ghost use Rattle.network_laws.specs.HalfDelay.{HelloHalfDelay};
ghost use Rattle.network_laws.specs.Demand3.{Demand3, Demand3AllCalls};
ghost use Rattle.network_laws.specs.NeverAlive.{NeverAlive};
ghost use Rattle.network_laws.specs.MarkedOnce.{MarkedOnce};
ghost use Rattle.network_laws.specs.SharedTable.{SharedDemand3};
ghost use Rattle.network_laws.specs.Example.{Example};
ghost use Rattle.network_laws.specs.Sharp.{Sharp};

// Each call gives the first answer whose condition holds: 12, 16, then upwards; and 0 where none does.
pub fn answers()
    ensures { Answers }
{}

// A refusal changes nothing, except for 10 and 11: at an arrival they change its link and keep the effects of the reading, and at a step they close the walk.
pub fn refusals()
    ensures { Refusals }
{}

// A call keeps the length of the host table and every place in it except its host's first NHOSTS. Only opening a walk changes the copy of a packet.
pub fn frame()
    ensures { Frame }
{}

// The reply and state after a call depend only on its number, settings, net table, clock, links, walk with its packet, entries and input, and on the lengths of the borrowed slices.
pub fn locality()
    ensures { Locality }
{}

// After initialization 12 does not refuse a host, nor after any call of such a host under the same settings except a step. After a step its clock, links and entries are in range, and a walk that was opened is never refused with 12. This holds whatever the tutor does to the net table.
pub fn range()
    ensures { Range }
{}

// What a send writes, an arrival at a host of the same layout never refuses with 3 to 8.
pub fn heard()
    ensures { Heard }
{}

// Lists of calls that agree at a host number have the same replies and state there, whatever is called at other numbers.
pub fn isolation()
    ensures { Isolation }
{}

// From an initialization on, whatever was there before it.
pub fn isolation_from_initialize()
    ensures { IsolationFromInitialize }
{}

// In one host table that all hosts share, deleting every other host's calls changes nothing at a number.
pub fn alone()
    ensures { Alone }
{}

// In a class, the replies and the state at a host number depend on its own calls and the tutor's, and on no other host's: deleting those changes nothing there.
pub fn class_isolation()
    ensures { ClassIsolation }
{}

// A list of a class's calls in which the tutor's calls change what a host's calls return.
pub fn tutor_seen()
    ensures { TutorSeen }
{}

// The arrival in one piece is the inspection and then the action, whatever comes between them, and so is the action alone.
pub fn inspect_then_act()
    ensures { Pair }
{}

// A call that is handed no count, and a step whose walk holds none, is the line clock's call of document 01, and keeps CLOCK within its day.
pub fn line_calls()
    ensures { LineCalls }
{}

// The calls of a host that marks its own id alone are those of a host without marks, whose entries' marks make no difference; and entries stay marked as set.
pub fn own_alone()
    ensures { OwnAlone }
{}

// Each box of a walk changes what its step or line names, of the clock, of one link or of one entry, and nothing else.
pub fn each_box()
    ensures { EachBox }
{}

// A walk that is opened and run to its end has the result of the arrival with the first box's counts and the fifth box's net table. It takes at most 5 + 4 x 255 boxes that are not refused. A box is refused only for its net table.
pub fn walk_ends()
    ensures { WalkEnds }
{}

// A walk in whose middle the tutor changes a row ends as the arrival with the changed table, and not as with the table of its opening.
pub fn mid_walk()
    ensures { MidWalk }
{}

// The half-delay law of step 3: DELAY is the sum of the two ways, and twice the error of OFFSET is at most DELAY plus one.
pub fn hello_half_delay()
    ensures { HelloHalfDelay }
{}

// Demand 3: after every list of the calls that it names, every live entry is for a host of the network, and its OFFSET is right to within 101/200 of its DELAY.
pub fn demand_3()
    ensures { Demand3 }
{}

// The same after every list of calls except initialize: adjust, set, read and lookup too, and the tutor's calls between them. Demand 3 follows from it.
pub fn demand_3_all_calls()
    ensures { Demand3AllCalls }
{}

// An id that no host of the network marks is down in every table.
pub fn never_alive()
    ensures { NeverAlive }
{}

// Each id is marked at one host at most: the own ids differ, and a live entry is right by the clock of the host that marks its id.
pub fn marked_once()
    ensures { MarkedOnce }
{}

// Demand 3, for all calls, if all hosts share one host table.
pub fn shared_demand_3()
    ensures { SharedDemand3 }
{}

// A history that meets every condition: a table comes alive, with an OFFSET that is wrong by more than half of the DELAY.
pub fn example()
    ensures { Example }
{}

// A history that breaks the claim where a message may be under way for 16,384 ms: so 16,383 is sharp.
pub fn sharp()
    ensures { Sharp }
{}
