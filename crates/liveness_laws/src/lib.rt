// Liveness: the tables of a network fill, stay right, and empty of a host that is silent.
#![tactic(auto)]

ghost use Rattle.liveness_laws.specs.Handshake.{Handshake};
ghost use Rattle.liveness_laws.specs.Silence.{SilentHostFades, SilentHostGone};
ghost use Rattle.liveness_laws.specs.SilenceExample.{SilenceExample};
ghost use Rattle.liveness_laws.specs.Unreported.{UnreportedHostFades, UnreportedHostGone};
ghost use Rattle.liveness_laws.specs.UnreportedExample.{UnreportedExample};
ghost use Rattle.liveness_laws.specs.TablesFill.{TablesFill};
ghost use Rattle.liveness_laws.specs.RoundsExample.{RoundsExample};
ghost use Rattle.liveness_laws.specs.OrderClaim.{AnyOrder};
ghost use Rattle.liveness_laws.specs.OrderExample.{AnyOrderExample};
ghost use Rattle.liveness_laws.specs.Newest.{NewestInOrder};
ghost use Rattle.liveness_laws.specs.WithoutWalks.{WithoutWalks};
ghost use Rattle.liveness_laws.specs.TotalCorrectness.{TotalCorrectness};
ghost use Rattle.liveness_laws.specs.TotalExample.{TotalExample};

// Total correctness: after more rounds than the network is wide, every table lists exactly the hosts of the network, each with the length of a shortest way and a clock offset that is right to 50.5 ms a cable; and this stays so.
pub fn total_correctness()
    ensures { TotalCorrectness }
{}

// Two hosts and a cable: after two rounds both tables are right.
pub fn total_example()
    ensures { TotalExample }
{}

// Rounds: if in each round every host reports itself, sends, and then hears every cable, in one piece or by a walk, then after k + 1 rounds every table has exactly the hosts up to k cables away, each with a DELAY of 100 ms a cable and a PID along a shortest way.
pub fn tables_fill()
    ensures { TablesFill }
{}

// Two rounds of two hosts meet every condition of `tables_fill`.
pub fn rounds_example()
    ensures { RoundsExample }
{}

// Any order: if in each round every host reports itself and hears every cable, and no message overtakes another on its cable, then after k rounds every host less than k cables away is in every table with the DELAY of its shortest way. At every moment each DELAY is that of some way, a live entry stays live, its DELAY never rises, and PIDs form no loop.
pub fn any_order()
    ensures { AnyOrder }
{}

// If every arrival takes the newest message of its cable, no message overtakes another.
pub fn newest_in_order()
    ensures { NewestInOrder }
{}

// A list that opens no walk meets what `tables_fill` and `any_order` ask of walks.
pub fn without_walks()
    ensures { WithoutWalks }
{}

// Two rounds of two hosts, with sends and arrivals in turn, meet every condition of `any_order`.
pub fn any_order_example()
    ensures { AnyOrderExample }
{}

// Silence: if nothing of a host is heard for k times 120 seconds, each of its ids is, in every other table, down or at a DELAY of at least 100 (k + 1) ms.
pub fn silent_host_fades()
    ensures { SilentHostFades }
{}

// So after 299 times 120 seconds, just under ten hours, it is down in every other table.
pub fn silent_host_gone()
    ensures { SilentHostGone }
{}

// Three hosts and one epoch meet every condition of `silent_host_fades`, and the silent host is still up, at 200 ms.
pub fn silence_example()
    ensures { SilenceExample }
{}

// Unreported: if a host does not report itself for k times 120 seconds, each of its ids is, in every table, down or at a DELAY of at least 100 k ms. The host may be heard.
pub fn unreported_host_fades()
    ensures { UnreportedHostFades }
{}

// So after 300 times 120 seconds, ten hours, it is down in every table.
pub fn unreported_host_gone()
    ensures { UnreportedHostGone }
{}

// Three hosts and one epoch meet every condition of `unreported_host_fades`, and the host is still up elsewhere, at 100 ms.
pub fn unreported_example()
    ensures { UnreportedExample }
{}

// One link of any host: what an arrival teaches it, what a send says by it, and when a table that arrives on it is believed.
pub fn handshake()
    ensures { Handshake }
{}
