// Empty: for the older Rattle it had lemmas about functions over references. Today's Rattle makes that part of a proof by itself.
#![tactic(auto)]
