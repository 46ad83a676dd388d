// Laws of lists and of tests, for all types. They are in proofs/; there is no code.
#![tactic(auto)]
