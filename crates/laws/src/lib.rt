// What the proofs of several crates need. There is no code here: `proofs/` is the crate.
#![tactic(auto)]
