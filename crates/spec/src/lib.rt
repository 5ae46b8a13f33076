// What is believed and what is proved of it stand in specs/ and proofs/; this crate has no code.
#![tactic(auto)]
