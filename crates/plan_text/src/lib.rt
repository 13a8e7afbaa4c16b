// Definitions and proofs alone: this crate has no code.
#![tactic(auto)]
