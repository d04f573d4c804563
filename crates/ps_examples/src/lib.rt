//! Examples of the definitions, each evaluated: small texts, rules, boards and whole games, and what they come to.
//!
//! Nothing here runs, and no crate stands on this one. A row in `proofs/` is a lemma whose proof is that both sides
//! compute to the same; a wrong value is refused with both sides shown.
#![tactic(auto)]

/// The rows are evaluated with the proof of this function, which does nothing.
pub fn rows_are_evaluated() {}
