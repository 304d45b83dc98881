// State signatures (signatures.rs): pairs (label, block), ascending, no pair twice. Each goes over the first cells of two lent columns,
// and its answer is the number of pairs.
#![tactic(auto)]

pub mod cores;
pub mod flat;
pub mod inductive;
pub mod strong;
pub mod tau_hat;
