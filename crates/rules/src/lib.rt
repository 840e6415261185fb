// Document 01's limits. The types that the rules speak of come from crates/rules_types.
#![tactic(auto)]

pub mod limits;

pub use rules_types::{Edition, Generation, Phase, Port, Refusal, Root};
