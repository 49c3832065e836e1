// The clearing rules, each at an offset of the code.
#![tactic(auto)]

pub mod needs;
pub mod places;
pub mod regions;
pub mod rule;
pub mod sites;

pub use rule::Rule;
