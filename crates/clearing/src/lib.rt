// Clearing: a package that was read, held to every rule.
#![tactic(auto)]

pub mod checking;
pub mod cleared;
pub mod clearing;
mod passes;

pub use checking::{CheckFault, check};
pub use cleared::ClearedPackage;
pub use clearing::clear;
pub use rules::Rule;
pub use verdict::ClearFault;

#[cfg(test)]
mod tests;
