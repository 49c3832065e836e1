// Instructions: what stands in the code, and what later layers ask of it.
#![tactic(auto)]

pub mod decoding;
pub mod effects;
mod operand;
pub mod operations;

pub use decoding::{Decoded, decode};
pub use effects::{Effect, Flow, Want};
pub use operations::{Binary, Branch, Compare, Instruction, Opening, Operation, Return, Unary};
