// Tables of packages, and what is printed of their lines.
//
// A case is a name, a colon and the package's bytes in hexadecimal. A group of digits may stand several times, as in
// `00*8192`, and groups are parted by white space. A line without a colon is a heading.
//
// This crate is a part of two programs that run on a computer and not on a card, so the bytes of a case and the text of
// a response are on the heap.
#![tactic(auto)]

mod bytes;
mod error;
mod line;
mod response;

pub use bytes::assemble;
pub use error::CaseError;
pub use line::Line;
pub use response::{Response, respond};

#[cfg(test)]
mod tests;
