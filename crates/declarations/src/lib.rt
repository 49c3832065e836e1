// What the fields of a package declare: procedures and marks, as views of the fields' bytes.
#![tactic(auto)]

mod codes;
mod found;
pub mod marks;
pub mod procedures;

pub use marks::MarkView;
pub use procedures::ProcedureView;

#[cfg(test)]
mod tests;
