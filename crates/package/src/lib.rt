// Caption packages: their format, reading, and the view of the bytes that reading answers.
#![tactic(auto)]

pub mod counts;
pub mod faults;
pub mod reading;
mod shaped;
pub mod views;

pub use counts::Counts;
pub use faults::ReadFault;
pub use reading::read;
pub use shaped::MOST_CODE;
pub use views::ReadPackage;

#[cfg(test)]
mod tests;
