// The whole working of document 01, and the sweep that works a range of the card in place.
#![tactic(auto)]

mod rework;
mod whole;

pub use rework::sweep;
pub use whole::work;
