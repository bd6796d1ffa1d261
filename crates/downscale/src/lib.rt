// The Class 3 cycle scaled down for weak cars: in closed form, as offered, and step by step as Annex 1 has it.
#![tactic(auto)]

mod checks;
mod closed;
mod stepwise;

pub use closed::downscale;
pub use stepwise::downscale_steps;
