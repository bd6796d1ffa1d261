// The Class 3 cycle built in: a room filled with it, and a part of such a room.
#![tactic(auto)]

mod class_3;
mod filling;
mod parts;

pub use filling::fill;
pub use parts::{Stretch, part_of, stretch_of};
