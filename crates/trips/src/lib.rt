// The work on one trip, from its own speeds with the one that follows, its holds, and its part of the card, in place.
#![tactic(auto)]

mod byte;
mod peak;
mod rising;
mod slowing;
mod work;

pub use byte::turning;
pub use peak::pass_a;
pub use rising::pass_b;
pub use slowing::{closing_from, pass_c};
pub use work::{first_choices, work_trip};
