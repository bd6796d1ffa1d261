// The summary of a card, request Nine: its seconds counted, once over the whole card or over a stretch of it, and brought up to date.
#![tactic(auto)]

mod settle;
mod stretch;
mod whole;

pub use settle::updated;
pub use stretch::{count, none_counted};
pub use whole::summary_of;

// What has been counted so far: moving seconds in each gear that a byte can show, 0 to 15, at place 16 standing seconds, so that a second is counted without
// a branch; and gear changes.
#[derive(Clone, Copy)]
pub struct Tally {
    pub counts: [u16; 17],
    pub changes: u16,
}
