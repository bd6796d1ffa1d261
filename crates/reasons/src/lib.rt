// Why this gear: what the card does at one second, step by step, with the facts of every gear. It reads the second's trip alone.
#![tactic(auto)]

mod explain;
mod facts;
mod steps;
mod whole;

use checks::Span;
use rules::{Reasons, Refusal, Role};
pub use whole::why;

// What is answered: a refusal or none, and what is said of the second. They stay a pair, since a refusal by 10 comes with reasons too.
#[derive(Clone, Copy)]
pub struct Explained {
    pub answer: Result<(), Refusal>,
    pub reasons: Reasons,
}

// What a second is: standing, standing before a trip, or moving; as numbered in the C record.
#[derive(Clone, Copy, PartialEq, Eq)]
pub(crate) enum Kind {
    Standing = 0,
    BeforeTrip = 1,
    Moving = 2,
}

// A second and what it is; the second that is spoken of, its trip, and the seconds that are checked.
#[derive(Clone, Copy)]
pub(crate) struct View {
    pub second: usize,
    pub kind: Kind,
    pub about: usize,
    pub trip: Span,
    pub checked: Span,
}

// What a second is in its trip, whether it lies in the closing run, its first choice, its gear after A, B and C, and the ceiling of B.
#[derive(Clone, Copy)]
pub struct Chain {
    pub role: Role,
    pub closes: bool,
    pub choice: u8,
    pub after_a: u8,
    pub after_b: u8,
    pub after_c: u8,
    pub ceiling: u8,
}
