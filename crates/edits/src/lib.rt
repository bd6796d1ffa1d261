// The edits of one second, each with the summary kept beside the card: held, released, its sample mended. What is asked for is judged as it would stand,
// and nothing is written before every check has passed.
#![tactic(auto)]

mod asking;
mod buttons;
mod judging;
mod spans;

pub use buttons::{hold, mend, release};
use checks::Span;
use summaries::Tally;

// What was found out of an edit that no check refuses: the seconds that it re-works, and what the card as it stands counts there.
#[derive(Clone, Copy)]
pub struct Judged {
    pub range: Span,
    pub counted: Tally,
}
