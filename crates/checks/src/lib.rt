// The checks of document 01's table: 1 to 3 by lengths and the record, 4 to 9 of the seconds of a span, 10 for want of a gear, all of what is asked for
// and not yet written; and where a trip lies.
#![tactic(auto)]

mod calm;
mod opening;
mod row;
mod seconds;
mod trace;
mod trips_asked;
mod trips_in;
mod want;

pub use opening::{check_lengths, check_opening};
pub use row::check_span;
pub use seconds::check_seconds;
pub use trace::{Asked, Trace};
pub use trips_in::{trip_start, trip_stop};
pub use want::check_gears;

// The seconds from lo up to, not including, hi. It is copied where it is passed on, which a Range of the library is not.
#[derive(Clone, Copy)]
pub struct Span {
    pub lo: usize,
    pub hi: usize,
}
