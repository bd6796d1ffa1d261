// Where a trip ends and where its closing run begins, of the speeds as they would be with what is asked for.
ghost use Rattle.std.specs.Prelude.{◌≡◌, suc, ◌≤◌, length};
ghost use Rattle.rules.specs.Words.{part};
ghost use Rattle.rules.specs.Units.{stop};
ghost use Rattle.trips.specs.Trip.{RunFrom};
ghost use Rattle.checks.specs.Asked.{speeds_in};
ghost use Rattle.checks.specs.Want.{Ahead};

use crate::{Span, Trace};
use rules::moving;

// The second after the last of the trip that i lies in; i itself where it is standing.
pub fn stop_asked(trace: Trace, i: usize) -> usize
    requires { i ≤ length trace.speeds.now }
    ensures { result ≡ stop (speeds_in trace.entry) i }
{
    let end = trace.speeds.len();
    for k in i..end {
        if !moving(trace.speed_at(k)) {
            return k;
        }
    }
    end
}

// The first second of a trip's closing run, counted from the trip's first, found by one scan back from the standing second after it. `stop_asked` and this
// look at a trace with what is asked for, `trip_stop` and `closing_from` of the trips at speeds alone, which is all that a working has at hand there.
pub fn closing_asked(trace: Trace, trip: Span) -> usize
    requires { Ahead (speeds_in trace) trip.lo trip.hi }
    ensures { RunFrom (part (speeds_in trace.entry) trip.lo (suc trip.hi)) result }
{
    for i in (trip.lo..trip.hi).rev() {
        if trace.speed_at(i) <= trace.speed_at(i + 1) {
            return i + 1 - trip.lo;
        }
    }
    0
}
