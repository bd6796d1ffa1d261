// The seconds that an edit re-works, and those that are looked at for it. None of it hangs on the speed or the hold that is asked for.
ghost use Rattle.std.specs.Prelude.{◌≡◌, ◌+◌, ◌-◌, ◌<◌, min, length};
ghost use Rattle.rules.specs.Edit.{second, around, hold_span, span};

use checks::{Span, trip_start, trip_stop};
use rules::{Edit, moving};

// The trips that hold the second or a neighbour, the standing second before each, the second and the one before it. Neither scan looks at the second's own
// speed.
fn around(speeds: &[u16], second: usize) -> Span
    requires { second < length speeds.now }
    ensures from { result.lo ≡ (around speeds.now second).lo }
    ensures to { result.hi ≡ (around speeds.now second).hi }
{
    Span {
        lo: trip_start(speeds, second).saturating_sub(1),
        hi: trip_stop(speeds, second + 1),
    }
}

// The same for a hold or a release: of a moving second its trip and the standing second before it; of a standing one nothing.
fn held_span(speeds: &[u16], second: usize) -> Span
    requires { second < length speeds.now }
    ensures from { result.lo ≡ (hold_span speeds.now second).lo }
    ensures to { result.hi ≡ (hold_span speeds.now second).hi }
{
    if moving(speeds[second]) {
        around(speeds, second)
    } else {
        Span {
            lo: second,
            hi: second,
        }
    }
}

// Each edit's.
pub fn span_of(speeds: &[u16], edit: Edit) -> Span
    requires { second edit < length speeds.now }
    ensures from { result.lo ≡ (span edit speeds.now).lo }
    ensures to { result.hi ≡ (span edit speeds.now).hi }
{
    match edit {
        Edit::Hold(second, _) | Edit::Release(second) => held_span(speeds, second),
        Edit::Mend(second, _) => around(speeds, second),
    }
}

// What is looked at: the standing second after it too, as far as the trace has one.
pub fn widened(range: Span, seconds: usize) -> Span
    ensures from { result.lo ≡ range.lo }
    ensures to { result.hi ≡ min (range.hi + 1) seconds }
{
    Span {
        lo: range.lo,
        hi: range.hi.saturating_add(1).min(seconds),
    }
}
