// A cheap test of a span: what it lets through passes checks 4 to 9, and what it does not is judged second by second. It is of the seconds as they are
// written, but for the one that is asked for, which is judged. `look` and `most_held` neither branch nor leave early, so that several seconds are looked at at
// once. What is said of a vehicle, a trace and a span together stays a clause, `Spanned`: spans of one trace are cut and joined as they are passed on.
ghost use Rattle.std.specs.Prelude.{◌≡◌, true, ◌-◌, ◌≤◌};
ghost use Rattle.rules.specs.Words.{none, at};
ghost use Rattle.rules.specs.Refusals.{seconds_fault};
ghost use Rattle.checks.specs.Asked.{speeds_in, holds_in};
ghost use Rattle.checks.specs.Checks.{TraceSecond, Spanned};
ghost use Rattle.checks.specs.Calm.{Seconds, Seen, Around, Each, most_of, Stands, HoldsPass, OwnPasses};

use crate::seconds::{check_held, check_second, step_over};
use crate::{Span, Trace};
use gears::top;
use rules::{FASTEST, STEEPEST, Vehicle, moving};

// What a look at the speeds of a span finds: the highest, and the largest step.
#[derive(Clone, Copy)]
pub struct Sight {
    pub fastest: u16,
    pub steepest: u16,
}

// The highest speed of a span, and the largest step between two seconds of it, up or down, in one look.
pub fn look(speeds: &[u16], span: Span) -> Sight
    requires { Seconds speeds.now span.lo span.hi }
    ensures { Seen speeds.now span.lo span.hi result.fastest result.steepest }
{
    if span.hi <= span.lo {
        return Sight {
            fastest: 0,
            steepest: 0,
        };
    }
    let mut fastest = speeds[span.lo];
    let mut steepest: u16 = 0;
    for i in span.lo + 1..span.hi {
        fastest = fastest.max(speeds[i]);
        steepest = steepest.max(speeds[i - 1].abs_diff(speeds[i]));
    }
    Sight { fastest, steepest }
}

// The highest hold of a span: 0 where no second is held.
fn most_held(holds: &[u8], span: Span) -> u8
    requires { Seconds holds.now span.lo span.hi }
    ensures { result ≡ most_of (at holds.now) span.lo (span.hi - span.lo) }
{
    let mut most: u8 = 0;
    for i in span.lo..span.hi {
        most = most.max(holds[i]);
    }
    most
}

// Whether each held second passes 7, 8 and 9, one after the other.
fn each_passes(car: &Vehicle, trace: Trace, span: Span) -> bool
    requires { Spanned car.now trace.speeds.now span.lo span.hi }
    ensures { result ≡ true → Each (HoldsPass car.now trace.entry.speeds.now trace.entry.holds.now) span.lo span.hi }
{
    let most = top(car);
    for i in span.lo..span.hi {
        let held = trace.holds[i];
        if held != 0 && check_held(car, most, trace.speeds[i], held, i).is_err() {
            return false;
        }
    }
    true
}

// The same. Where no second is held there is nothing to pass.
fn holds_pass(car: &Vehicle, trace: Trace, span: Span) -> bool
    requires { Spanned car.now trace.speeds.now span.lo span.hi }
    ensures { result ≡ true → Each (HoldsPass car.now trace.entry.speeds.now trace.entry.holds.now) span.lo span.hi }
{
    most_held(trace.holds, span) == 0 || each_passes(car, trace, span)
}

// Whether the second that is asked for passes, and the step from it to the next.
fn own_passes(car: &Vehicle, trace: Trace, span: Span) -> bool
    requires { TraceSecond car.now trace.speeds.now trace.asked.second × Around trace.speeds.now span.lo span.hi trace.asked.second }
    ensures { result ≡ true → OwnPasses car.now (speeds_in trace.entry) trace.entry.asked.gear span.lo span.hi trace.entry.asked.second }
{
    let s = trace.asked.second;
    if check_second(car, trace, trace.asked.gear, span.lo, s).is_err() {
        return false;
    }
    let next = s + 1;
    span.hi <= next || !step_over(trace, span.lo, next)
}

// Whether a span begins and ends with a standing second: then check 6 passes, and the step into each of its trips lies in the span.
fn stands(trace: Trace, span: Span) -> bool
    requires { Seconds trace.speeds.now span.lo span.hi }
    ensures { result ≡ true → Stands (speeds_in trace.entry) span.lo span.hi }
{
    span.lo < span.hi && !moving(trace.speed_at(span.lo)) && !moving(trace.speed_at(span.hi - 1))
}

// Whether nothing is wrong in the span, of which `seen` is what a look at its speeds found.
pub fn calm(car: &Vehicle, trace: Trace, span: Span, seen: Sight) -> bool
    requires { Spanned car.now trace.speeds.now span.lo span.hi × (span.lo ≤ trace.asked.second)
        × Seen trace.speeds.now span.lo span.hi seen.fastest seen.steepest }
    ensures { result ≡ true → none ≡ seconds_fault car.now (speeds_in trace.entry) (holds_in trace.entry) span.lo span.hi }
{
    if STEEPEST < seen.steepest || FASTEST < seen.fastest || !stands(trace, span) {
        return false;
    }
    let s = trace.asked.second;
    if span.hi <= s {
        return holds_pass(car, trace, span);
    }
    let before = Span { lo: span.lo, hi: s };
    let after = Span {
        lo: s + 1,
        hi: span.hi,
    };
    holds_pass(car, trace, before) && holds_pass(car, trace, after) && own_passes(car, trace, span)
}
