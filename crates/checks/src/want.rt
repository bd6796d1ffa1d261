// Check 10, for want of a gear, of the seconds of a span that passes the checks before it. Where the vehicle's gears leave no speed between them, by
// engine speed alone; elsewhere by a dry run of the first choices. All of it is of what is asked for and not yet written.
ghost use Rattle.std.specs.Prelude.{◌≡◌, true, ℕ, ◌+◌, ◌-◌, ◌*◌, ◌≤◌, ◌<◌, length};
ghost use Rattle.rules.specs.Words.{none, at};
ghost use Rattle.rules.specs.Units.{low};
ghost use Rattle.rules.specs.Corrections.{first_at};
ghost use Rattle.rules.specs.Refusals.{no-gear, bad, said, seconds_fault};
ghost use Rattle.rules.specs.Inside.{gear_fault};
ghost use Rattle.gears.specs.Second.{HasMinima};
ghost use Rattle.checks.specs.Asked.{speeds_in, holds_in};
ghost use Rattle.checks.specs.Checks.{Spanned};
ghost use Rattle.checks.specs.Calm.{Each, AtMost, Follows, NoGap};
ghost use Rattle.checks.specs.Want.{Resting, Level, Ahead, OnWay, PartEnd, Firsts, Through, LowestAt};

use crate::trips_asked::{closing_asked, stop_asked};
use crate::{Span, Trace};
use gears::{Powered, engine, lowest, minimum, top};
use rules::{MOVING, Refusal, Role, STEEPEST, Vehicle};
use trips::first_choices;

// A trip's first second is one step above a standing one, so its speed is at most this.
const FIRST_FASTEST: u16 = MOVING + STEEPEST - 1;

// Whether a gear of ratio `this` has reached its minimum `least` wherever the gear below it, of ratio `below`, turns past nmax.
fn hands_on(nmax: u16, least: u64, below: u16, this: u16) -> bool
    requires { least ≤ 131070 }
    ensures { result ≡ true → least * below ≤ nmax * this }
{
    least * u64::from(below) <= u64::from(nmax) * u64::from(this)
}

// Whether every gear above the lowest has so reached the highest of its minima, the one after the lowest gear: then no speed lies between two gears.
fn covered(car: &Vehicle) -> bool
    requires { HasMinima car.now }
    ensures { result ≡ true → Each (Follows car.now) (low car.now) car.now.ng }
{
    for j in lowest(car)..usize::from(car.ng) {
        let least = minimum(car, Role::AfterLow, j + 1);
        if !hands_on(car.nmax, least, car.ratio[j - 1], car.ratio[j]) {
            return false;
        }
    }
    true
}

// Whether some gear fits at every moving second up to the speed `most`, whatever is chosen before it.
pub fn no_gap(car: &Vehicle, most: u16) -> bool
    requires { HasMinima car.now }
    ensures { result ≡ true → NoGap car.now most }
{
    let ng = usize::from(car.ng);
    let low = lowest(car);
    low <= ng
        && engine(car, low, FIRST_FASTEST) <= top(car)
        && engine(car, ng, most) <= top(car)
        && covered(car)
}

// Where the part that the dry run goes through next ends, from second i of a trip that ends at b: after 64 seconds at most. A part is looked at as it is
// written: it ends before the second that is asked for comes into sight, or is second i alone.
fn part_end(asked: usize, i: usize, b: usize) -> usize
    requires { i < b }
    ensures { PartEnd asked i b result }
{
    let end = b.min(i.saturating_add(64));
    if asked < i || end < asked {
        return end;
    }
    (i + 1).max(asked.saturating_sub(1))
}

// The first choices of a part of a trip, from second i on, given where the closing run begins and the first choice before: the working's own. The part is
// lent as it is written, but for a second alone, which is looked at with what is asked for. Its room is the caller's, so it stands beside.
fn choices_in(
    powered: Powered,
    trace: Trace,
    trip: Span,
    run: usize,
    before: u8,
    i: usize,
    gs: &mut [u8],
)
    requires { OnWay (speeds_in trace) trip.lo trip.hi run i × PartEnd trace.asked.second i trip.hi (i + length gs.old) }
    ensures { ((i ≡ trip.lo → ⊥) → before ≡ first_at powered.entry.car.now (speeds_in trace.entry) (holds_in trace.entry) (i - 1))
        → Firsts powered.entry.car.now (speeds_in trace.entry) (holds_in trace.entry) i (length gs.old) gs.new }
{
    let begins = i == trip.lo;
    // how far off the closing run is, seen from second i
    let left = run.saturating_sub(i - trip.lo);
    if gs.len() == 1 {
        let us = [trace.speed_at(i), trace.speed_at(i + 1)];
        let hs = [trace.hold_at(i)];
        first_choices(powered, &us, &hs, begins, left, before, gs);
        return;
    }
    let to = i + gs.len();
    first_choices(
        powered,
        &trace.speeds[i..to + 1],
        &trace.holds[i..to],
        begins,
        left,
        before,
        gs,
    );
}

// The first choices of a part that the trip has, in a room of its own: the last of them, or the first second at which no gear fits and none is held.
fn part_through(
    powered: Powered,
    trace: Trace,
    trip: Span,
    run: usize,
    before: u8,
    part: Span,
) -> Result<u8, usize>
    requires { OnWay (speeds_in trace) trip.lo trip.hi run part.lo × PartEnd trace.asked.second part.lo trip.hi part.hi }
    ensures { ((part.lo ≡ trip.lo → ⊥) → before ≡ first_at powered.entry.car.now (speeds_in trace.entry) (holds_in trace.entry) (part.lo - 1))
        → Through powered.entry.car.now (speeds_in trace.entry) (holds_in trace.entry) part.lo part.hi result }
{
    let mut room = [0u8; 64];
    let gs = &mut room[..part.hi - part.lo];
    choices_in(powered, trace, trip, run, before, part.lo, gs);
    // by place: `position` goes by addresses, and C's module has no Option of one (scripts/retarget)
    match (0..gs.len()).find(|&i| gs[i] == 0) {
        Some(none) => Err(part.lo + none),
        None => Ok(gs[gs.len() - 1]),
    }
}

// The first second of a trip at which no gear fits and none is held, by a dry run of its first choices.
fn wanting(powered: Powered, trace: Trace, trip: Span) -> Option<usize>
    requires { Ahead (speeds_in trace) trip.lo trip.hi }
    ensures { (lo : ℕ) → LowestAt (bad no-gear powered.entry.car.now (speeds_in trace.entry) (holds_in trace.entry) lo) trip.lo trip.hi result }
{
    let run = closing_asked(trace, trip);
    let mut before = 0;
    let mut i = trip.lo;
    // part by part, each as long as `part_end` says
    while i < trip.hi {
        let to = part_end(trace.asked.second, i, trip.hi);
        match part_through(powered, trace, trip, run, before, Span { lo: i, hi: to }) {
            Ok(last) => before = last,
            Err(none) => return Some(none),
        }
        i = to;
    }
    None
}

// Check 10 of each trip, one after the other.
pub fn judge_gears(powered: Powered, trace: Trace, span: Span) -> Result<(), Refusal>
    requires { Level (speeds_in trace) span.lo span.hi }
    ensures { said result ≡ gear_fault powered.entry.car.now (speeds_in trace.entry) (holds_in trace.entry) span.lo span.hi }
{
    let mut a = span.lo + 1;
    // trip by trip, each from the second after the one before it ends
    while a < span.hi {
        let b = stop_asked(trace, a);
        if let Some(i) = wanting(powered, trace, Span { lo: a, hi: b }) {
            return Err(Refusal::NoGear(i));
        }
        a = b + 1;
    }
    Ok(())
}

// Check 10 on the seconds of a span that passes 4 to 9 and has no speed above `most`. Where no speed lies between two gears, no second is judged.
pub fn check_gears(powered: Powered, trace: Trace, span: Span, most: u16) -> Result<(), Refusal>
    requires { Spanned powered.car.now trace.speeds.now span.lo span.hi
        × AtMost (at (speeds_in trace)) span.lo span.hi most × Resting (speeds_in trace) span.lo span.hi
        × (none ≡ seconds_fault powered.car.now (speeds_in trace) (holds_in trace) span.lo span.hi) }
    ensures { said result ≡ gear_fault powered.entry.car.now (speeds_in trace.entry) (holds_in trace.entry) span.lo span.hi }
{
    if no_gap(powered.car, most) {
        return Ok(());
    }
    judge_gears(powered, trace, span)
}
