// Checks 4 to 9 of the seconds of a span, in one pass: a trace is as long as it is, and six passes over it would look at each second six times.
ghost use Rattle.std.specs.Prelude.{◌≡◌, List, ℕ, ◌*◌, ◌≤◌, ◌<◌, length};
ghost use Rattle.rules.specs.Words.{at};
ghost use Rattle.rules.specs.declared.Vehicle.{Vehicle};
ghost use Rattle.rules.specs.Refusals.{step, ends, checks, bad, said, seconds_fault};
ghost use Rattle.checks.specs.Asked.{speeds_in, holds_in};
ghost use Rattle.checks.specs.Calm.{Seen};
ghost use Rattle.checks.specs.Checks.{fault_no, kept, hold_checks, HeldGear, TraceSecond, Spanned};

use crate::calm::{Sight, calm, look};
use crate::{Span, Trace};
use gears::{engine, not_driven, top};
use rules::{FASTEST, Refusal, STEEPEST, Vehicle, moving};

// Check 5. The step into the span's first second is not looked at.
pub fn step_over(trace: Trace, lo: usize, i: usize) -> bool
    requires { i < length trace.speeds.now }
    ensures { (car : Vehicle) (hs : List ℕ) → result ≡ bad step car (speeds_in trace.entry) hs lo i }
{
    lo < i && STEEPEST < trace.speed_at(i - 1).abs_diff(trace.speed_at(i))
}

// Check 6, at the trace's own ends and not the span's.
fn end_moving(trace: Trace, i: usize) -> bool
    requires { i < length trace.speeds.now }
    ensures { (car : Vehicle) (hs : List ℕ) (lo : ℕ) → result ≡ bad ends car (speeds_in trace.entry) hs lo i }
{
    moving(trace.speed_at(i)) && (i == 0 || i + 1 == trace.speeds.len())
}

// Checks 7, 8 and 9 of a held second, with the engine speed X of nmax. A gear above ng has no ratio, so 7 is asked before a ratio is read.
pub fn check_held(car: &Vehicle, most: u64, v: u16, held: u8, i: usize) -> Result<(), Refusal>
    requires { HeldGear car.now held × (most ≡ 1000 * car.now.nmax) }
    ensures { (vs hs : List ℕ) (lo : ℕ) → at vs i ≡ v → at hs i ≡ held → said result ≡ kept (fault_no car.now vs hs lo i hold_checks) i }
{
    if not_driven(car, held) {
        return Err(Refusal::HoldNotDriven(i));
    }
    if !moving(v) {
        return Err(Refusal::HoldStanding(i));
    }
    if most < engine(car, usize::from(held), v) {
        return Err(Refusal::HoldOverRev(i));
    }
    Ok(())
}

// The first of the checks 4 to 9 that second i fails. Without a hold 7, 8 and 9 pass.
pub fn check_second(
    car: &Vehicle,
    trace: Trace,
    held: u8,
    lo: usize,
    i: usize,
) -> Result<(), Refusal>
    requires { TraceSecond car.now trace.speeds.now i }
    ensures { (hs : List ℕ) → at hs i ≡ held → said result ≡ kept (fault_no car.now (speeds_in trace.entry) hs lo i checks) i }
{
    let v = trace.speed_at(i);
    if FASTEST < v {
        return Err(Refusal::SpeedOver(i));
    }
    if step_over(trace, lo, i) {
        return Err(Refusal::StepOver(i));
    }
    if end_moving(trace, i) {
        return Err(Refusal::EndMoving(i));
    }
    if held == 0 {
        return Ok(());
    }
    check_held(car, top(car), v, held, i)
}

// Checks 4 to 9 of each second, one after the other: the lowest number wins, and for one number the lowest second. The number of the refusal that is kept goes
// along, so that it is not looked up anew at each second.
pub fn judge_seconds(car: &Vehicle, trace: Trace, span: Span) -> Result<(), Refusal>
    requires { Spanned car.now trace.speeds.now span.lo span.hi }
    ensures { said result ≡ seconds_fault car.now (speeds_in trace.entry) (holds_in trace.entry) span.lo span.hi }
{
    let mut first = Ok(());
    let mut least = 10;
    for i in span.lo..span.hi {
        if let Err(refusal) = check_second(car, trace, trace.hold_at(i), span.lo, i) {
            let number = refusal.number();
            if number < least {
                first = Err(refusal);
                least = number;
            }
        }
    }
    first
}

// Checks 4 to 9 on the seconds of a span, of what is asked for. Where a cheap test finds nothing wrong, no second is judged.
pub fn check_seen(car: &Vehicle, trace: Trace, span: Span, seen: Sight) -> Result<(), Refusal>
    requires { Spanned car.now trace.speeds.now span.lo span.hi × (span.lo ≤ trace.asked.second)
        × Seen trace.speeds.now span.lo span.hi seen.fastest seen.steepest }
    ensures { said result ≡ seconds_fault car.now (speeds_in trace.entry) (holds_in trace.entry) span.lo span.hi }
{
    if calm(car, trace, span, seen) {
        return Ok(());
    }
    judge_seconds(car, trace, span)
}

// The same, with a look at the speeds.
pub fn check_seconds(car: &Vehicle, trace: Trace, span: Span) -> Result<(), Refusal>
    requires { Spanned car.now trace.speeds.now span.lo span.hi × (span.lo ≤ trace.asked.second) }
    ensures { said result ≡ seconds_fault car.now (speeds_in trace.entry) (holds_in trace.entry) span.lo span.hi }
{
    check_seen(car, trace, span, look(trace.speeds, span))
}
