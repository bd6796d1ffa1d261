// A second of a trace explained, or the refusal that leaves nothing to be said.
ghost use Rattle.std.specs.Prelude.{◌≡◌, ◌<◌, length, IfOk};
ghost use Rattle.rules.specs.Units.{start, stop};
ghost use Rattle.rules.specs.Refusals.{said};
ghost use Rattle.rules.specs.Edit.{hold_span};
ghost use Rattle.rules.specs.Why.{kind, early_fault, why_fault, why};
ghost use Rattle.reasons.specs.Asks.{kind_code, Viewed, Passed};

use crate::explain::{explain, uncorrected};
use crate::{Explained, Kind, View};
use checks::{Span, Trace, check_gears, check_opening, check_seconds, trip_start, trip_stop};
use gears::{Powered, derate};
use rules::{FASTEST, Reasons, Refusal, Vehicle, moving};

// What the second is. Past the trace's end nothing moves.
#[tactic(auto, using(crate::proofs::Places::kinds), unfolding(rules::specs::Why::kind))]
fn kind_of(speeds: &[u16], second: usize) -> Kind
    requires { second < length speeds.now }
    ensures { kind_code result ≡ kind speeds.now second }
{
    let next = second + 1;
    if moving(speeds[second]) {
        Kind::Moving
    } else if next < speeds.len() && moving(speeds[next]) {
        Kind::BeforeTrip
    } else {
        Kind::Standing
    }
}

// What is looked at, as of a hold: of a moving second its trip with the standing second on either side, as far as the trace has them; of a standing one itself.
fn hold_span(speeds: &[u16], second: usize, trip: Span) -> Span
    requires { (second < length speeds.now) × (trip.lo ≡ start speeds.now second) × (trip.hi ≡ stop speeds.now second) }
    ensures from { result.lo ≡ (hold_span speeds.now second).lo }
    ensures to { result.hi ≡ (hold_span speeds.now second).end }
{
    if moving(speeds[second]) {
        Span {
            lo: trip.lo.saturating_sub(1),
            hi: (trip.hi + 1).min(speeds.len()),
        }
    } else {
        Span {
            lo: second,
            hi: second + 1,
        }
    }
}

// A second as it is seen: before a trip the trip's first second is spoken of, otherwise the second itself.
fn view_of(speeds: &[u16], second: usize) -> View
    requires { second < length speeds.now }
    ensures second { result.second ≡ second }
    ensures view { Viewed speeds.now result }
{
    let kind = kind_of(speeds, second);
    let about = if kind == Kind::BeforeTrip {
        second + 1
    } else {
        second
    };
    let trip = Span {
        lo: trip_start(speeds, about),
        hi: trip_stop(speeds, about),
    };
    View {
        second,
        kind,
        about,
        trip,
        checked: hold_span(speeds, about, trip),
    }
}

// 1, 2, 3, 11 and 4 to 9, which leave nothing to be said; and what is seen where they pass.
fn check_early(car: &Vehicle, speeds: &[u16], holds: &[u8], second: usize) -> Result<View, Refusal>
    ensures refusal { said result ≡ early_fault car.now speeds.now holds.now second }
    ensures second { IfOk result (λ view. view.second ≡ second) }
    ensures view { IfOk result (λ view. Passed car.now speeds.now holds.now view) }
{
    check_opening(car, speeds.len(), holds.len(), holds.len())?;
    if speeds.len() <= second {
        return Err(Refusal::OutsideTrace(second));
    }
    let view = view_of(speeds, second);
    check_seconds(car, Trace::written(speeds, holds), view.checked)?;
    Ok(view)
}

// What is said where the early checks pass and 10 answers so: where it refuses some second of the trip, nothing was corrected.
fn reasons_with(
    powered: Powered,
    speeds: &[u16],
    holds: &[u8],
    view: View,
    answer: Result<(), Refusal>,
) -> Reasons
    requires { Passed powered.car.now speeds.now holds.now view × (said answer ≡ why_fault powered.car.now speeds.now holds.now view.second) }
    ensures { result ≡ why powered.entry.car.now speeds.now holds.now view.second }
{
    if view.kind == Kind::Standing {
        return Reasons::default();
    }
    let all = explain(powered, speeds, holds, view);
    if answer.is_ok() {
        all
    } else {
        uncorrected(all)
    }
}

// 10, and what is said with its answer, where the early checks pass.
fn explained(car: &Vehicle, speeds: &[u16], holds: &[u8], view: View) -> Explained
    requires { Passed car.now speeds.now holds.now view }
    ensures answer { said result.answer ≡ why_fault car.now speeds.now holds.now view.second }
    ensures reasons { result.reasons ≡ why car.now speeds.now holds.now view.second }
{
    let mut powers = [0u32; 64];
    derate(car, &mut powers);
    let powered = Powered {
        car,
        powers: &powers,
    };
    let answer = check_gears(
        powered,
        Trace::written(speeds, holds),
        view.checked,
        FASTEST,
    );
    let reasons = reasons_with(powered, speeds, holds, view, answer);
    Explained { answer, reasons }
}

// Why the byte of a second is what it is. It looks at the second's trip alone.
pub fn why(vehicle: Vehicle, speeds: &[u16], holds: &[u8], second: usize) -> Explained
    ensures answer { said result.answer ≡ why_fault vehicle speeds.now holds.now second }
    ensures reasons { result.reasons ≡ why vehicle speeds.now holds.now second }
{
    match check_early(&vehicle, speeds, holds, second) {
        Ok(view) => explained(&vehicle, speeds, holds, view),
        Err(refusal) => Explained {
            answer: Err(refusal),
            reasons: Reasons::default(),
        },
    }
}
