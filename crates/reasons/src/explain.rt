// One moving second of a trip, explained. Sentences and the clutch's reasons stay numbers: they are the C record's, and specs/Why has them.
ghost use Rattle.std.specs.Prelude.{◌≡◌, ◌+◌, ◌-◌, ◌≤◌, ◌<◌, pos, nat_abs, ◌-ℤ◌, length};
ghost use Rattle.rules.specs.Words.{none};
ghost use Rattle.rules.specs.Units.{start};
ghost use Rattle.rules.specs.Gears.{required};
ghost use Rattle.rules.specs.Corrections.{trip_speeds, trip_holds};
ghost use Rattle.rules.specs.Inside.{InBounds};
ghost use Rattle.rules.specs.Why.{kind, sentence, clutch_reason_at, pedal_down, byte_of, said_of};
ghost use Rattle.gears.specs.Choosing.{most_E, Pace};
ghost use Rattle.reasons.specs.Asks.{kind_code, InTrip, chain_of, uncorrected};

use crate::facts::{gear_facts, gear_list, role_code};
use crate::steps::chain;
use crate::{Chain, View};
use checks::Span;
use gears::{Powered, floor, required, step_of};
use rules::{LONGEST, Reasons, Role, Vehicle, moving};
use trips::turning;

// Which sentence gave the first choice, which is listed with enough power or not.
#[tactic(auto, unfolding(rules::specs::Why::sentence, rules::specs::Gears::is_first))]
fn sentence_of(here: Role, held: u8, choice: u8, suffices: bool) -> u8
    ensures { result ≡ sentence here held choice suffices }
{
    if held != 0 {
        1
    } else if choice == 0 {
        5
    } else if matches!(here, Role::First) {
        4
    } else if suffices {
        2
    } else {
        3
    }
}

// Why the clutch is down or up at a second where gear g is shown.
#[tactic(auto, using(crate::proofs::Saying::falls), unfolding(rules::specs::Why::clutch_reason_at, rules::specs::Gears::engine, rules::specs::Units::ratio_of))]
fn clutch_reason(car: &Vehicle, speeds: &[u16], second: usize, g: u8) -> u8
    requires { second + 1 < length speeds.now }
    ensures { result ≡ clutch_reason_at car.now speeds.now second g }
{
    let v = speeds[second];
    if !moving(v) {
        1
    } else if v < speeds[second + 1] {
        3
    } else if turning(&car.ratio, g, v) < 1000 * u64::from(car.idle) {
        2
    } else {
        4
    }
}

// Whether it is down.
#[tactic(auto, using(gears::proofs::Tests::ladders), unfolding(rules::specs::Why::pedal_down))]
fn pedal_down(reason: u8) -> bool
    ensures { result ≡ pedal_down reason }
{
    matches!(reason, 1 | 2)
}

// The byte: the gear, plus 16 with the clutch down.
#[tactic(auto, unfolding(rules::specs::Why::byte_of))]
fn byte_of(reason: u8, g: u8) -> u8
    requires { g ≤ 11 }
    ensures { result ≡ byte_of reason g }
{
    if pedal_down(reason) { g + 16 } else { g }
}

// Required power E at a second and the next.
fn required_at(car: &Vehicle, v: u16, next: u16) -> i64
    requires { InBounds car.now × Pace v (pos next -ℤ pos v) }
    ensures power { result ≡ required car.now v (pos next -ℤ pos v) }
    ensures sized { nat_abs result ≤ most_E }
{
    required(car, v, step_of(v, next))
}

// The trip gone through, in a room of its own.
fn trip_chain(powered: Powered, speeds: &[u16], holds: &[u8], trip: Span, about: usize) -> Chain
    requires { InTrip powered.car.now speeds.now holds.now about trip.lo trip.hi }
    ensures chain { result ≡ chain_of powered.entry.car.now (trip_speeds speeds.now about) (trip_holds speeds.now holds.now about)
        (about - start speeds.now about) }
    ensures small { result.after_c ≤ 11 }
{
    let mut room = [0u8; LONGEST];
    let us = &speeds[trip.lo..trip.hi + 1];
    let hs = &holds[trip.lo..trip.hi];
    chain(
        powered,
        us,
        hs,
        about - trip.lo,
        &mut room[..trip.hi - trip.lo],
    )
}

// What is said of the moving second of a trip that is spoken of, where no second of the trip wants a gear.
pub fn explain(powered: Powered, speeds: &[u16], holds: &[u8], view: View) -> Reasons
    requires { InTrip powered.car.now speeds.now holds.now view.about view.trip.lo view.trip.hi × (view.second + 1 < length speeds.now)
        × (kind_code view.kind ≡ kind speeds.now view.second) }
    ensures { result ≡ said_of powered.entry.car.now speeds.now holds.now view.second view.about none }
{
    let car = powered.car;
    let about = view.about;
    let links = trip_chain(powered, speeds, holds, view.trip, about);
    let v = speeds[about];
    let e = required_at(car, v, speeds[about + 1]);
    let held = holds[about];
    let chosen = gear_facts(
        powered,
        links.role,
        links.closes,
        v,
        e,
        usize::from(links.choice),
    );
    let reason = clutch_reason(car, speeds, view.second, links.after_c);
    Reasons {
        about,
        first: view.trip.lo,
        last: view.trip.hi - 1,
        required: e,
        gears: gear_list(powered, links.role, links.closes, v, e),
        // `as` is the number of an enum of ours, and fits for a gear
        kind: view.kind as u8,
        role: role_code(links.role),
        held,
        choice: links.choice,
        sentence: sentence_of(links.role, held, links.choice, chosen.enough),
        after_a: links.after_a,
        after_b: links.after_b,
        after_c: links.after_c,
        floor: floor(car, v) as u8,
        ceiling: links.ceiling,
        clutch: pedal_down(reason),
        clutch_reason: reason,
        byte: byte_of(reason, links.after_c),
    }
}

// The same where some second of the trip wants a gear: nothing was corrected.
#[tactic(auto, unfolding(crate::specs::Asks::uncorrected))]
pub fn uncorrected(all: Reasons) -> Reasons
    ensures { result ≡ uncorrected all }
{
    Reasons {
        after_a: 0,
        after_b: 0,
        after_c: 0,
        ceiling: 0,
        clutch: false,
        clutch_reason: 0,
        byte: 0,
        ..all
    }
}
