// The first choice of one second.
ghost use Rattle.std.specs.Prelude.{◌≡◌, false, ◌+◌, ◌*◌, ◌≤◌, ◌<◌, pos, ◌-ℤ◌};
ghost use Rattle.rules.specs.Units.{low};
ghost use Rattle.rules.specs.declared.Vehicle.{Vehicle};
ghost use Rattle.rules.specs.Gears.{fits, more, choose};
ghost use Rattle.rules.specs.Corrections.{role_of};
ghost use Rattle.gears.specs.Second.{Gear};
ghost use Rattle.gears.specs.Choosing.{power_of, PowerSized, Weighed, enough_for, Pace, out_of_reach, under_minimum, the_stronger, first_of};

use crate::curve::{power_at, segment_at};
use crate::second::{engine, limits_of, next_limit, required_on, road_of, step_of};
use crate::{Best, Chosen, Power, Powered, Search};
use rules::Role;

// Whether a power is enough for E. E keeps its sign: negative while braking.
pub fn enough(a: Power, e: i64) -> bool
    requires { Weighed a e }
    ensures { result ≡ enough_for (power_of a) e }
{
    a.q * 3_240_000 >= e * a.w
}

// Whether the first of two powers is more than the second.
pub fn more(a: Power, b: Power) -> bool
    requires { PowerSized a × PowerSized b }
    ensures { result ≡ more (power_of a) (power_of b) }
{
    b.q * a.w < a.q * b.w
}

// What a second that is not its trip's first is in its trip: the first of these that it is. `before` is the first choice of the second before. It is asked
// for the gear above the lowest alone, so the two that it goes by are passed on, and not the answer.
#[tactic(auto, unfolding(rules::specs::Corrections::role_of))]
fn role_of(lowest: usize, closes: bool, before: u8) -> Role
    ensures { (car : Vehicle) → lowest ≡ low car → result ≡ role_of car false closes before }
{
    if closes {
        Role::Closing
    } else if usize::from(before) == lowest {
        Role::AfterLow
    } else {
        Role::Inner
    }
}

// A vehicle whose gears are chosen from.
pub fn search_of<'a>(powered: Powered<'a>) -> Search<'a>
    ensures car { result.powered.car.now ≡ powered.entry.car.now }
    ensures powers { result.powered.powers.now ≡ powered.entry.powers.now }
{
    Search {
        powered,
        limits: limits_of(powered.car),
        road: road_of(powered.car),
    }
}

// Whether a gear from two above the lowest on is under the minimum that these share. It stands in front of `fits_in_reach`: the value that `minimum` gave once
// is all that most gears too high for the speed are asked.
#[tactic(auto, using(crate::proofs::Tests::ladders), unfolding(crate::specs::Choosing::out_of_reach))]
fn out_of_reach(search: Search, v: u16, g: usize) -> bool
    requires { Gear g }
    ensures { result ≡ out_of_reach search.entry.powered.car.now v g }
{
    engine(search.powered.car, g, v) < search.limits.shared && search.limits.low + 1 < g
}

// Whether the gear above the lowest is under its own, which what the second is in its trip decides.
#[tactic(auto, using(crate::proofs::Tests::ladders), unfolding(crate::specs::Choosing::under_minimum))]
fn under_minimum(search: Search, closes: bool, before: u8, g: usize, x: u64) -> bool
    ensures { result ≡ under_minimum search.entry.powered.car.now (role_of search.entry.powered.car.now false closes before) g x }
{
    let limits = search.limits;
    g == limits.low + 1 && x < next_limit(limits, role_of(limits.low, closes, before))
}

// Whether a gear that is not out of reach fits, at a second that is not its trip's first. The lowest fits under its minimum too.
#[tactic(auto, using(crate::proofs::Reach::fits_by))]
fn fits_in_reach(search: Search, closes: bool, before: u8, v: u16, g: usize) -> bool
    requires { Gear g × (low search.powered.car.now ≤ g) }
    ensures { out_of_reach search.entry.powered.car.now v g ≡ false
        → result ≡ fits search.entry.powered.car.now (role_of search.entry.powered.car.now false closes before) v g }
{
    let x = engine(search.powered.car, g, v);
    !under_minimum(search, closes, before, g, x) && x <= search.limits.top
}

// The stronger of the best gear so far and gear g under it, whose power is a; the best so far on a tie.
#[tactic(auto, unfolding(crate::specs::Choosing::the_stronger))]
fn stronger(best: Best, g: usize, a: Power) -> Best
    requires { PowerSized best.power × PowerSized a }
    ensures { result ≡ the_stronger best g a }
{
    if more(a, best.power) {
        Best { gear: g, power: a }
    } else {
        best
    }
}

// The rules' choice at a second that is not its trip's first: from the top gear down the first that fits and has enough power, or, when the gears run out, the
// fallback: the fitting gear with most power, the higher gear on a tie; 0 where none fits. The curve is searched from a segment that may be any: that of the
// second before is near.
#[tactic(auto, using(crate::proofs::Choices::turns), unfolding(rules::specs::Units::low))]
pub fn choose(search: Search, closes: bool, before: u8, v: u16, d: i64, near: usize) -> Chosen
    requires { Pace v d × (near + 1 < search.powered.car.now.points) }
    ensures gear { result.gear ≡ choose search.entry.powered.car.now (role_of search.entry.powered.car.now false closes before) v d }
    ensures segment { result.segment + 1 < search.entry.powered.car.now.points }
{
    let car = search.powered.car;
    let low = search.limits.low;
    let e = required_on(search.road, v, d);
    // no gear yet, and less than every power
    let mut best = Best {
        gear: 0,
        power: Power { q: -1, w: 1 },
    };
    let mut segment = near;
    let mut g = usize::from(car.ng);
    // document 01 asks for a loop that yields its gear by break, which a `for` cannot
    let gear = loop {
        if !out_of_reach(search, v, g) {
            if fits_in_reach(search, closes, before, v, g) {
                // every power is enough while coasting or braking
                if e <= 0 {
                    break g;
                }
                segment = segment_at(car, v, g, segment);
                let a = power_at(search.powered, v, g, segment);
                if enough(a, e) {
                    break g;
                }
                best = stronger(best, g, a);
            }
            // the lowest gear is never out of reach
            if g <= low {
                // the next search starts where this one did
                segment = near;
                break best.gear;
            }
        }
        g -= 1;
    };
    Chosen {
        // `as` fits: a gear is at most ng
        gear: gear as u8,
        segment,
    }
}

// The first choice of a second on the way through its trip that is not the trip's first, from whether its closing run has begun and the first choice before:
// the held gear, or the rules' choice; 0 where no gear fits. It is the one step that the working and the check for want of a gear share.
pub fn choice_after(
    search: Search,
    closes: bool,
    before: Chosen,
    v: u16,
    next: u16,
    hold: u8,
) -> Chosen
    requires { Pace v (pos next -ℤ pos v) × (before.segment + 1 < search.powered.car.now.points) }
    ensures gear { result.gear ≡ first_of search.entry.powered.car.now
        (role_of search.entry.powered.car.now false closes before.gear) v (pos next -ℤ pos v) hold }
    ensures segment { result.segment + 1 < search.entry.powered.car.now.points }
{
    if hold != 0 {
        return Chosen {
            gear: hold,
            segment: before.segment,
        };
    }
    choose(
        search,
        closes,
        before.gear,
        v,
        step_of(v, next),
        before.segment,
    )
}
