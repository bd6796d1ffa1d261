// One second of a trip: engine speed, minimum speed, the floor, the step D and the required power E.
ghost use Rattle.std.specs.Prelude.{◌≡◌, false, ◌+◌, ◌*◌, ◌≤◌, pos, ◌-ℤ◌};
ghost use Rattle.rules.specs.Units.{low};
ghost use Rattle.rules.specs.Gears.{engine, next_minimum, minimum, required};
ghost use Rattle.rules.specs.Corrections.{floor};
ghost use Rattle.rules.specs.Refusals.{not_driven};
ghost use Rattle.rules.specs.declared.Role.TheVariants.{Inner};
ghost use Rattle.rules.specs.declared.Vehicle.{Vehicle};
ghost use Rattle.gears.specs.Limits.{limits_of, road_of};
ghost use Rattle.gears.specs.Second.{Gear, Lowest, Driven, LoadOn, Load};

use crate::{Limits, Road};
use rules::{Role, Vehicle};

// The lowest gear that is driven.
#[tactic(auto, unfolding(rules::specs::Units::low))]
pub fn lowest(car: &Vehicle) -> usize
    ensures { result ≡ low car.now }
{
    1 + usize::from(car.profile)
}

// Whether a gear that may be held is not driven: above ng, or under the lowest. 0 is no gear.
#[tactic(auto, using(crate::proofs::Tests::ladders), unfolding(rules::specs::Refusals::not_driven))]
pub fn not_driven(car: &Vehicle, gear: u8) -> bool
    ensures driven { result ≡ false → gear ≤ car.now.ng }
    ensures rule { result ≡ not_driven car.now gear }
{
    car.ng < u16::from(gear) || (gear != 0 && usize::from(gear) < lowest(car))
}

// Engine speed X = G x V.
#[tactic(auto, unfolding(rules::specs::Gears::engine, rules::specs::Units::ratio_of))]
pub fn engine(car: &Vehicle, g: usize, v: u16) -> u64
    requires { Gear g }
    ensures { result ≡ engine car.now g v }
{
    u64::from(car.ratio[g - 1]) * u64::from(v)
}

// The minimum speed of the gear above the lowest, by what the second is in its trip, rounded to the nearest whole, halves up.
#[tactic(auto, unfolding(rules::specs::Gears::next_minimum))]
fn next_minimum(car: &Vehicle, here: Role) -> u64
    ensures speed { result ≡ next_minimum car.now here }
    ensures small { result ≤ 131070 }
{
    let idle = u64::from(car.idle);
    match here {
        Role::Closing => idle,
        Role::AfterLow => (115 * idle + 50) / 100,
        Role::First | Role::Inner => (9 * idle + 5) / 10,
    }
}

// The minimum speed of a gear.
#[tactic(auto, using(crate::proofs::Speeds::minima))]
pub fn minimum(car: &Vehicle, here: Role, g: usize) -> u64
    requires { Lowest car.now g }
    ensures speed { result ≡ minimum car.now here g }
    ensures small { result ≤ 131070 }
{
    let idle = u64::from(car.idle);
    let rated = u64::from(car.rated);
    match g - lowest(car) {
        0 => idle,
        1 => next_minimum(car, here),
        _ => idle + (rated - idle + 4) / 8,
    }
}

// The least engine speed X of the gear above the lowest.
#[tactic(auto, using(crate::proofs::Speeds::minimum_two))]
pub fn next_least(car: &Vehicle, here: Role) -> u64
    ensures { result ≡ 1000 * minimum car.now here (low car.now + 1) }
{
    1000 * next_minimum(car, here)
}

// The least engine speed X that the gears from two above the lowest on share: 3 is two above gear 1.
#[tactic(auto, unfolding(rules::specs::Units::low))]
pub fn shared_least(car: &Vehicle) -> u64
    requires { car.now.idle ≤ car.now.rated }
    ensures { result ≡ 1000 * minimum car.now Inner (low car.now + 2) }
{
    1000 * minimum(car, Role::Inner, 3 + usize::from(car.profile))
}

// The engine speed X of nmax, which no gear may pass.
pub fn top(car: &Vehicle) -> u64
    ensures { result ≡ 1000 * car.now.nmax }
{
    1000 * u64::from(car.nmax)
}

// The limits of a vehicle.
pub fn limits_of(car: &Vehicle) -> Limits
    requires { car.now.idle ≤ car.now.rated }
    ensures { result ≡ limits_of car.now }
{
    Limits {
        low: lowest(car),
        shared: shared_least(car),
        closing: next_least(car, Role::Closing),
        after_low: next_least(car, Role::AfterLow),
        inner: next_least(car, Role::Inner),
        top: top(car),
    }
}

// The least engine speed X of the gear above the lowest, of the limits.
#[tactic(auto, using(crate::proofs::Speeds::next_first))]
pub fn next_limit(limits: Limits, here: Role) -> u64
    ensures { (car : Vehicle) → limits ≡ limits_of car → result ≡ 1000 * minimum car here (low car + 1) }
{
    match here {
        Role::Closing => limits.closing,
        Role::AfterLow => limits.after_low,
        Role::First | Role::Inner => limits.inner,
    }
}

// The floor: the lowest gear whose X is at most 1000 x nmax; ng + 1 where there is none.
pub fn floor(car: &Vehicle, v: u16) -> usize
    requires { Driven car.now }
    ensures { result ≡ floor car.now v }
{
    let end = usize::from(car.ng) + 1;
    (lowest(car)..end)
        .find(|&g| engine(car, g, v) <= top(car))
        .unwrap_or(end)
}

// D: the next V less this V.
pub fn step_of(this: u16, next: u16) -> i64
    ensures { result ≡ pos next -ℤ pos this }
{
    i64::from(next) - i64::from(this)
}

// What E takes of a vehicle.
pub fn road_of(car: &Vehicle) -> Road
    ensures { result ≡ road_of car.now }
{
    Road {
        f0: car.f0,
        f1: car.f1,
        f2: car.f2,
        tm: car.tm,
    }
}

// Required power E, negative while braking, as the bench writes it: speed is taken out as a factor as often as it goes.
pub fn required_on(road: Road, v: u16, d: i64) -> i64
    requires { LoadOn road v d }
    ensures { (car : Vehicle) → road ≡ road_of car → result ≡ required car v d }
{
    let v = i64::from(v);
    v * (9_000_000 * i64::from(road.f0)
        + 2_575_000 * d * i64::from(road.tm)
        + v * (9_000 * i64::from(road.f1) + v * (9 * i64::from(road.f2))))
}

// The same of a vehicle.
pub fn required(car: &Vehicle, v: u16, d: i64) -> i64
    requires { Load car.now v d }
    ensures { result ≡ required car.now v d }
{
    required_on(road_of(car), v, d)
}
