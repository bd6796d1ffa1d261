// The vehicle's bounds in a version of the job: the first field out of bounds is refused.
#![tactic(auto, using(crate::proofs::Tests::ladders))]

ghost use Rattle.std.specs.Prelude.{◌≡◌, ◌+◌, ◌-◌, ◌≤◌, ◌<◌, pos, neg_ℤ, leb, ltb, eqb, if◌then◌else◌};
ghost use Rattle.rules.specs.Words.{none, some, le_z, ◌and◌, ◌or◌, within, at, every};
ghost use Rattle.rules.specs.Units.{ratio_good, point_good, bounds, first_failed};
ghost use Rattle.rules.specs.Refusals.{said, refuse_at, numbered};
ghost use Rattle.gears.specs.Second.{Gear, Points};

use rules::{Refusal, Vehicle};

// From lo to hi, both included.
fn within(lo: u16, hi: u16, x: u16) -> bool
    ensures { result ≡ within lo hi x }
{
    (lo..=hi).contains(&x)
}

// The versions from the first on have a place for the value; the others have none, and it is 0.
fn placed(first: u16, version: u16, x: u16) -> bool
    ensures { result ≡ (leb first version or eqb x 0) }
{
    first <= version || x == 0
}

// A gear's ratio is 1 to 50,000, and under that of the gear before.
#[tactic(auto, using(crate::proofs::Tests::ladders), unfolding(rules::specs::Units::ratio_good, rules::specs::Units::ratio_of))]
fn ratio_good(car: &Vehicle, g: usize) -> bool
    requires { Gear g }
    ensures { result ≡ ratio_good car.now g }
{
    let x = car.ratio[g - 1];
    within(1, 50000, x) && (g == 1 || x < car.ratio[g - 2])
}

// So are the ratios of the gears 1 to ng.
fn ratios_good(car: &Vehicle) -> bool
    requires { car.now.ng ≤ 10 }
    ensures { result ≡ every (ratio_good car.now) 1 car.now.ng }
{
    // `..` in place of `..=`: the kit has no laws of a chain over the latter
    (1..usize::from(car.ng) + 1).all(|g| ratio_good(car, g))
}

// A point's n is 1 to 1,000 above that of the point before.
fn point_rises(n: &[u16; 64], k: usize) -> bool
    requires { k < 64 }
    ensures { result ≡ (eqb k 0 or within (at n.now (k - 1) + 1) (at n.now (k - 1) + 1000) (at n.now k)) }
{
    if k == 0 {
        return true;
    }
    let lower = n[k - 1];
    lower < n[k] && n[k] - lower <= 1000
}

// A point's margin is at most 50, and at most 90 with M; version 1 has no place for one above 0.
fn margin_good(version: u16, margin: u16, m: u16) -> bool
    requires { margin ≤ 50 }
    ensures { result ≡ (leb m 50 and leb (margin + m) 90 and (leb 2 version or eqb m 0)) }
{
    m <= 50 && margin + m <= 90 && placed(2, version, m)
}

// A point's n is 1 to 16,000 and rises, its p is at most 5,000, and its margin is good.
#[tactic(auto, using(crate::proofs::Tests::ladders), unfolding(rules::specs::Units::point_good, rules::specs::Units::margin_good))]
fn point_good(car: &Vehicle, k: usize, version: u16) -> bool
    requires { (k < 64) × (car.now.margin ≤ 50) }
    ensures { result ≡ point_good version car.now k }
{
    within(1, 16000, car.n[k])
        && point_rises(&car.n, k)
        && car.p[k] <= 5000
        && margin_good(version, car.margin, car.m[k])
}

// So are the points 0 to points - 1.
fn points_good(car: &Vehicle, version: u16) -> bool
    requires { (car.now.points ≤ 64) × (car.now.margin ≤ 50) }
    ensures { result ≡ every (point_good version car.now) 0 car.now.points }
{
    (0..usize::from(car.points)).all(|k| point_good(car, k, version))
}

// Above lo, and at most hi.
fn above(lo: u16, hi: u16, x: u16) -> bool
    ensures { result ≡ (ltb lo x and leb x hi) }
{
    lo < x && x <= hi
}

// F1 is from -5,000 to 5,000.
fn f1_good(f1: i32) -> bool
    ensures { result ≡ (le_z (neg_ℤ (pos 5000)) f1 and le_z f1 (pos 5000)) }
{
    (-5000..=5000).contains(&f1)
}

// The first point's n is at most idle, the last point's at least nmax.
fn ends_good(car: &Vehicle) -> bool
    requires { Points car.now.points }
    ensures { result ≡ (leb (at car.now.n 0) car.now.idle and leb car.now.nmax (at car.now.n (car.now.points - 1))) }
{
    car.n[0] <= car.idle && car.nmax <= car.n[usize::from(car.points) - 1]
}

// The profile is 0 or 1, and 0 in versions 1 and 2; above a crawler there are two gears at least.
fn gears_good(version: u16, profile: u16, ng: u16) -> bool
    ensures { result ≡ (leb profile 1 and (leb 3 version or eqb profile 0) and within (2 + profile) 10 ng) }
{
    profile <= 1 && placed(3, version, profile) && within(2 + profile, 10, ng)
}

// A field is refused by 3 unless it passes.
#[tactic(auto, unfolding(rules::specs::Refusals::said))]
fn field(passes: bool, number: usize) -> Result<(), Refusal>
    ensures { said result ≡ (if passes then none else some (numbered 3 number)) }
{
    if passes {
        Ok(())
    } else {
        Err(Refusal::VehicleField(number))
    }
}

// The first field that is out of bounds, or has no place in the version, is refused.
#[tactic(auto, unfolding(rules::specs::Units::bounds, rules::specs::Units::first_failed, rules::specs::Refusals::said, rules::specs::Refusals::refuse_at))]
pub fn check_vehicle(car: &Vehicle, version: u16) -> Result<(), Refusal>
    ensures { said result ≡ refuse_at 3 (first_failed 1 (bounds version car.now)) }
{
    field(gears_good(version, car.profile, car.ng), 1)?;
    field(ratios_good(car), 2)?;
    field(within(300, 3000, car.idle), 3)?;
    field(above(car.idle, 12000, car.rated), 4)?;
    field(within(car.rated, 15000, car.nmax), 5)?;
    field(car.f0 <= 10000, 6)?;
    field(f1_good(car.f1), 7)?;
    field(car.f2 <= 20000, 8)?;
    field(within(400, 4000, car.tm), 9)?;
    field(car.margin <= 50, 10)?;
    field(within(2, 64, car.points), 11)?;
    field(points_good(car, version), 12)?;
    field(ends_good(car), 13)
}
