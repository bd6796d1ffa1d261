// What is said of each gear at a second. Rules are numbers, and so is, in the end, what a second is in its trip: they are the C record's, and specs/Why has
// them. What a second is, its speed and E are passed on side by side: the clauses speak of each.
ghost use Rattle.std.specs.Prelude.{◌≡◌, ℕ, ◌-◌, ◌*◌, ◌≤◌, ◌<◌, ℤ, nat_abs, eqb};
ghost use Rattle.rules.specs.Words.{◌or◌, at};
ghost use Rattle.rules.specs.Units.{low};
ghost use Rattle.rules.specs.Gears.{engine, allowed, is_over_minimum, required};
ghost use Rattle.rules.specs.Why.{role_code, minimum_role, next_rule, minimum_rule, listed_power, driven_facts, gear_facts, gear_list};
ghost use Rattle.gears.specs.Choosing.{power_of, PowerSized, most_E, Weighed};
ghost use Rattle.reasons.specs.Asks.{DrivenGear};

use gears::{Power, Powered, engine, enough, lowest, minimum, power_at, segment_at, top};
use rules::{GearFacts, Role, Vehicle};

// The number that stands for what a second is in its trip.
#[tactic(auto, unfolding(rules::specs::Why::role_code))]
pub fn role_code(here: Role) -> u8
    ensures { result ≡ role_code here }
{
    match here {
        Role::First => 1,
        Role::Closing => 2,
        Role::AfterLow => 3,
        Role::Inner => 4,
    }
}

// What it counts as for the minimum of the gear above the lowest.
#[tactic(auto, unfolding(rules::specs::Why::minimum_role))]
fn minimum_role(here: Role, closes: bool) -> Role
    ensures { result ≡ minimum_role here closes }
{
    if closes { Role::Closing } else { here }
}

// The rule of the minimum of the gear above the lowest.
#[tactic(auto, unfolding(rules::specs::Why::next_rule))]
fn next_rule(here: Role) -> u8
    ensures { result ≡ next_rule here }
{
    match here {
        Role::First | Role::Inner => 2,
        Role::Closing => 3,
        Role::AfterLow => 4,
    }
}

// The rule of the minimum of a gear so many above the lowest.
#[tactic(auto, unfolding(rules::specs::Why::minimum_rule))]
fn minimum_rule(here: Role, above: usize) -> u8
    ensures { result ≡ minimum_rule here above }
{
    match above {
        0 => 1,
        1 => next_rule(here),
        _ => 5,
    }
}

// Whether a gear from the lowest on may fit.
#[tactic(auto, using(gears::proofs::Tests::ladders), unfolding(rules::specs::Gears::allowed, rules::specs::Gears::is_first))]
fn may_fit(car: &Vehicle, here: Role, g: usize) -> bool
    requires { low car.now ≤ g }
    ensures { result ≡ allowed car.now here g }
{
    g == lowest(car) || !matches!(here, Role::First)
}

// Whether a gear whose X is x turns fast enough to fit: the lowest also below its minimum.
#[tactic(auto, using(gears::proofs::Tests::ladders), unfolding(rules::specs::Gears::is_over_minimum))]
fn turns_enough(car: &Vehicle, here: Role, g: usize, x: u64) -> bool
    requires { DrivenGear car.now g }
    ensures { (v : ℕ) → x ≡ engine car.now g v → result ≡ (eqb g (low car.now) or is_over_minimum car.now here v g) }
{
    g == lowest(car) || 1000 * minimum(car, here, g) <= x
}

// The available power at a gear; past nmax, where none is read, the zeros that the C record has then.
fn listed_power(powered: Powered, v: u16, g: usize) -> Power
    requires { DrivenGear powered.car.now g }
    ensures power { power_of result ≡ listed_power powered.entry.car.now v g }
    ensures sized { PowerSized result }
{
    let car = powered.car;
    if top(car) < engine(car, g, v) {
        return Power { q: 0, w: 0 };
    }
    let s = segment_at(car, v, g, 0);
    power_at(powered, v, g, s)
}

// What is said of a gear that is driven, whose power is a, where E is required.
fn driven_facts(
    car: &Vehicle,
    here: Role,
    closes: bool,
    v: u16,
    e: i64,
    g: usize,
    a: Power,
) -> GearFacts
    requires { DrivenGear car.now g × Weighed a e × (engine car.now g v < 4294967296) }
    ensures { (d : ℤ) → e ≡ required car.now v d → power_of a ≡ listed_power car.now v g → result ≡ driven_facts car.now here closes v d g }
{
    let x = engine(car, g, v);
    let by = minimum_role(here, closes);
    let least = minimum(car, by, g);
    let reaches = 1000 * least <= x;
    let may = may_fit(car, here, g);
    let turns = turns_enough(car, here, g, x);
    let under = x <= top(car);
    let fits = may && turns && under;
    let suffices = under && enough(a, e);
    GearFacts {
        q: a.q,
        w: a.w,
        // `as` fits: what is asked of X, and what `minimum` promises
        engine: x as u32,
        minimum: least as u32,
        rule: minimum_rule(by, g - lowest(car)),
        allowed: may,
        over_minimum: reaches,
        under_nmax: under,
        fits,
        enough: suffices,
    }
}

// What is said of any gear: nothing of one that is not driven.
pub fn gear_facts(powered: Powered, here: Role, closes: bool, v: u16, e: i64, g: usize) -> GearFacts
    requires { nat_abs e ≤ most_E }
    ensures { (d : ℤ) → e ≡ required powered.entry.car.now v d → result ≡ gear_facts powered.entry.car.now here closes v d g }
{
    let car = powered.car;
    let low = lowest(car);
    if g < low || usize::from(car.ng) < g {
        return GearFacts::default();
    }
    let a = listed_power(powered, v, g);
    driven_facts(car, here, closes, v, e, g, a)
}

// What is said of gears 1 to 10.
pub fn gear_list(powered: Powered, here: Role, closes: bool, v: u16, e: i64) -> [GearFacts; 10]
    requires { nat_abs e ≤ most_E }
    ensures { (d : ℤ) → e ≡ required powered.entry.car.now v d → result ≡ gear_list powered.entry.car.now here closes v d }
{
    let mut list = [GearFacts::default(); 10];
    for (i, facts) in list.iter_mut().enumerate() {
        *facts = gear_facts(powered, here, closes, v, e, i + 1);
    }
    list
}
