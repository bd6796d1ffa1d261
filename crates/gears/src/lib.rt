// One second of document 01's rules, as code. The vehicle is lent from here on: the entry points take it by value, as C passes it, and nothing else copies it.
#![tactic(auto)]

ghost use Rattle.std.specs.Prelude.{◌≡◌};
ghost use Rattle.rules.specs.Inside.{InBounds};
ghost use Rattle.gears.specs.Limits.{limits_of, road_of};
ghost use Rattle.gears.specs.Powers.{Powers};

mod bounds;
mod choice;
mod curve;
mod second;

pub use bounds::check_vehicle;
pub use choice::{choice_after, enough, search_of};
pub use curve::{derate, power_at, segment_at};
use rules::Vehicle;
pub use second::{engine, floor, lowest, minimum, not_driven, required, step_of, top};

// The newest version of a job, which has a place for every field of a vehicle.
pub const NEWEST: u16 = 3;

// The available power at a gear: Q/(100,000 w) tenths of kW.
#[derive(Clone, Copy)]
pub struct Power {
    pub q: i64,
    pub w: i64,
}

// A gear and its power; gear 0 where none has been met, as `choose` answers none by 0. An Option would be taken apart for each gear.
#[derive(Clone, Copy)]
pub struct Best {
    pub gear: usize,
    pub power: Power,
}

// The first choice of a second, and the segment of the curve from which the search for the next one's starts.
#[derive(Clone, Copy)]
pub struct Chosen {
    pub gear: u8,
    pub segment: usize,
}

// A vehicle in bounds, and the available power of each of its points.
#[derive(Clone, Copy)]
pub struct Powered<'a> {
    pub car: &'a Vehicle,
    pub powers: &'a [u32; 64],
    pub ghost in_bounds: { InBounds car.now },
    pub ghost derated: { Powers car.now powers.now },
}

// The lowest gear, and the limits of the engine speed, as X: the least of the gears from two above the lowest on, the least of the gear above the lowest by
// what the second is in its trip, and the most.
#[derive(Clone, Copy)]
pub struct Limits {
    pub low: usize,
    pub shared: u64,
    pub closing: u64,
    pub after_low: u64,
    pub inner: u64,
    pub top: u64,
}

// What E takes of a vehicle: its road load and its mass.
#[derive(Clone, Copy)]
pub struct Road {
    pub f0: u16,
    pub f1: i32,
    pub f2: u16,
    pub tm: u16,
}

// A vehicle whose gears are chosen from, with its limits and what E takes, worked out once a trip, in check 10's dry run once a part, and held by value: read
// through the vehicle they would be worked out anew at every second, for all that a compiler sees a byte of the card might be one of the vehicle's own.
#[derive(Clone, Copy)]
pub struct Search<'a> {
    pub powered: Powered<'a>,
    pub limits: Limits,
    pub road: Road,
    pub ghost limited: { limits ≡ limits_of powered.car.now },
    pub ghost loaded: { road ≡ road_of powered.car.now },
}
