// The work on one trip: first choices, the three passes, the bytes.
ghost use Rattle.std.specs.Prelude.{◌≡◌, Bool, List, ℕ, ◌≤◌, ℤ, length};
ghost use Rattle.rules.specs.Words.{pass};
ghost use Rattle.gears.specs.Choosing.{first_of};
ghost use Rattle.rules.specs.declared.Role.TheVariants.{First};
ghost use Rattle.rules.specs.Inside.{InBounds};
ghost use Rattle.trips.specs.Ready.{Aligned, Paced, ReadyTrip};
ghost use Rattle.trips.specs.Trip.{on_way, WayTo, AllGeared, trip_bytes};

use crate::byte::bytes;
use crate::peak::pass_a;
use crate::rising::pass_b;
use crate::slowing::{closing_from, pass_c};
use gears::{Chosen, Powered, choice_after, engine, lowest, search_of, top};
use rules::Vehicle;

// The first choice of a trip's first second: the held gear, or the lowest gear, the only one that may fit; 0 where it does not.
fn choice_first(car: &Vehicle, v: u16, hold: u8) -> u8
    requires { InBounds car.now }
    ensures { (d : ℤ) → result ≡ first_of car.now First v d hold }
{
    let low = lowest(car);
    if hold != 0 {
        hold
    } else if engine(car, low, v) <= top(car) {
        // `as` fits: a gear is small
        low as u8
    } else {
        0
    }
}

// First choices of some seconds in a row from second `from` on, none of them the trip's first; `run` is where among them the closing run begins, `last` the
// first choice before.
fn later_choices(
    powered: Powered,
    us: &[u16],
    hs: &[u8],
    run: usize,
    last: u8,
    from: usize,
    gs: &mut [u8],
)
    requires { Paced us.now hs.now × Aligned us.now hs.now gs.old × (from ≤ length gs.old) }
    ensures { (begins : Bool) (before : ℕ) (base : List ℕ)
        → WayTo powered.entry.car.now us.now hs.now run begins before base gs.old last from
        → gs.new ≡ pass (on_way powered.entry.car.now us.now hs.now begins run before) (length hs.now) base }
{
    let search = search_of(powered);
    // of each second the speed that follows
    let after = &us[1..];
    // the first search starts from the curve's first segment
    let mut before = Chosen {
        gear: last,
        segment: 0,
    };
    for j in from..gs.len() {
        before = choice_after(search, run <= j, before, us[j], after[j], hs[j]);
        gs[j] = before.gear;
    }
}

// First choices of some seconds in a row, from left to right, whatever the slice held before. `begins` says whether the trip begins with them, `run` where
// among them the closing run begins, `last` is the first choice before them, and not looked at where the trip begins: `on_way` says it so. The check for want
// of a gear goes through a trip so, part by part; the working and `reasons` go through a whole one.
pub fn first_choices(
    powered: Powered,
    us: &[u16],
    hs: &[u8],
    begins: bool,
    run: usize,
    last: u8,
    gs: &mut [u8],
)
    requires { Paced us.now hs.now × Aligned us.now hs.now gs.old }
    ensures { gs.new ≡ pass (on_way powered.entry.car.now us.now hs.now begins run last) (length hs.now) gs.old }
{
    if !begins {
        later_choices(powered, us, hs, run, last, 0, gs);
    } else if !gs.is_empty() {
        let first = choice_first(powered.car, us[0], hs[0]);
        gs[0] = first;
        later_choices(powered, us, hs, run, first, 1, gs);
    }
}

// The trip's bytes, worked out in its part of the card, which is lent on to each step.
pub fn work_trip(powered: Powered, us: &[u16], hs: &[u8], gs: &mut [u8])
    requires { ReadyTrip powered.car.now us.now hs.now gs.old × AllGeared powered.car.now us.now hs.now }
    ensures { gs.new ≡ trip_bytes powered.entry.car.now us.now hs.now }
{
    let car = powered.car;
    let run = closing_from(us);
    first_choices(powered, us, hs, true, run, 0, gs);
    pass_a(car, us, hs, gs);
    pass_b(car, us, hs, gs);
    pass_c(car, run, hs, gs);
    bytes(car, us, gs);
}
