// A second's trip gone through as the working goes through it, and what each stage left at the second.
ghost use Rattle.std.specs.Prelude.{◌≡◌, List, ℕ, suc, ◌<◌, length, if◌then◌else◌};
ghost use Rattle.rules.specs.declared.Vehicle.{Vehicle};
ghost use Rattle.rules.specs.Corrections.{ceiling, here};
ghost use Rattle.rules.specs.Why.{B_looks};
ghost use Rattle.trips.specs.Ready.{ReadyTrip};
ghost use Rattle.trips.specs.Trip.{RunFrom};
ghost use Rattle.reasons.specs.Asks.{Low, chain_of};

use crate::Chain;
use gears::{Powered, lowest};
use rules::{Role, Vehicle};
use trips::{closing_from, first_choices, pass_a, pass_b, pass_c};

// What second j is in its trip, from the trip's first choices and where its closing run begins.
fn role_in(car: &Vehicle, run: usize, gs: &[u8], j: usize) -> Role
    requires { j < length gs.now }
    ensures { (us hs : List ℕ) → length us ≡ suc (length gs.now) → RunFrom us run → result ≡ here car.now us hs j gs.now }
{
    if j == 0 {
        Role::First
    } else if run <= j {
        Role::Closing
    } else if usize::from(gs[j - 1]) == lowest(car) {
        Role::AfterLow
    } else {
        Role::Inner
    }
}

// The ceiling of second j, where correction B looks at it, from the gears that B left; else 0.
#[tactic(auto, using(gears::proofs::Tests::ladders), unfolding(rules::proofs::Offered::B_looks, rules::proofs::Offered::free, rules::proofs::Offered::ceiling))]
fn ceiling_in(us: &[u16], hs: &[u8], gs: &[u8], j: usize) -> u8
    requires { Low us.now hs.now gs.now j }
    ensures { (car : Vehicle) → result ≡ (if B_looks car us.now hs.now j then ceiling j gs.now else 0) }
{
    if hs[j] != 0 || j == 0 || us[j] <= us[j - 1] {
        return 0;
    }
    let last = gs[j - 1];
    if 2 <= j && last == gs[j - 2] {
        last + 1
    } else {
        last
    }
}

// The first choices and the three corrections, in the lent part, and what each left at second j.
pub fn chain(powered: Powered, us: &[u16], hs: &[u8], j: usize, gs: &mut [u8]) -> Chain
    requires { ReadyTrip powered.car.now us.now hs.now gs.old × (j < length hs.now) }
    ensures { result ≡ chain_of powered.entry.car.now us.now hs.now j }
{
    let car = powered.car;
    let run = closing_from(us);
    first_choices(powered, us, hs, true, run, 0, gs);
    let choice = gs[j];
    let role = role_in(car, run, gs, j);
    pass_a(car, us, hs, gs);
    let after_a = gs[j];
    pass_b(car, us, hs, gs);
    let after_b = gs[j];
    let ceiling = ceiling_in(us, hs, gs, j);
    pass_c(car, run, hs, gs);
    Chain {
        role,
        closes: run <= j,
        choice,
        after_a,
        after_b,
        after_c: gs[j],
        ceiling,
    }
}
