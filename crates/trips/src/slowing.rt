// Pass C: the closing run.
ghost use Rattle.std.specs.Prelude.{◌≡◌, List, ℕ, suc, ◌≤◌, length};
ghost use Rattle.rules.specs.Words.{pass};
ghost use Rattle.rules.specs.Corrections.{slowing};
ghost use Rattle.gears.specs.Second.{Driven};
ghost use Rattle.trips.specs.Second.{slowed};
ghost use Rattle.trips.specs.Trip.{RunFrom, AllMoving, Closes};

use gears::lowest;
use rules::{Vehicle, moving};

// The first second of the closing run, found by one scan back from the trip's end; the trip's length where there is none.
pub fn closing_from(us: &[u16]) -> usize
    requires { AllMoving us.now × (1 ≤ length us.now) }
    ensures { RunFrom us.now result }
{
    let end = us.len() - 1;
    if moving(us[end]) {
        return end;
    }
    for j in (0..end).rev() {
        if us[j] <= us[j + 1] {
            return j + 1;
        }
    }
    0
}

// What pass C makes of a second of the closing run whose gear is g: the lowest gear becomes the one above it, unless it is held.
fn slowed(low: u8, hold: u8, g: u8) -> u8
    requires { low ≤ 10 }
    ensures { result ≡ slowed hold low g }
{
    if hold == 0 && g == low { low + 1 } else { g }
}

// Pass C, of a trip whose closing run begins at `run`. The trip's first second stays.
pub fn pass_c(car: &Vehicle, run: usize, hs: &[u8], gs: &mut [u8])
    requires { Driven car.now × Closes run hs.now gs.old }
    ensures { (us : List ℕ) → length us ≡ suc (length hs.now) → RunFrom us run
        → gs.new ≡ pass (slowing car.now us hs.now) (length hs.now) gs.old }
{
    // `as` fits: a gear is small
    let low = lowest(car) as u8;
    for j in run.max(1)..gs.len() {
        gs[j] = slowed(low, hs[j], gs[j]);
    }
}
