// Pass B: rising speed.
ghost use Rattle.std.specs.Prelude.{◌≡◌, ◌≤◌, ◌<◌, length};
ghost use Rattle.rules.specs.Words.{pass};
ghost use Rattle.rules.specs.Corrections.{ceiling, rising};
ghost use Rattle.gears.specs.Second.{Driven};
ghost use Rattle.trips.specs.Ready.{Aligned};

use gears::floor;
use rules::Vehicle;

// The ceiling of second j, from the gears before it, as corrected: one more where the two seconds before lie in the trip with equal gears.
fn ceiling(gs: &[u8], j: usize) -> usize
    requires { (1 ≤ j) × (j < length gs.now) }
    ensures { result ≡ ceiling j gs.now }
{
    let last = gs[j - 1];
    if 2 <= j && last == gs[j - 2] {
        usize::from(last) + 1
    } else {
        usize::from(last)
    }
}

// What pass B makes of second j. Most gears are no higher than the one before, so no higher than the ceiling, and stay.
fn risen(car: &Vehicle, us: &[u16], hs: &[u8], gs: &[u8], j: usize) -> u8
    requires { Driven car.now × Aligned us.now hs.now gs.now × (1 ≤ j) × (j < length gs.now) }
    ensures { result ≡ rising car.now us.now hs.now j gs.now }
{
    let g = gs[j];
    if gs[j - 1] < g && hs[j] == 0 && us[j - 1] < us[j] && ceiling(gs, j) < usize::from(g) {
        // `as` fits: a gear is small
        ceiling(gs, j).max(floor(car, us[j])) as u8
    } else {
        g
    }
}

// Pass B, rising speed. The trip's first second stays.
pub fn pass_b(car: &Vehicle, us: &[u16], hs: &[u8], gs: &mut [u8])
    requires { Driven car.now × Aligned us.now hs.now gs.old }
    ensures { gs.new ≡ pass (rising car.now us.now hs.now) (length hs.now) gs.old }
{
    for j in 1..gs.len() {
        gs[j] = risen(car, us, hs, gs, j);
    }
}
