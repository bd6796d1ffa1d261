// Pass A: one-second peaks.
ghost use Rattle.std.specs.Prelude.{◌≡◌, ◌+◌, ◌≤◌, ◌<◌, length};
ghost use Rattle.rules.specs.Words.{pass};
ghost use Rattle.rules.specs.Corrections.{peak};
ghost use Rattle.gears.specs.Second.{Driven};
ghost use Rattle.trips.specs.Ready.{Aligned};
ghost use Rattle.trips.specs.Trip.{one_above};

use gears::floor;
use rules::Vehicle;

// Whether g is one above the larger of p and q, and one or two above the smaller.
fn one_above(p: u8, g: u8, q: u8) -> bool
    ensures { result ≡ one_above p g q }
{
    let g = u16::from(g);
    g == u16::from(p.max(q)) + 1 && g <= u16::from(p.min(q)) + 2
}

// What pass A makes of second j. The slice holds the gear before, as corrected, and the gear after, not yet corrected. Most gears are no higher than the one
// before, and stay.
fn peaked(car: &Vehicle, us: &[u16], hs: &[u8], gs: &[u8], j: usize) -> u8
    requires { Driven car.now × Aligned us.now hs.now gs.now × (1 ≤ j) × (j + 1 < length gs.now) }
    ensures { result ≡ peak car.now us.now hs.now j gs.now }
{
    let g = gs[j];
    let last = gs[j - 1];
    if last < g
        && hs[j] == 0
        && one_above(last, g, gs[j + 1])
        && floor(car, us[j]) < usize::from(g)
    {
        g - 1
    } else {
        g
    }
}

// Pass A, one-second peaks. The trip's first second and its last stay. The gear before stands in the slice, as corrected. Each pass is one plain `for` over
// its own seconds, as the paper has it: a loop that took the step as a closure would be longer than both.
pub fn pass_a(car: &Vehicle, us: &[u16], hs: &[u8], gs: &mut [u8])
    requires { Driven car.now × Aligned us.now hs.now gs.old }
    ensures { gs.new ≡ pass (peak car.now us.now hs.now) (length hs.now) gs.old }
{
    for j in 1..gs.len().saturating_sub(1) {
        gs[j] = peaked(car, us, hs, gs, j);
    }
}
