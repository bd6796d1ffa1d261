// The card's bytes of one trip.
ghost use Rattle.std.specs.Prelude.{◌≡◌, ◌+◌, ◌-◌, ◌*◌, ◌<◌, length};
ghost use Rattle.rules.specs.Words.{at, table};
ghost use Rattle.rules.specs.Corrections.{byte};
ghost use Rattle.gears.specs.Second.{Gear};
ghost use Rattle.trips.specs.Ready.{WithGears};

use gears::engine;
use rules::Vehicle;

// Engine speed X = G x V of any gear. A gear that is none, 0, has gear 1's ratio; past the last ratio there is none, and X is 0. By a test of the length, as
// `next_byte` of reading.
pub fn turning(ratio: &[u16], g: u8, v: u16) -> u64
    ensures { result ≡ at ratio.now (g - 1) * v }
{
    let i = usize::from(g.saturating_sub(1));
    if i < ratio.len() {
        u64::from(ratio[i]) * u64::from(v)
    } else {
        0
    }
}

// The byte of second j, whose gear is g, with the engine speed X of idle: plus 16 with the clutch down.
fn trip_byte(car: &Vehicle, idle: u64, us: &[u16], j: usize, g: u8) -> u8
    requires { (j + 1 < length us.now) × Gear g × (idle ≡ 1000 * car.now.idle) }
    ensures { result ≡ byte car.now us.now j g }
{
    let v = us[j];
    if us[j + 1] <= v && engine(car, usize::from(g), v) < idle {
        g + 16
    } else {
        g
    }
}

// The gears of a trip become its bytes.
pub fn bytes(car: &Vehicle, us: &[u16], gs: &mut [u8])
    requires { WithGears us.now gs.old }
    ensures { gs.new ≡ table (λ j. byte car.now us.now j (at gs.old j)) 0 (length gs.old) }
{
    // read before a byte is written, and not again after each
    let idle = 1000 * u64::from(car.idle);
    for (j, g) in gs.iter_mut().enumerate() {
        *g = trip_byte(car, idle, us, j, *g);
    }
}
