// The power curve: the available power of its points, the segment of an engine speed, and the power there.
ghost use Rattle.std.specs.Prelude.{◌≡◌, suc, ◌+◌, ◌-◌, ◌*◌, ◌≤◌, ◌<◌, pos};
ghost use Rattle.rules.specs.Words.{at};
ghost use Rattle.rules.specs.Gears.{between, power_speed, segment, power};
ghost use Rattle.gears.specs.Second.{Gear, Derates};
ghost use Rattle.gears.specs.Choosing.{available, Curve, Segment, power_of, Turning};

use crate::second::engine;
use crate::{Power, Powered};
use rules::Vehicle;

// A speed in min^-1 in thousandths, as X is.
fn thousandths(x: u16) -> u64
    ensures { result ≡ 1000 * x }
{
    1000 * u64::from(x)
}

// The available power of a point: p x (100 - M - m).
fn derated(margin: u16, p: u16, m: u16) -> u32
    requires { margin + m ≤ 90 }
    ensures { result ≡ p * (100 - margin - m) }
{
    u32::from(p) * u32::from(100 - margin - m)
}

// The available power of each point, put into the lent room, whose places past the points stay as they are. It is worked out once a call, and lent on in
// place of p.
#[tactic(auto, using(crate::proofs::Derating::loop_steps))]
pub fn derate(car: &Vehicle, powers: &mut [u32; 64])
    requires { Derates car.now }
    ensures { powers.new ≡ available car.now powers.old }
{
    for i in 0..usize::from(car.points) {
        powers[i] = derated(car.margin, car.p[i], car.m[i]);
    }
}

// The segment of x, found from a segment near it. The last point's speed is x or more, so the first loop ends before it.
pub fn segment_near(car: &Vehicle, x: u64, near: usize) -> usize
    requires { Curve car.now x × (near + 1 < car.now.points) }
    ensures { result ≡ segment car.now x }
{
    // these search from where they begin, up and then down, and do not count
    let mut s = near;
    while thousandths(car.n[s + 1]) < x {
        s += 1;
    }
    while 0 < s && x <= thousandths(car.n[s]) {
        s -= 1;
    }
    s
}

// The power at x on a segment.
fn on_segment<'a>(n: &'a [u16; 64], p: &'a [u32; 64], x: u64, s: usize) -> Power
    requires { Segment x s }
    ensures { power_of result ≡ between (at n.now s) (pos (at p.now s))
        (at n.now (suc s)) (pos (at p.now (suc s))) x }
{
    let n1 = i64::from(n[s]);
    let p1 = i64::from(p[s]);
    let w = i64::from(n[s + 1]) - n1;
    // `as` fits: X is far below 2^63, and the difference has a sign
    let q = 1000 * p1 * w + (i64::from(p[s + 1]) - p1) * (x as i64 - 1000 * n1);
    Power { q, w }
}

// The engine speed at which power is read at a gear: the larger of X and 1000 x idle.
#[tactic(auto, unfolding(rules::specs::Gears::power_speed))]
fn power_speed(car: &Vehicle, v: u16, g: usize) -> u64
    requires { Gear g }
    ensures { result ≡ power_speed car.now v g }
{
    engine(car, g, v).max(thousandths(car.idle))
}

// The segment at which power is read at a gear, found from a segment near it.
pub fn segment_at(car: &Vehicle, v: u16, g: usize, near: usize) -> usize
    requires { Gear g × Curve car.now (power_speed car.now v g) × (near + 1 < car.now.points) }
    ensures { result ≡ segment car.now (power_speed car.now v g) }
{
    segment_near(car, power_speed(car, v, g), near)
}

// The power at a gear, s the segment at which it is read.
pub fn power_at(powered: Powered, v: u16, g: usize, s: usize) -> Power
    requires { Turning powered.car.now v g × (s ≡ segment powered.car.now (power_speed powered.car.now v g)) }
    ensures { power_of result ≡ power powered.entry.car.now v g }
{
    let car = powered.car;
    on_segment(&car.n, powered.powers, power_speed(car, v, g), s)
}
