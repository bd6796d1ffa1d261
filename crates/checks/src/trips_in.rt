// Where the trip of a second lies: two scans, one to each side, that stop at the first standing second.
ghost use Rattle.std.specs.Prelude.{◌≡◌, ◌≤◌, length};
ghost use Rattle.rules.specs.Units.{start, stop};

use rules::moving;

// The first second of the trip that i lies in; i itself where the second before is standing.
pub fn trip_start(speeds: &[u16], i: usize) -> usize
    requires { i ≤ length speeds.now }
    ensures { result ≡ start speeds.now i }
{
    for k in (0..i).rev() {
        if !moving(speeds[k]) {
            return k + 1;
        }
    }
    0
}

// The second after the last of the trip that i lies in; i itself where it is standing.
pub fn trip_stop(speeds: &[u16], i: usize) -> usize
    requires { i ≤ length speeds.now }
    ensures { result ≡ stop speeds.now i }
{
    for k in i..speeds.len() {
        if !moving(speeds[k]) {
            return k;
        }
    }
    speeds.len()
}
