// Annex 1, step by step, with exact fractions: what the closed form is run against.
ghost use Rattle.std.specs.Prelude.{◌≡◌, suc, ◌+◌, ◌-◌, ◌*◌, ◌≤◌, length, pos, nat_abs};
ghost use Rattle.rules.specs.Words.{nearest};
ghost use Rattle.rules.specs.Refusals.{said};
ghost use Rattle.downscale.specs.Steps.{steps, down_fault, down_room};
ghost use Rattle.downscale.specs.Closed.{Changed, Stepping};

use crate::checks::{check_factor, nearest};
use rules::Refusal;

// One step more: the factor times the cycle's own step is added to the sum.
fn step_on(sum: u64, factor: u64, before: u16, speed: u16) -> u64
    requires { (factor ≤ 487000) × (factor * before ≤ sum) × (sum ≤ 487000 * 65535) }
    ensures { result ≡ sum + factor * speed - factor * before }
{
    sum + factor * u64::from(speed) - factor * u64::from(before)
}

// Each second after first, up to, not including, end: one step more, and the nearest speed is left there. `start` is the cycle's speed at first, `sum` the
// numerator there; the answer is the numerator at the last second.
fn add_steps(
    room: &mut [u16],
    first: usize,
    end: usize,
    whole: u64,
    factor: u64,
    start: u16,
    sum: u64,
) -> u64
    requires { Stepping first end whole factor start sum room.old }
    ensures sum { pos result ≡ steps first (pos sum) (pos factor) (end - 1 - first) }
    ensures room { Changed (λ j. nearest (nat_abs (steps first (pos sum) (pos factor) (j - first))) whole) (suc first) end room.old
        room.new }
{
    let mut before = start;
    let mut total = sum;
    for speed in &mut room[first + 1..end] {
        total = step_on(total, factor, before, *speed);
        before = *speed;
        *speed = nearest(total, whole);
    }
    total
}

// The same as `downscale`, by Annex 1's steps.
pub fn downscale_steps(factor: u32, room: &mut [u16]) -> Result<(), Refusal>
    ensures answer { said result ≡ down_fault factor (length room.old) }
    ensures room { room.new ≡ down_room factor room.old }
{
    check_factor(factor, room.len())?;
    cycles::fill(0, room)?;
    let f = u64::from(factor);
    let peak = add_steps(room, 1533, 1725, 1000, 1000 - f, 600, 1000 * 600);
    add_steps(
        room,
        1724,
        1763,
        487000,
        peak - 1000 * 826,
        1313,
        487 * peak,
    );
    Ok(())
}
