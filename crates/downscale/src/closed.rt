// The closed form: one division a second.
ghost use Rattle.std.specs.Prelude.{◌≡◌, ◌≤◌, length};
ghost use Rattle.rules.specs.Words.{at};
ghost use Rattle.rules.specs.Refusals.{said};
ghost use Rattle.downscale.specs.Steps.{down_fault, down_room};
ghost use Rattle.downscale.specs.Closed.{drawn_speed, Drawing, Changed};

use crate::checks::{check_factor, nearest};
use rules::Refusal;

// A speed drawn by some parts of a whole towards a speed that stays.
#[tactic(auto, unfolding(crate::specs::Closed::drawn, crate::specs::Closed::drawn_speed))]
fn drawn(speed: u16, whole: u64, parts: u64, rest: u64) -> u16
    requires { Drawing whole parts rest }
    ensures { result ≡ drawn_speed whole parts rest speed }
{
    nearest((whole - parts) * u64::from(speed) + parts * rest, whole)
}

// The same at each second from first up to, not including, end.
fn draw(room: &mut [u16], first: usize, end: usize, whole: u64, parts: u64, rest: u64)
    requires { Drawing whole parts rest × (first ≤ end) × (end ≤ length room.old) }
    ensures { Changed (λ j. drawn_speed whole parts rest (at room.old j)) first end room.old room.new }
{
    for speed in &mut room[first..end] {
        *speed = drawn(*speed, whole, parts, rest);
    }
}

// Fills the room with the scaled cycle; or the first refusal, and nothing written. The factor is in thousandths.
pub fn downscale(factor: u32, room: &mut [u16]) -> Result<(), Refusal>
    ensures answer { said result ≡ down_fault factor (length room.old) }
    ensures room { room.new ≡ down_room factor room.old }
{
    check_factor(factor, room.len())?;
    cycles::fill(0, room)?;
    let f = u64::from(factor);
    draw(room, 1533, 1725, 1000, f, 600);
    draw(room, 1725, 1763, 487000, 713 * f, 826);
    Ok(())
}
