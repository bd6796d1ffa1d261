// What both ways share: the refusals, and the rounding.
ghost use Rattle.std.specs.Prelude.{◌≡◌, ◌*◌, ◌≤◌};
ghost use Rattle.rules.specs.Words.{nearest};
ghost use Rattle.rules.specs.Refusals.{said};
ghost use Rattle.downscale.specs.Steps.{down_fault};

use rules::Refusal;

// 23, then 2, by the factor and the room's length alone.
pub fn check_factor(factor: u32, length: usize) -> Result<(), Refusal>
    ensures { said result ≡ down_fault factor length }
{
    if 500 < factor {
        return Err(Refusal::BadFactor);
    }
    if length != 1801 {
        return Err(Refusal::RoomLength);
    }
    Ok(())
}

// The whole number nearest to sum over whole, halves up.
#[tactic(auto, unfolding(rules::specs::Words::nearest))]
pub fn nearest(sum: u64, whole: u64) -> u16
    requires { (1 ≤ whole) × (whole ≤ 487000) × (sum ≤ whole * 65535) }
    ensures { result ≡ nearest sum whole }
{
    // `as` fits: what is asked of the sum
    ((2 * sum + whole) / (2 * whole)) as u16
}
