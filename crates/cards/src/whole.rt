// The whole working.
ghost use Rattle.std.specs.Prelude.{◌≡◌};
ghost use Rattle.rules.specs.Refusals.{said, work_fault, work_card};

use crate::rework::sweep;
use checks::{Span, Trace, check_opening, check_span};
use gears::{Powered, derate};
use rules::{Refusal, Vehicle};

// The card of a trace, or the first refusal of the table; nothing is written before every check has passed.
pub fn work<'a>(
    vehicle: Vehicle,
    speeds: &'a [u16],
    holds: &'a [u8],
    card: &mut [u8],
) -> Result<(), Refusal>
    ensures answer { said result ≡ work_fault vehicle speeds.now holds.now card.old }
    ensures card { card.new ≡ work_card vehicle speeds.now holds.now card.old }
{
    let seconds = speeds.len();
    check_opening(&vehicle, seconds, holds.len(), card.len())?;
    let mut powers = [0u32; 64];
    derate(&vehicle, &mut powers);
    let powered = Powered {
        car: &vehicle,
        powers: &powers,
    };
    let all = Span { lo: 0, hi: seconds };
    check_span(powered, Trace::written(speeds, holds), all)?;
    sweep(powered, speeds, holds, card, all);
    Ok(())
}
