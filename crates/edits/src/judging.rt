// An edit judged as it would stand.
ghost use Rattle.std.specs.Prelude.{◌≡◌, IfOk};
ghost use Rattle.rules.specs.declared.Summary.{Summary};
ghost use Rattle.rules.specs.Refusals.{said};
ghost use Rattle.rules.specs.Edit.{edit_fault};
ghost use Rattle.edits.specs.Asks.{screen, Clear};

use crate::Judged;
use crate::asking::{asked_of, second_of};
use crate::spans::{span_of, widened};
use checks::{Trace, check_opening, check_span};
use gears::{Powered, derate};
use rules::{Edit, Refusal, Vehicle};
use summaries::count;

// The first refusal of the table, or what carrying the edit out needs, the available powers in the lent room. It looks at the edit's span and at nothing else.
pub fn judge(
    car: &Vehicle,
    powers: &mut [u32; 64],
    speeds: &[u16],
    holds: &[u8],
    card: &[u8],
    edit: Edit,
) -> Result<Judged, Refusal>
    ensures answer { (kept : Summary) → said result ≡ edit_fault car.now edit (screen speeds.now holds.now card.now kept) }
    ensures ready { IfOk result (λ judged. Clear car.now edit speeds.now holds.now card.now judged powers.new) }
{
    let seconds = speeds.len();
    check_opening(car, seconds, holds.len(), card.len())?;
    let second = second_of(edit);
    if seconds <= second {
        return Err(Refusal::OutsideTrace(second));
    }
    let range = span_of(speeds, edit);
    derate(car, powers);
    let trace = Trace {
        speeds,
        holds,
        asked: asked_of(speeds, holds, edit),
    };
    check_span(Powered { car, powers }, trace, widened(range, seconds))?;
    Ok(Judged {
        range,
        counted: count(speeds, card, range),
    })
}
