// The three edits, each its own call, as C has them: judged, its hold or sample written, and carried out. What they share is `judge` and `carry_out`; what is
// left differs in which room is written, and a common function would have to be told that its edit and the value it writes go together.
ghost use Rattle.std.specs.Prelude.{◌≡◌};
ghost use Rattle.std.specs.Result.{result_unwrap_or};
ghost use Rattle.rules.specs.declared.Edit.TheVariants.{Hold, Release, Mend};
ghost use Rattle.rules.specs.Refusals.{said};
ghost use Rattle.rules.specs.Edit.{edit_fault, edited};
ghost use Rattle.edits.specs.Asks.{screen, Carries, CarriedOut};

use crate::Judged;
use crate::judging::judge;
use cards::sweep;
use gears::Powered;
use rules::{Edit, Refusal, Summary, Vehicle};
use summaries::{count, updated};

// An edit that no check refuses, once it is written: its range re-worked, and the summary brought up to date from what the card counted there and counts now.
fn carry_out(
    powered: Powered,
    speeds: &[u16],
    holds: &[u8],
    card: &mut [u8],
    judged: Judged,
    summary: Summary,
) -> Summary
    requires { Carries powered.car.now speeds.now holds.now card.old judged }
    ensures { CarriedOut powered.entry.car.now speeds.now holds.now card.old judged summary result card.new }
{
    sweep(powered, speeds, holds, card, judged.range);
    let counted = count(speeds, card, judged.range);
    updated(summary, judged.counted, counted)
}

// One second held in a gear. Gear 0 is none, and is refused by 7 in the table's order.
pub fn hold(
    vehicle: Vehicle,
    speeds: &[u16],
    holds: &mut [u8],
    card: &mut [u8],
    second: usize,
    gear: u8,
    summary: Summary,
) -> Result<Summary, Refusal>
    ensures answer { said result ≡ edit_fault vehicle (Hold second gear) (screen speeds.now holds.old card.old summary) }
    ensures summary { result_unwrap_or result summary ≡ (edited vehicle (Hold second gear) (screen speeds.now holds.old card.old summary)).summary }
    ensures holds { holds.new ≡ (edited vehicle (Hold second gear) (screen speeds.now holds.old card.old summary)).holds }
    ensures card { card.new ≡ (edited vehicle (Hold second gear) (screen speeds.now holds.old card.old summary)).card }
{
    let mut powers = [0u32; 64];
    let judged = judge(
        &vehicle,
        &mut powers,
        speeds,
        holds,
        card,
        Edit::Hold(second, gear),
    )?;
    holds[second] = gear;
    let powered = Powered {
        car: &vehicle,
        powers: &powers,
    };
    Ok(carry_out(powered, speeds, holds, card, judged, summary))
}

// One second released; a free second is worked like any other.
pub fn release(
    vehicle: Vehicle,
    speeds: &[u16],
    holds: &mut [u8],
    card: &mut [u8],
    second: usize,
    summary: Summary,
) -> Result<Summary, Refusal>
    ensures answer { said result ≡ edit_fault vehicle (Release second) (screen speeds.now holds.old card.old summary) }
    ensures summary { result_unwrap_or result summary ≡ (edited vehicle (Release second) (screen speeds.now holds.old card.old summary)).summary }
    ensures holds { holds.new ≡ (edited vehicle (Release second) (screen speeds.now holds.old card.old summary)).holds }
    ensures card { card.new ≡ (edited vehicle (Release second) (screen speeds.now holds.old card.old summary)).card }
{
    let mut powers = [0u32; 64];
    let judged = judge(
        &vehicle,
        &mut powers,
        speeds,
        holds,
        card,
        Edit::Release(second),
    )?;
    holds[second] = 0;
    let powered = Powered {
        car: &vehicle,
        powers: &powers,
    };
    Ok(carry_out(powered, speeds, holds, card, judged, summary))
}

// One sample corrected.
pub fn mend(
    vehicle: Vehicle,
    speeds: &mut [u16],
    holds: &[u8],
    card: &mut [u8],
    second: usize,
    speed: u16,
    summary: Summary,
) -> Result<Summary, Refusal>
    ensures answer { said result ≡ edit_fault vehicle (Mend second speed) (screen speeds.old holds.now card.old summary) }
    ensures summary { result_unwrap_or result summary ≡ (edited vehicle (Mend second speed) (screen speeds.old holds.now card.old summary)).summary }
    ensures speeds { speeds.new ≡ (edited vehicle (Mend second speed) (screen speeds.old holds.now card.old summary)).speeds }
    ensures card { card.new ≡ (edited vehicle (Mend second speed) (screen speeds.old holds.now card.old summary)).card }
{
    let mut powers = [0u32; 64];
    let judged = judge(
        &vehicle,
        &mut powers,
        speeds,
        holds,
        card,
        Edit::Mend(second, speed),
    )?;
    speeds[second] = speed;
    let powered = Powered {
        car: &vehicle,
        powers: &powers,
    };
    Ok(carry_out(powered, speeds, holds, card, judged, summary))
}
