// The card, worked in place.
ghost use Rattle.std.specs.Prelude.{◌≡◌, ◌+◌, ◌-◌};
ghost use Rattle.rules.specs.Words.{patch};
ghost use Rattle.rules.specs.Units.{stop};
ghost use Rattle.rules.specs.Corrections.{card_at};
ghost use Rattle.cards.specs.Rework.{Between, Fitting, Range, Passes, At};

use checks::{Span, trip_stop};
use gears::Powered;
use trips::work_trip;

// The trip, and the standing second before it, which shows the gear of the trip's first second.
pub fn rework(powered: Powered, speeds: &[u16], holds: &[u8], card: &mut [u8], trip: Span)
    requires { Between speeds.now holds.now card.old trip.lo trip.hi × Fitting powered.car.now speeds.now holds.now trip.lo trip.hi }
    ensures { card.new ≡ patch card.old (trip.lo - 1) trip.hi (card_at powered.entry.car.now speeds.now holds.now) }
{
    let Span { lo, hi } = trip;
    work_trip(
        powered,
        &speeds[lo..hi + 1],
        &holds[lo..hi],
        &mut card[lo..hi],
    );
    card[lo - 1] = 16 + card[lo] % 16;
}

// A standing second with the trip that follows it, if one does; answers the next standing second, or the trace's end.
fn stretch(powered: Powered, speeds: &[u16], holds: &[u8], card: &mut [u8], i: usize) -> usize
    requires { (here : At speeds.now holds.now card.old i) × Passes powered.car.now speeds.now holds.now here.lo here.hi }
    ensures next { result ≡ stop speeds.now (i + 1) }
    ensures worked { card.new ≡ patch card.old i (stop speeds.now (i + 1)) (card_at powered.entry.car.now speeds.now holds.now) }
{
    let lo = i + 1;
    let hi = trip_stop(speeds, lo);
    if hi == lo {
        card[i] = 0;
    } else {
        rework(powered, speeds, holds, card, Span { lo, hi });
    }
    hi
}

// Every stretch of a range, from left to right. The range begins with a standing second and ends before one, or with the trace.
pub fn sweep(powered: Powered, speeds: &[u16], holds: &[u8], card: &mut [u8], range: Span)
    requires { Range speeds.now holds.now card.old range.lo range.hi × Passes powered.car.now speeds.now holds.now range.lo range.hi }
    ensures { card.new ≡ patch card.old range.lo range.hi (card_at powered.entry.car.now speeds.now holds.now) }
{
    let mut i = range.lo;
    // each turn goes on from where its stretch ends
    while i < range.hi {
        i = stretch(powered, speeds, holds, card, i);
    }
}
