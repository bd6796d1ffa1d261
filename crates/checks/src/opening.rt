// The refusals that come before the seconds are looked at.
ghost use Rattle.std.specs.Prelude.{◌≡◌, List, ℕ, length};
ghost use Rattle.rules.specs.Refusals.{said, ◌orelse◌, trace_fault, room_fault, vehicle_fault};

use gears::{NEWEST, check_vehicle};
use rules::{LONGEST, Refusal, Vehicle};

// 1 and 2, by the lengths alone.
pub fn check_lengths(speeds: usize, holds: usize, card: usize) -> Result<(), Refusal>
    ensures { (vs hs old : List ℕ) → length vs ≡ speeds → length hs ≡ holds → length old ≡ card → said result ≡ (trace_fault vs orelse room_fault vs hs old) }
{
    if speeds == 0 || LONGEST < speeds {
        return Err(Refusal::TraceLength);
    }
    if holds != speeds || card != speeds {
        return Err(Refusal::RoomLength);
    }
    Ok(())
}

// 1, 2 and 3.
pub fn check_opening(car: &Vehicle, speeds: usize, holds: usize, card: usize) -> Result<(), Refusal>
    ensures { (vs hs old : List ℕ) → length vs ≡ speeds → length hs ≡ holds → length old ≡ card
        → said result ≡ (trace_fault vs orelse room_fault vs hs old orelse vehicle_fault car.now) }
{
    check_lengths(speeds, holds, card)?;
    check_vehicle(car, NEWEST)
}
