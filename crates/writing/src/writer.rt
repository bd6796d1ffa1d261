// The job writer of document 02, requests One, Six and Thirteen. Its length is measured first, so a room that is too short is refused with nothing written.
ghost use Rattle.std.specs.Prelude.{◌≡◌, List, ℕ, ◌+◌, ◌*◌, ◌≤◌, length};
ghost use Rattle.rules.specs.Words.{none};
ghost use Rattle.rules.specs.Refusals.{said};
ghost use Rattle.rules.specs.Groups.{form};
ghost use Rattle.rules.specs.Job.{gather, vehicle};
ghost use Rattle.rules.specs.Inside.{InBounds};
ghost use Rattle.rules.specs.Write.{job_bytes, checks_fault};
ghost use Rattle.reading.specs.Lent.{Put};
ghost use Rattle.writing.specs.Writing.{counted_bytes, told_fault, WriteAs};

use crate::HoldSizes;
use crate::put_groups::{put_group, put_held, put_trace, put_vehicle};
use crate::sizes::{counted_size, group_size, hold_sizes, vehicle_size};
use checks::{Span, Trace, check_lengths, check_seconds};
use gears::{NEWEST, check_vehicle};
use rules::{Refusal, Vehicle};

// The bytes of the whole job: the version, which is one byte, the vehicle, the trace and the holds.
fn job_size(version: u16, car: &Vehicle, speeds: &[u16], held: HoldSizes) -> usize
    requires { InBounds car.now × (length speeds.now ≤ 16384) × (held.bytes ≤ 3 * 65535) }
    ensures { result ≡ 1 + length ((vehicle version).write car.now) + length (counted_bytes speeds.now) + length (form held.count) + held.bytes }
{
    1 + vehicle_size(version, car) + counted_size(speeds) + group_size(held.count) + held.bytes
}

// Puts the whole job at the start of a room that has space for it.
fn put_job(
    room: &mut [u8],
    version: u16,
    car: &Vehicle,
    speeds: &[u16],
    holds: &[u8],
    count: u16,
) -> usize
    requires { (checks_fault version car.now speeds.now holds.now ≡ none) × (count ≡ length (gather 0 holds.now))
        × (length (job_bytes version car.now speeds.now holds.now) ≤ length room.old) }
    ensures { Put (job_bytes version car.now speeds.now holds.now) room.old 0 result room.new }
{
    let at = put_group(room, 0, version);
    let at = put_vehicle(room, at, version, car);
    let at = put_trace(room, at, speeds);
    let at = put_group(room, at, count);
    put_held(room, at, holds, count)
}

// 14 before everything else; then 1 to 3, of a trace and holds of these lengths, with the fields that the version has no place for.
fn check_told(version: u16, car: &Vehicle, seconds: usize, holds: usize) -> Result<(), Refusal>
    ensures { (vs hs : List ℕ) → length vs ≡ seconds → length hs ≡ holds → said result ≡ told_fault version car.now vs hs }
{
    if version < 1 || NEWEST < version {
        return Err(Refusal::BadVersion);
    }
    // there is no card, so the holds stand for one of their length
    check_lengths(seconds, holds, holds)?;
    check_vehicle(car, version)
}

// 14, and checks 1 to 9 of a whole job, as in the working.
fn check_job(version: u16, car: &Vehicle, speeds: &[u16], holds: &[u8]) -> Result<(), Refusal>
    ensures { said result ≡ checks_fault version car.now speeds.now holds.now }
{
    let seconds = speeds.len();
    check_told(version, car, seconds, holds.len())?;
    let all = Span { lo: 0, hi: seconds };
    check_seconds(car, Trace::written(speeds, holds), all)
}

// Writes a job of a version into the start of the room, and answers how many bytes. It is refused by 14, by 1 to 9 as in the working, then by 17, in this
// order, and then nothing is written.
pub fn write(
    version: u16,
    vehicle: Vehicle,
    speeds: &[u16],
    holds: &[u8],
    room: &mut [u8],
) -> Result<usize, Refusal>
    ensures { WriteAs version vehicle speeds.now holds.now room.old result room.new }
{
    check_job(version, &vehicle, speeds, holds)?;
    let held = hold_sizes(holds);
    let need = job_size(version, &vehicle, speeds, held);
    if room.len() < need {
        return Err(Refusal::RoomShort(need));
    }
    Ok(put_job(room, version, &vehicle, speeds, holds, held.count))
}
