// The job reader of document 01: the first fault from left to right, and nothing written where there is one.
#![tactic(auto)]

ghost use Rattle.reading.specs.Reader.{ReadAs};

mod groups;
mod holds;
mod vehicle;

pub use groups::group_at;
use groups::{bounded, fill_speeds, judge_speeds};
use holds::{fill_holds, judge_holds};
use rules::{LONGEST, Refusal, Vehicle};
pub use vehicle::blank;
use vehicle::car_at;

// The gears, the curve, and the version with the whole vehicle: the arrays and counts of the C record.
#[derive(Clone, Copy)]
struct Gearbox {
    ng: u16,
    ratio: [u16; 10],
}

#[derive(Clone, Copy)]
struct Curve {
    points: u16,
    n: [u16; 64],
    p: [u16; 64],
    m: [u16; 64],
}

#[derive(Clone, Copy)]
struct Car {
    version: u16,
    vehicle: Vehicle,
}

// What the reader reads of a job, besides the speeds and holds that it puts into the lent rooms.
#[derive(Clone, Copy)]
pub struct Reading {
    pub version: u16,
    pub vehicle: Vehicle,
    pub count: usize,
}

// Reads a job: the vehicle, and the speeds and holds into the first places of the rooms, as many as there are samples. A refusal writes nothing at all, so
// the whole job is judged before the first place of a room is written.
pub fn read(job: &[u8], speeds: &mut [u16], holds: &mut [u8]) -> Result<Reading, Refusal>
    ensures { ReadAs job.now speeds.old holds.old result speeds.new holds.new }
{
    let (car, at) = car_at(job)?;
    // `as` fits: 16,384
    let group = bounded(job, at, 1, LONGEST as u16, Refusal::TraceLength);
    let Ok((samples, trace)) = group else {
        return Err(group.unwrap_err());
    };
    let count = usize::from(samples);
    if speeds.len() < count || holds.len() < count {
        return Err(Refusal::RoomLength);
    }
    let at = judge_speeds(job, trace, count)?;
    let group = group_at(job, at);
    let Ok((number, first)) = group else {
        return Err(group.unwrap_err());
    };
    let held = usize::from(number);
    let end = judge_holds(job, first, held, samples)?;
    if end != job.len() {
        return Err(Refusal::BytesAfter(end));
    }
    fill_speeds(job, trace, &mut speeds[..count]);
    fill_holds(job, first, held, &mut holds[..count]);
    Ok(Reading {
        version: car.version,
        vehicle: car.vehicle,
        count,
    })
}
