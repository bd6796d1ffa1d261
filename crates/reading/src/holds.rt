// Holds: judged first, put into the lent room after that.
ghost use Rattle.std.specs.Prelude.{◌≡◌, true, ◌≤◌, length, replicate};
ghost use Rattle.rules.specs.Groups.{got};
ghost use Rattle.rules.specs.Job.{put};
ghost use Rattle.reading.specs.Progress.{hold_row, reached, Comes, used};

use crate::groups::{bounded, short_at};
use rules::Refusal;

// So many holds, judged and not kept: each second rising and before `count`, judged before its gear is read.
pub fn judge_holds(job: &[u8], at: usize, holds: usize, count: u16) -> Result<usize, Refusal>
    requires { 1 ≤ count }
    ensures { reached result true ≡ used (λ hs. true) (hold_row count holds) job.now at }
{
    let mut place = at;
    let mut next = 0;
    for _ in 0..holds {
        let refusal = Refusal::BadHold(place);
        let group = bounded(job, place, next, count - 1, refusal);
        let Ok((second, then)) = group else {
            return Err(group.unwrap_err());
        };
        let group = bounded(job, then, 1, 255, refusal);
        let Ok((_, after)) = group else {
            return Err(group.unwrap_err());
        };
        place = after;
        next = second + 1;
    }
    Ok(place)
}

// A room is filled with holds that were judged, and 0 where there is none; answers the place after them. A second has one byte or two; a gear is its
// group's first byte, and has a second where that says so.
pub fn fill_holds(job: &[u8], at: usize, holds: usize, room: &mut [u8]) -> usize
    requires { Comes ((hold_row (length room.old) holds).read job.now at) × (length room.old ≤ 16384) }
    ensures { got room.new result ≡ used (λ hs. put hs (replicate (length room.old) 0)) (hold_row (length room.old) holds)
        job.now at }
{
    room.fill(0);
    let mut place = at;
    for _ in 0..holds {
        let (second, then) = short_at(job, place);
        let gear = job[then];
        room[second] = gear;
        place = then + 1 + usize::from(gear / 128);
    }
    place
}
