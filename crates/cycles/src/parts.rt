// The parts of the cycle.
ghost use Rattle.std.specs.Prelude.{◌≡◌, ◌≤◌};
ghost use Rattle.rules.specs.Refusals.{said};
ghost use Rattle.cycles.specs.Parts.{first_second, last_second, fill_fault, part_seconds, stretch};

use rules::Refusal;

// Seconds of a room that follow each other.
#[repr(C)]
#[derive(Clone, Copy)]
pub struct Stretch {
    pub first: usize,
    pub count: usize,
}

// 18, then 2, by the part number and the room's length alone.
pub fn check_part(part: u32, length: usize) -> Result<(), Refusal>
    ensures { said result ≡ fill_fault part length }
{
    if 4 < part {
        return Err(Refusal::BadPart);
    }
    if length < 1801 {
        return Err(Refusal::RoomLength);
    }
    Ok(())
}

// The first and the last second of a part, by the number that C gives: 0 is the whole cycle, the last arm.
#[tactic(auto, unfolding(crate::specs::Parts::first_second, crate::specs::Parts::last_second))]
fn ends_of(part: u32) -> (usize, usize)
    requires { part ≤ 4 }
    ensures first { result.0 ≡ first_second part }
    ensures last { result.1 ≡ last_second part }
{
    match part {
        1 => (0, 589),
        2 => (589, 1022),
        3 => (1022, 1477),
        4 => (1477, 1800),
        _ => (0, 1800),
    }
}

// Where a part stands in a room of that length; no seconds where filling refuses.
pub fn stretch_of(part: u32, length: usize) -> Stretch
    ensures { result ≡ stretch part length }
{
    match check_part(part, length) {
        Ok(()) => {
            let (first, last) = ends_of(part);
            Stretch {
                first,
                count: last + 1 - first,
            }
        }
        Err(_) => Stretch { first: 0, count: 0 },
    }
}

// The part of a filled room, ends included; empty where filling refuses. It only reads.
pub fn part_of(room: &[u16], part: u32) -> &[u16]
    ensures { result.now ≡ part_seconds part room.now }
{
    let Stretch { first, count } = stretch_of(part, room.len());
    &room[first..first + count]
}
