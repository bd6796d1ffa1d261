// The C functions: thin wrappers over the readers, the writer, the working, the summary, the edits of one second, its reasons and the built-in cycle.
// include/gearcard.h declares them.
#![tactic(auto)]

ghost use Rattle.std.specs.Prelude.{◌≡◌, length};
ghost use Rattle.std.specs.Result.{result_unwrap_or};
ghost use Rattle.rules.specs.Refusals.{said, work_fault, work_card};
ghost use Rattle.rules.specs.declared.Edit.TheVariants.{Hold, Release, Mend};
ghost use Rattle.rules.specs.Summary.{summary_fault, counted_summary};
ghost use Rattle.rules.specs.Edit.{edit_fault, edited};
ghost use Rattle.rules.specs.Why.{why_fault, why};
ghost use Rattle.edits.specs.Asks.{screen};
ghost use Rattle.cycles.specs.Parts.{fill_fault, fill_room, stretch};
ghost use Rattle.downscale.specs.Steps.{down_fault, down_room};
ghost use Rattle.capi.specs.Verdicts.{as_verdict, JobRead, JobWritten, ExportRead};

use cycles::Stretch;
use exports::Export;
use reading::{Reading, blank};
use rules::{Reasons, Refusal, Summary, Vehicle, told_number, told_place};

// The refusal's number, 0 where there is none, and its place.
#[repr(C)]
#[derive(Clone, Copy)]
pub struct Verdict {
    pub number: u32,
    pub place: usize,
}

// What the reader answers: where it refuses, the version is 0, the vehicle all zeros and the count 0. C has no Result: in these records the verdict stands
// beside what comes with it.
#[repr(C)]
#[derive(Clone, Copy)]
pub struct JobAnswer {
    pub verdict: Verdict,
    pub version: u16,
    pub vehicle: Vehicle,
    pub count: usize,
}

// What counting a card or an edit answers: the summary as it is then; where it refuses, zeros of a card, and of an edit the summary that it was given.
#[repr(C)]
#[derive(Clone, Copy)]
pub struct SummaryAnswer {
    pub verdict: Verdict,
    pub summary: Summary,
}

// What the writer answers: how many bytes it wrote, 0 where it refuses.
#[repr(C)]
#[derive(Clone, Copy)]
pub struct WriteAnswer {
    pub verdict: Verdict,
    pub length: usize,
}

// What is said of one second, with the verdict.
#[repr(C)]
#[derive(Clone, Copy)]
pub struct WhyAnswer {
    pub verdict: Verdict,
    pub reasons: Reasons,
}

// What the export reader answers: where it refuses, all are 0.
#[repr(C)]
#[derive(Clone, Copy)]
pub struct ExportAnswer {
    pub verdict: Verdict,
    pub f0: u16,
    pub f1: i32,
    pub f2: u16,
    pub tm: u16,
}

// The refusal of an answer, whatever else it brings.
impl<T: Copy> From<Result<T, Refusal>> for Verdict {
    ghost from_gives = { λ answer v. v ≡ as_verdict (said answer) };

    fn from(answer: Result<T, Refusal>) -> Verdict {
        Verdict {
            number: told_number(answer),
            place: told_place(answer),
        }
    }
}

// A summary as it is then; where there is none, what it was.
fn counted_of(counted: Result<Summary, Refusal>, was: Summary) -> SummaryAnswer
    ensures verdict { result.verdict ≡ as_verdict (said counted) }
    ensures summary { result.summary ≡ result_unwrap_or counted was }
{
    SummaryAnswer {
        verdict: Verdict::from(counted),
        summary: counted.unwrap_or(was),
    }
}

// Reads a job into the start of the lent rooms.
#[tactic(auto, unfolding(reading::specs::Reader::reading))]
#[unsafe(no_mangle)]
pub extern "C" fn gearcard_read(job: &[u8], speeds: &mut [u16], holds: &mut [u8]) -> JobAnswer
    ensures { JobRead job.now speeds.old holds.old result speeds.new holds.new }
{
    let read = reading::read(job, speeds, holds);
    // where it refuses there is no version, no vehicle and no trace
    let Reading {
        version,
        vehicle,
        count,
    } = read.unwrap_or(Reading {
        version: 0,
        vehicle: blank(),
        count: 0,
    });
    JobAnswer {
        verdict: Verdict::from(read),
        version,
        vehicle,
        count,
    }
}

// Writes a job of a version into the start of the lent room.
#[unsafe(no_mangle)]
pub extern "C" fn gearcard_write<'a>(
    version: u16,
    vehicle: Vehicle,
    speeds: &'a [u16],
    holds: &'a [u8],
    room: &mut [u8],
) -> WriteAnswer
    ensures { JobWritten version vehicle speeds.now holds.now room.old result room.new }
{
    let written = writing::write(version, vehicle, speeds, holds, room);
    WriteAnswer {
        verdict: Verdict::from(written),
        length: written.unwrap_or(0),
    }
}

// Works the whole trace.
#[unsafe(no_mangle)]
pub extern "C" fn gearcard_work<'a>(
    vehicle: Vehicle,
    speeds: &'a [u16],
    holds: &'a [u8],
    card: &mut [u8],
) -> Verdict
    ensures answer { result ≡ as_verdict (work_fault vehicle speeds.now holds.now card.old) }
    ensures card { card.new ≡ work_card vehicle speeds.now holds.now card.old }
{
    Verdict::from(cards::work(vehicle, speeds, holds, card))
}

// Counts the whole card.
#[unsafe(no_mangle)]
pub extern "C" fn gearcard_summary_of<'a>(speeds: &'a [u16], card: &'a [u8]) -> SummaryAnswer
    ensures answer { result.verdict ≡ as_verdict (summary_fault speeds.now card.now) }
    ensures summary { result.summary ≡ counted_summary speeds.now card.now }
{
    counted_of(summaries::summary_of(speeds, card), Summary::default())
}

// Holds one second in a gear.
#[unsafe(no_mangle)]
pub extern "C" fn gearcard_hold(
    vehicle: Vehicle,
    speeds: &[u16],
    holds: &mut [u8],
    card: &mut [u8],
    second: usize,
    gear: u8,
    summary: Summary,
) -> SummaryAnswer
    ensures answer { result.verdict ≡ as_verdict (edit_fault vehicle (Hold second gear) (screen speeds.now holds.old card.old summary)) }
    ensures summary { result.summary ≡ (edited vehicle (Hold second gear) (screen speeds.now holds.old card.old summary)).summary }
    ensures holds { holds.new ≡ (edited vehicle (Hold second gear) (screen speeds.now holds.old card.old summary)).holds }
    ensures card { card.new ≡ (edited vehicle (Hold second gear) (screen speeds.now holds.old card.old summary)).card }
{
    let counted = edits::hold(vehicle, speeds, holds, card, second, gear, summary);
    counted_of(counted, summary)
}

// Releases one second.
#[unsafe(no_mangle)]
pub extern "C" fn gearcard_release(
    vehicle: Vehicle,
    speeds: &[u16],
    holds: &mut [u8],
    card: &mut [u8],
    second: usize,
    summary: Summary,
) -> SummaryAnswer
    ensures answer { result.verdict ≡ as_verdict (edit_fault vehicle (Release second) (screen speeds.now holds.old card.old summary)) }
    ensures summary { result.summary ≡ (edited vehicle (Release second) (screen speeds.now holds.old card.old summary)).summary }
    ensures holds { holds.new ≡ (edited vehicle (Release second) (screen speeds.now holds.old card.old summary)).holds }
    ensures card { card.new ≡ (edited vehicle (Release second) (screen speeds.now holds.old card.old summary)).card }
{
    let counted = edits::release(vehicle, speeds, holds, card, second, summary);
    counted_of(counted, summary)
}

// Corrects one speed sample.
#[unsafe(no_mangle)]
pub extern "C" fn gearcard_mend(
    vehicle: Vehicle,
    speeds: &mut [u16],
    holds: &[u8],
    card: &mut [u8],
    second: usize,
    speed: u16,
    summary: Summary,
) -> SummaryAnswer
    ensures answer { result.verdict ≡ as_verdict (edit_fault vehicle (Mend second speed) (screen speeds.old holds.now card.old summary)) }
    ensures summary { result.summary ≡ (edited vehicle (Mend second speed) (screen speeds.old holds.now card.old summary)).summary }
    ensures speeds { speeds.new ≡ (edited vehicle (Mend second speed) (screen speeds.old holds.now card.old summary)).speeds }
    ensures card { card.new ≡ (edited vehicle (Mend second speed) (screen speeds.old holds.now card.old summary)).card }
{
    let counted = edits::mend(vehicle, speeds, holds, card, second, speed, summary);
    counted_of(counted, summary)
}

// Why the byte of a second is what it is.
#[unsafe(no_mangle)]
pub extern "C" fn gearcard_why<'a>(
    vehicle: Vehicle,
    speeds: &'a [u16],
    holds: &'a [u8],
    second: usize,
) -> WhyAnswer
    ensures answer { result.verdict ≡ as_verdict (why_fault vehicle speeds.now holds.now second) }
    ensures reasons { result.reasons ≡ why vehicle speeds.now holds.now second }
{
    let told = reasons::why(vehicle, speeds, holds, second);
    WhyAnswer {
        verdict: Verdict::from(told.answer),
        reasons: told.reasons,
    }
}

// Fills the first 1,801 places with the Class 3 cycle.
#[unsafe(no_mangle)]
pub extern "C" fn gearcard_cycle(part: u32, room: &mut [u16]) -> Verdict
    ensures answer { result ≡ as_verdict (fill_fault part (length room.old)) }
    ensures room { room.new ≡ fill_room part room.old }
{
    Verdict::from(cycles::fill(part, room))
}

// Where a part of the cycle stands in a room of that many places.
#[unsafe(no_mangle)]
pub extern "C" fn gearcard_cycle_part(part: u32, room: usize) -> Stretch
    ensures { result ≡ stretch part room }
{
    cycles::stretch_of(part, room)
}

// Fills the room with the Class 3 cycle scaled down by a factor in thousandths.
#[unsafe(no_mangle)]
pub extern "C" fn gearcard_downscale(factor: u32, room: &mut [u16]) -> Verdict
    ensures answer { result ≡ as_verdict (down_fault factor (length room.old)) }
    ensures room { room.new ≡ down_room factor room.old }
{
    Verdict::from(downscale::downscale(factor, room))
}

// Reads the bench computer's export.
#[unsafe(no_mangle)]
pub extern "C" fn gearcard_export(bytes: &[u8]) -> ExportAnswer
    ensures { ExportRead bytes.now result }
{
    let export = exports::read_export(bytes);
    let Export { f0, f1, f2, tm } = export.unwrap_or(Export {
        f0: 0,
        f1: 0,
        f2: 0,
        tm: 0,
    });
    ExportAnswer {
        verdict: Verdict::from(export),
        f0,
        f1,
        f2,
        tm,
    }
}
