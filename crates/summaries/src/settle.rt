// A summary brought up to date.
ghost use Rattle.std.specs.Prelude.{◌≡◌, ◌+◌};
ghost use Rattle.rules.specs.Words.{at, table};
ghost use Rattle.rules.specs.Summary.{settled, updated};
ghost use Rattle.summaries.specs.Tallies.{in_ten};

use crate::Tally;
use rules::Summary;

// One count, less what was counted before, plus what is counted now: it stops at 0 and at the highest, 65,535.
fn settled(was: u16, before: u16, after: u16) -> u16
    ensures { result ≡ settled was before after }
{
    let sum = u32::from(was) + u32::from(after);
    // `as` fits: it is at most 65,535
    sum.saturating_sub(u32::from(before)).min(65535) as u16
}

// The counts of the gears 1 to 10.
fn settled_gears(was: Summary, before: Tally, after: Tally) -> [u16; 10]
    ensures { result ≡ table (λ k. settled (at was.gears k) (at before.counts (k + 1)) (at after.counts (k + 1))) 0 10 }
{
    let mut gears = [0u16; 10];
    for k in 0..10 {
        gears[k] = settled(was.gears[k], before.counts[k + 1], after.counts[k + 1]);
    }
    gears
}

// Each count of a summary.
pub fn updated(was: Summary, before: Tally, after: Tally) -> Summary
    ensures { result ≡ updated was (in_ten before) (in_ten after) }
{
    Summary {
        standing: settled(was.standing, before.counts[16], after.counts[16]),
        gears: settled_gears(was, before, after),
        changes: settled(was.changes, before.changes, after.changes),
    }
}
