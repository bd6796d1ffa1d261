// Seconds counted: each at its place, and the gear changes between them. Nothing is searched for, so that a card of many short trips takes no longer.
ghost use Rattle.std.specs.Prelude.{◌≡◌, not, [], ◌-◌, ◌≤◌, eqb, if◌then◌else◌};
ghost use Rattle.rules.specs.Words.{◌and◌, table};
ghost use Rattle.rules.specs.Units.{moving};
ghost use Rattle.rules.specs.Summary.{tally, changes};
ghost use Rattle.rules.specs.Corrections.{shown};
ghost use Rattle.summaries.specs.Tallies.{tallied, place_of, counts_at, Countable};

use crate::Tally;
use checks::Span;
use rules::moving;

// Nothing counted yet. It is written out: the clause says what all counts are, and a derived Default would say it of each place by itself.
pub fn none_counted() -> Tally
    ensures { result ≡ tallied [] [] 0 0 }
{
    Tally {
        counts: [0u16; 17],
        changes: 0,
    }
}

// Where a second is counted: in the gear that its byte shows, or, standing, at place 16.
fn place_of(v: u16, byte: u8) -> usize
    ensures value { result ≡ place_of v byte }
    ensures few { result ≤ 16 }
{
    if moving(v) {
        usize::from(byte % 16)
    } else {
        16
    }
}

// The seconds of a span, each at its place.
fn counts_in<'a>(speeds: &'a [u16], card: &'a [u8], span: Span) -> [u16; 17]
    requires { Countable speeds.now card.now span.lo span.hi }
    ensures { result ≡ table (λ g. tally (counts_at g speeds.now card.now) span.lo (span.hi - span.lo)) 0 17 }
{
    let mut counts = [0u16; 17];
    for i in span.lo..span.hi {
        counts[place_of(speeds[i], card[i])] += 1;
    }
    counts
}

// 1 where two seconds in a row, of speeds u and v, move and their bytes show different gears, else 0.
fn change(u: u16, v: u16, a: u8, b: u8) -> u16
    ensures { result ≡ (if moving u and (moving v and not (eqb (shown a) (shown b))) then 1 else 0) }
{
    u16::from(moving(u) && moving(v) && a % 16 != b % 16)
}

// The gear changes of a span. Each pair adds 0 or 1, so that several are looked at at once.
fn changes_in<'a>(speeds: &'a [u16], card: &'a [u8], span: Span) -> u16
    requires { Countable speeds.now card.now span.lo span.hi }
    ensures { result ≡ tally (changes speeds.now card.now) span.lo (span.hi - 1 - span.lo) }
{
    let mut changes: u16 = 0;
    for i in span.lo + 1..span.hi {
        changes += change(speeds[i - 1], speeds[i], card[i - 1], card[i]);
    }
    changes
}

// The seconds of a span, after which no trip goes on.
pub fn count<'a>(speeds: &'a [u16], card: &'a [u8], span: Span) -> Tally
    requires { Countable speeds.now card.now span.lo span.hi }
    ensures { result ≡ tallied speeds.now card.now span.lo (span.hi - span.lo) }
{
    Tally {
        counts: counts_in(speeds, card, span),
        changes: changes_in(speeds, card, span),
    }
}
