// Checks 4 to 10 on the seconds of a span.
ghost use Rattle.std.specs.Prelude.{◌≡◌, ◌≤◌};
ghost use Rattle.rules.specs.Refusals.{said, span_fault};
ghost use Rattle.checks.specs.Asked.{speeds_in, holds_in};
ghost use Rattle.checks.specs.Checks.{Spanned};
ghost use Rattle.checks.specs.Want.{Resting};

use crate::calm::look;
use crate::seconds::check_seen;
use crate::want::check_gears;
use crate::{Span, Trace};
use gears::Powered;
use rules::Refusal;

// Checks 4 to 10, of the speeds and the holds as they would be with what is asked for. Of the trace they look at the span alone.
pub fn check_span(powered: Powered, trace: Trace, span: Span) -> Result<(), Refusal>
    requires { Spanned powered.car.now trace.speeds.now span.lo span.hi × (span.lo ≤ trace.asked.second)
        × Resting (speeds_in trace) span.lo span.hi }
    ensures { said result ≡ span_fault powered.entry.car.now (speeds_in trace.entry) (holds_in trace.entry) span.lo span.hi }
{
    let seen = look(trace.speeds, span);
    check_seen(powered.car, trace, span, seen)?;
    // no speed of the span is above this, the one that is asked for included
    let most = seen.fastest.max(trace.asked.speed);
    check_gears(powered, trace, span, most)
}
