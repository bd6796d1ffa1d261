// The summary of a whole card.
ghost use Rattle.std.specs.Prelude.{◌≡◌, []};
ghost use Rattle.std.specs.Result.{result_unwrap_or};
ghost use Rattle.rules.specs.Refusals.{said};
ghost use Rattle.rules.specs.Summary.{summary, summary_fault, counted_summary};

use crate::settle::updated;
use crate::stretch::{count, none_counted};
use checks::{Span, check_lengths};
use rules::{Refusal, Summary};

// The card counted once; asking after that reads the summary and nothing else.
pub fn summary_of<'a>(speeds: &'a [u16], card: &'a [u8]) -> Result<Summary, Refusal>
    ensures answer { said result ≡ summary_fault speeds.now card.now }
    ensures summary { result_unwrap_or result (summary [] []) ≡ counted_summary speeds.now card.now }
{
    let seconds = speeds.len();
    check_lengths(seconds, card.len(), card.len())?;
    let all = count(speeds, card, Span { lo: 0, hi: seconds });
    Ok(updated(Summary::default(), none_counted(), all))
}
