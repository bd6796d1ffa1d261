// The records of an export: each float is judged once its bytes are read, and a fault is handed up.
ghost use Rattle.std.specs.Prelude.{◌≡◌, false, is_some, IfOk, List, ℕ};
ghost use Rattle.exports.specs.declared.Found.{Found};
ghost use Rattle.exports.specs.Export.{finite_float, judged, coefficients_read, mass_read, end_read, record_read};
ghost use Rattle.exports.specs.Bits.{Finite, InField, Fair};
ghost use Rattle.exports.specs.Answers.{read_as, ComesAfter};

use crate::fields::{F0, F1, F2, TM, in_bounds};
use crate::floats::{bits_at, exponent};
use crate::{Coefficients, Field, Found, Record};
use rules::Refusal;

// A float, four bytes; the record that it stands in begins at spot.
fn float_at(bytes: &[u8], at: usize, spot: usize) -> Result<(f32, usize), Refusal>
    ensures said { read_as result ≡ finite_float bytes.now spot at }
    ensures finite { IfOk result (λ r. Finite r.0) }
{
    let end = bytes.len();
    if end <= at || end < at + 4 {
        return Err(Refusal::JobEndsEarly(end));
    }
    let bits = bits_at(bytes, at);
    // What is not finite is told by its bits, since Rattle's library takes no NaN for a float.
    if exponent(bits) == 255 {
        return Err(Refusal::NotFinite(spot));
    }
    Ok((f32::from_bits(bits), at + 4))
}

// A float for a field.
fn judged_at(bytes: &[u8], at: usize, spot: usize, field: Field) -> Result<(f32, usize), Refusal>
    requires { Fair field }
    ensures said { read_as result ≡ judged bytes.now spot field at }
    ensures bounded { IfOk result (λ r. InField field r.0) }
{
    let (x, next) = float_at(bytes, at, spot)?;
    if !in_bounds(x, field) {
        return Err(Refusal::OutOfBounds(spot));
    }
    Ok((x, next))
}

// Kind 1: f0, f1, f2.
fn coefficients_at(bytes: &[u8], at: usize, spot: usize) -> Result<(Record, usize), Refusal>
    ensures said { read_as result ≡ coefficients_read bytes.now spot at }
    ensures good { (found : Found) → is_some found.coefficients ≡ false → ComesAfter found result }
{
    let (f0, at) = judged_at(bytes, at, spot, F0)?;
    let (f1, at) = judged_at(bytes, at, spot, F1)?;
    let (f2, at) = judged_at(bytes, at, spot, F2)?;
    Ok((Record::Coefficients(Coefficients { f0, f1, f2 }), at))
}

// Kind 2: the test mass.
fn mass_at(bytes: &[u8], at: usize, spot: usize) -> Result<(Record, usize), Refusal>
    ensures said { read_as result ≡ mass_read bytes.now spot at }
    ensures good { (found : Found) → is_some found.mass ≡ false → ComesAfter found result }
{
    let (mass, at) = judged_at(bytes, at, spot, TM)?;
    Ok((Record::Mass(mass), at))
}

// Kind 0: the end, once both kinds were met.
fn end_at(at: usize, spot: usize, found: Found) -> Result<(Record, usize), Refusal>
    ensures said { (bytes : List ℕ) → read_as result ≡ end_read bytes spot found at }
    ensures good { ComesAfter found result }
{
    if found.coefficients.is_none() || found.mass.is_none() {
        return Err(Refusal::KindMissing(spot));
    }
    Ok((Record::End, at))
}

// A record after those that were found.
pub fn record_at(bytes: &[u8], spot: usize, found: Found) -> Result<(Record, usize), Refusal>
    ensures said { read_as result ≡ record_read bytes.now found spot }
    ensures good { ComesAfter found result }
{
    let end = bytes.len();
    if end <= spot {
        return Err(Refusal::JobEndsEarly(end));
    }
    match bytes[spot] {
        0 => end_at(spot + 1, spot, found),
        1 if found.coefficients.is_none() => coefficients_at(bytes, spot + 1, spot),
        2 if found.mass.is_none() => mass_at(bytes, spot + 1, spot),
        _ => Err(Refusal::BadKind(spot)),
    }
}
