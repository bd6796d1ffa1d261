// The bench computer's export, request Five of document 02: road load coefficients and test mass as single-precision floats, turned into document 01's
// units from their bits, in whole numbers only. The first fault from left to right is the answer.
#![tactic(auto)]

ghost use Rattle.std.specs.Prelude.{◌≡◌};
ghost use Rattle.exports.specs.Export.{ExportAs, with_record};

mod fields;
mod floats;
mod records;

use fields::{TM, in_units, whole_number};
use records::record_at;
use rules::Refusal;

// A field of the vehicle that the bench gives: how many of its units make one of the bench's, and its bounds.
#[derive(Clone, Copy)]
struct Field {
    scale: u64,
    lo: i64,
    hi: i64,
}

// The coefficients as the bench has them, in N and km/h.
#[derive(Clone, Copy)]
struct Coefficients {
    f0: f32,
    f1: f32,
    f2: f32,
}

// The coefficients in document 01's units.
#[derive(Clone, Copy)]
struct Units {
    f0: u16,
    f1: i32,
    f2: u16,
}

// A record of the export: kind 1, kind 2 and kind 0.
#[derive(Clone, Copy)]
enum Record {
    Coefficients(Coefficients),
    Mass(f32),
    End,
}

// What was found so far: of each kind that was met, its floats.
#[derive(Clone, Copy)]
struct Found {
    coefficients: Option<Coefficients>,
    mass: Option<f32>,
}

// What is read: F0 in tenths of N, F1 in thousandths of N/(km/h), F2 in hundred-thousandths of N/(km/h)^2 and TM in kg.
#[derive(Clone, Copy, Default)]
pub struct Export {
    pub f0: u16,
    pub f1: i32,
    pub f2: u16,
    pub tm: u16,
}

impl Found {
    // And this record.
    fn and(self, met: Record) -> Found
        ensures { result ≡ with_record self met }
    {
        match met {
            Record::Coefficients(coefficients) => Found {
                coefficients: Some(coefficients),
                ..self
            },
            Record::Mass(mass) => Found {
                mass: Some(mass),
                ..self
            },
            Record::End => self,
        }
    }
}

// Reads an export: two records of different kinds, in either order, and the end. A kind met twice and an end before both are refused as they are met, so
// the third record that comes is the end, and both kinds were met.
pub fn read_export(bytes: &[u8]) -> Result<Export, Refusal>
    ensures { ExportAs bytes.now result }
{
    let none = Found {
        coefficients: None,
        mass: None,
    };
    let (one, at) = record_at(bytes, 0, none)?;
    let half = none.and(one);
    let (two, at) = record_at(bytes, at, half)?;
    let both = half.and(two);
    let (_, end) = record_at(bytes, at, both)?;
    if end != bytes.len() {
        return Err(Refusal::BytesAfter(end));
    }
    let Units { f0, f1, f2 } = in_units(both.coefficients.unwrap());
    let tm = whole_number(both.mass.unwrap(), TM);
    Ok(Export { f0, f1, f2, tm })
}
