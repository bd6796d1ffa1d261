// The fields that the bench gives: which floats are within document 01's bounds, and what they are in its units.
ghost use Rattle.std.specs.Prelude.{◌≡◌, pos};
ghost use Rattle.exports.specs.Fields.{f1_field, units, in_bounds};
ghost use Rattle.exports.specs.Bits.{Finite, InField, Fair, Unsigned, Bounded, InUnits};

use crate::floats::{exponent, scaled, size_of};
use crate::{Coefficients, Field, Units};

// F0, tenths of N.
pub const F0: Field = Field {
    scale: 10,
    lo: 0,
    hi: 10000,
};

// F1, thousandths of N/(km/h).
pub const F1: Field = Field {
    scale: 1000,
    lo: -5000,
    hi: 5000,
};

// F2, hundred-thousandths of N/(km/h)^2.
pub const F2: Field = Field {
    scale: 100000,
    lo: 0,
    hi: 20000,
};

// The test mass, kg.
pub const TM: Field = Field {
    scale: 1,
    lo: 400,
    hi: 4000,
};

// Whether the rounded value lies within a field's bounds.
pub fn in_bounds(x: f32, field: Field) -> bool
    requires { Finite x × Fair field }
    ensures { result ≡ in_bounds field x }
{
    // From 2^23 on in size the value is beyond every bound.
    if 150 <= exponent(x.to_bits()) {
        return false;
    }
    let value = scaled(x, field.scale);
    field.lo <= value && value <= field.hi
}

// A float that was judged, for a field with no negative values, in its units.
pub fn whole_number(x: f32, field: Field) -> u16
    requires { InField field x × Unsigned field }
    ensures { pos result ≡ units field x }
{
    // `as` fits: the field is in its bounds
    size_of(x.to_bits(), field.scale) as u16
}

// F1, which may be negative.
fn thousandths(x: f32) -> i32
    requires { InField f1_field x }
    ensures { result ≡ units f1_field x }
{
    // `as` fits: the field is in its bounds
    scaled(x, 1000) as i32
}

// Coefficients that were judged, in document 01's units.
pub fn in_units(c: Coefficients) -> Units
    requires { Bounded c }
    ensures { InUnits c result }
{
    Units {
        f0: whole_number(c.f0, F0),
        f1: thousandths(c.f1),
        f2: whole_number(c.f2, F2),
    }
}
