// A float's bits, and its value in document 01's units from them: sign, exponent and digits as whole numbers, no product of floats.
ghost use Rattle.std.specs.Prelude.{◌≡◌, ◌+◌, ◌<◌, ◌≤◌, length};
ghost use Rattle.std.proofs.Common.{SFits};
ghost use Rattle.std.specs.Int.{w64};
ghost use Rattle.exports.specs.Floats.{four_bytes, scaled};
ghost use Rattle.exports.specs.Bits.{exponent, significand, shift, size_of, Moderate};

// Four bytes, the least significant first.
#[tactic(auto, unfolding(crate::specs::Floats::four_bytes))]
pub fn bits_at(bytes: &[u8], at: usize) -> u32
    requires { at + 4 ≤ length bytes.now }
    ensures { result ≡ four_bytes bytes.now at }
{
    u32::from_le_bytes([bytes[at], bytes[at + 1], bytes[at + 2], bytes[at + 3]])
}

// The exponent's field.
#[tactic(auto, unfolding(crate::specs::Bits::exponent))]
pub fn exponent(bits: u32) -> u32
    ensures { (result ≡ exponent bits) × (result < 256) }
{
    bits / 8388608 % 256
}

// The digits, with the leading one where there is one: a field of 0 has none.
fn significand(bits: u32) -> u64
    ensures { (result ≡ significand bits) × (result < 16777216) }
{
    let digits = u64::from(bits % 8388608);
    if exponent(bits) == 0 {
        digits
    } else {
        8388608 + digits
    }
}

// By how many binary places the value is below its digits; a field of 0 counts as one of 1.
fn shift(bits: u32) -> u32
    requires { exponent bits < 150 }
    ensures { (result ≡ shift bits) × (result < 150) }
{
    150 - exponent(bits).max(1)
}

// The size of the value, so many times over, to the nearest whole number, halves up.
pub fn size_of(bits: u32, scale: u64) -> u64
    requires { (exponent bits < 150) × (scale ≤ 100000) }
    ensures { (result ≡ size_of scale bits) × (result < 4611686018427387904) }
{
    let product = scale * significand(bits);
    let places = shift(bits);
    // The product is below 2^41, so it is far below one half of 2^61 and more.
    if 60 < places {
        return 0;
    }
    (2 * product + (1 << places)) >> (places + 1)
}

// The exact value of a float, so many times over, to the nearest whole number, halves away from zero.
pub fn scaled(x: f32, scale: u64) -> i64
    requires { Moderate scale x }
    ensures { (result ≡ scaled scale x) × SFits w64 result }
{
    let bits = x.to_bits();
    // `as` fits, as `size_of` promises: what follows has a sign
    let size = size_of(bits, scale) as i64;
    if bits < 2147483648 { size } else { -size }
}
