// Binary32 floats held as their 32 bits: equality of rows, conversion both ways, and a scaled row added to sums.
//
// The logic has one NaN and no payload, so what must come back bit for bit is held and moved as words; a float is made
// of a word where there is something to compute.
#![tactic(auto)]

ghost use Rattle.std.specs.Prelude.{◌≡◌, ◌<◌, ◌≤◌, ◌^◌, length};
ghost use Rattle.float_bits.specs.Words.{float_of, word_of, nan_word};
ghost use Rattle.float_bits.specs.Rows.{rows_equal, add_scaled};

use terms::FloatBits;

// The weight of the sign's bit: below it stand the exponent and the digits.
const SIGN: FloatBits = 0x8000_0000;

// An infinity's bits below the sign. A NaN's are above.
const INFINITY: FloatBits = 0x7f80_0000;

// The word that stands for a NaN that was computed.
const NAN: FloatBits = 0x7fc0_0000;

pub fn is_nan_word(w: FloatBits) -> bool
    ensures { result ≡ nan_word w }
{
    w % SIGN > INFINITY
}

pub fn float_of_word(w: FloatBits) -> f32
    ensures { result ≡ float_of w }
{
    if is_nan_word(w) {
        f32::NAN
    } else {
        f32::from_bits(w)
    }
}

pub fn word_of_float(x: f32) -> FloatBits
    ensures { result ≡ word_of x }
{
    if x.is_nan() { NAN } else { x.to_bits() }
}

// The same word at every place of two rows.
#[tactic(auto, using(crate::proofs::AllEqual::pointwise_equal))]
pub fn rows_equal(a: &[FloatBits], b: &[FloatBits]) -> bool
    ensures { result ≡ rows_equal a.now b.now }
{
    a == b
}

// To each sum its float of the row times the weight: the product is rounded, then the sum.
pub fn add_scaled(sums: &mut [f32], row: &[FloatBits], weight: usize)
    requires { (length sums.old ≡ length row.now) × (weight ≤ 2 ^ 24) }
    ensures { sums.new ≡ add_scaled weight sums.old row.now }
{
    let factor = weight as f32;
    for i in 0..sums.len() {
        sums[i] = sums[i] + float_of_word(row[i]) * factor;
    }
}
