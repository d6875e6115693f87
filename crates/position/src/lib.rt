// Head positions as 32-bit floats and as whole counts (02, R-10): a value of eight bytes is converted from one to the other,
// its last four bytes kept. No cast here can round: the language defines a cast to or from a float only where it loses
// nothing, and what it leaves undefined is tested away on the bits before.
#![tactic(auto)]

ghost use Rattle.std.specs.Prelude.{◌≡◌, true, [], ◌≤◌, ◌%◌, eqb, length};
ghost use Rattle.std.proofs.Math.Option.{none, some};
ghost use Rattle.position.specs.Float.{units_of, units_of_one, is_count, count_in, is_held, float_of};
ghost use Rattle.position.specs.Convert.{with_position, outcome, from_float, to_float, ConversionCrossed};

use record::{Refusal, number};
use word::number::read32;

const HIGHEST_COUNT: u32 = 67108864;

// The bits of the highest count as a float. Below 2^31 the bits of floats rise with their values.
const HIGHEST_FLOAT: u32 = 0x4c80_0000;

// Where the significand's lowest digit counts 1, and where its highest does.
const LOWEST_IS_ONE: u32 = 150;

const HIGHEST_IS_ONE: u32 = 127;

// The answer, and the eight bytes: all 0 where it is a refusal, so that the bytes stand beside the answer and not in it.
#[derive(Clone, Copy)]
pub struct Conversion {
    pub answer: Result<(), Refusal>,
    pub value: [u8; 8],
}

// Whether a float has no digit behind the point. The digits of its significand below 1 are tested by their remainder.
fn is_whole(bits: u32) -> bool
    requires { bits ≤ 1283457024 }
    ensures { result ≡ eqb (units_of bits % units_of_one) 0 }
{
    let field = bits / 8388608;
    if field >= LOWEST_IS_ONE {
        return true;
    }
    if field < HIGHEST_IS_ONE {
        return bits == 0;
    }
    (8388608 + bits % 8388608) % (1 << (LOWEST_IS_ONE - field)) == 0
}

// Whether the float is a whole number from 0 to the highest count with a clear sign. A set sign, an infinity and a NaN lie
// above the highest count's bits.
fn is_count(bits: u32) -> bool
    ensures { result ≡ is_count bits }
{
    if bits > HIGHEST_FLOAT {
        return false;
    }
    is_whole(bits)
}

// The count that a float is. A cast from an `f32` is defined up to 2^24 alone, one from an `f64` up to 2^53.
fn count_in(bits: u32) -> u32
    requires { is_count bits ≡ true }
    ensures { result ≡ count_in bits }
{
    let wide = f32::from_bits(bits) as f64;
    wide as u32
}

// Whether a float is the count: a significand has 24 digits, so the digits below its 24 highest have to be 0.
fn is_held(count: u32) -> bool
    ensures { result ≡ is_held count }
{
    if count > HIGHEST_COUNT {
        return false;
    }
    if count < 16777216 {
        return true;
    }
    if count < 33554432 {
        return count % 2 == 0;
    }
    count % 4 == 0
}

// The bits of the float that is the count. A cast to an `f32` is defined up to 2^24 alone, one from an `f64` wherever the
// `f32` is the same number.
fn float_of(count: u32) -> u32
    requires { is_held count ≡ true }
    ensures { result ≡ float_of count }
{
    let wide = count as f64;
    f32::to_bits(wide as f32)
}

fn refused(cause: Refusal) -> Conversion
    ensures { result ≡ outcome (some cause) [] }
{
    Conversion {
        answer: Err(cause),
        value: [0; 8],
    }
}

// The value with another position, its free bytes kept.
fn with_position(value: &[u8], position: u32) -> Conversion
    requires { length value.now ≡ 8 }
    ensures { result ≡ outcome none (with_position position value.now) }
{
    let [a, b, c, d] = position.to_le_bytes();
    let bytes = [a, b, c, d, value[4], value[5], value[6], value[7]];
    Conversion {
        answer: Ok(()),
        value: bytes,
    }
}

// From float: the position's bits as a float become a count.
pub fn from_float(value: &[u8]) -> Conversion
    ensures { result ≡ from_float value.now }
{
    if value.len() != 8 {
        return refused(Refusal::ValueLength);
    }
    let bits = read32(value, 0);
    if !is_count(bits) {
        return refused(Refusal::NotWhole);
    }
    with_position(value, count_in(bits))
}

// To float: the position's count becomes the bits of a float.
pub fn to_float(value: &[u8]) -> Conversion
    ensures { result ≡ to_float value.now }
{
    if value.len() != 8 {
        return refused(Refusal::ValueLength);
    }
    let count = read32(value, 0);
    if !is_held(count) {
        return refused(Refusal::CountLost);
    }
    with_position(value, float_of(count))
}

// A conversion handed to a caller in C or Rust: the number of its answer, 0 where it is accepted, and its eight bytes.
pub fn hand_over(made: Conversion, converted: &mut [u8; 8]) -> u32
    ensures { ConversionCrossed made converted.new result }
{
    let bytes = made.value;
    *converted = bytes;
    let answer = made.answer;
    match answer {
        Ok(()) => 0,
        Err(cause) => number(cause),
    }
}
