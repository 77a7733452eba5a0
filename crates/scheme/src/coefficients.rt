// Coefficients as digits and as words: digits go into products as words, and come back from them. One slice is as long as the other by a clause,
// which is plainer than a type round both that each line would open.
ghost use Rattle.std.specs.Prelude.{◌≡◌, ℕ, ◌^◌, ◌<◌, ◌≤◌, length, pos, get_or, slice_index, slice_index_or, unsigned_abs, MatchOption};
ghost use Rattle.algebra.specs.Decided.{Tells};
ghost use Rattle.algebra.specs.Polynomials.{SameMod, centre};
ghost use Rattle.algebra.specs.Ring.{Agree, Differ, integers, power, reduce};
ghost use Rattle.arithmetic.specs.Digits.{coefficients, digit, number};
ghost use Rattle.arithmetic.specs.Products.{integers_of};
ghost use Rattle.scheme.specs.Readings.{SignsRead};

use crate::set::ParameterSet;
use arithmetic::{Digit, convert, subtract_last};

// Each digit as a word: 0, 1, and 65535 for -1.
pub(crate) fn signed_words(digits: &[Digit], out: &mut [u16])
    requires { length out.old ≡ length digits.now }
    ensures { SameMod 65536 (length digits.now) (integers_of out.new) (coefficients digits.now) }
{
    for (i, digit) in digits.iter().enumerate() {
        out[i] = i16::from(i8::from(*digit)).cast_unsigned();
    }
}

// A word centred modulo q, and of that the remainder modulo 3.
fn centre_digit(set: ParameterSet, word: u16) -> Digit
    ensures { Differ integers (pos 3) (number result) (centre (2 ^ set.width) (pos word)) }
{
    let modulus = 1u32 << set.width;
    let low = u32::from(set.bits().low(word));
    // From half the modulus on, low - modulus is meant, and that is low + 2 * modulus modulo 3.
    let number = if low < modulus / 2 {
        low
    } else {
        low + 2 * modulus
    };
    Digit::from((number % 3) as u16)
}

// Each word centred modulo q, and of that the remainder modulo 3.
pub(crate) fn centre_digits(set: ParameterSet, words: &[u16], out: &mut [Digit])
    requires { length out.old ≡ length words.now }
    ensures { SameMod 3 (length words.now) (coefficients out.new) (λ k. centre (2 ^ set.width) (integers_of words.now k)) }
{
    for (i, word) in words.iter().enumerate() {
        out[i] = centre_digit(set, *word);
    }
}

// Reduces a polynomial of words modulo 3 and 1 + x + .. + x^(n - 1).
pub(crate) fn reduce_modulo_3(words: &[u16], out: &mut [Digit])
    requires some { 1 ≤ length words.now }
    requires room { length out.old ≡ length words.now }
    ensures { Agree integers (length words.now) (coefficients out.new) (λ k. centre 3 (reduce integers (length words.now) (integers_of words.now) k)) }
{
    convert(words, out);
    subtract_last(out);
}

// A word modulo q, where that is -1, 0 or 1.
fn read_sign(set: ParameterSet, word: u16) -> Option<Digit>
    ensures { MatchOption result (unsigned_abs (centre (2 ^ set.width) (pos word)) ≤ 1 → ⊥) (λ d. number d ≡ centre (2 ^ set.width) (pos word)) }
{
    let width = set.bits();
    match width.low(word) {
        0 => Some(Digit::ZERO),
        1 => Some(Digit::ONE),
        low if low == width.mask() => Some(Digit::MINUS_ONE),
        _ => None,
    }
}

// Reads each word modulo q as -1, 0 or 1, where all are such. Where one is not, part of `out` may be written.
pub(crate) fn read_signs(set: ParameterSet, words: &[u16], out: &mut [Digit]) -> Option<()>
    requires { length out.old ≡ length words.now }
    ensures { SignsRead (length words.now) set.width (integers_of words.now) result out.new }
{
    for (i, word) in words.iter().enumerate() {
        out[i] = read_sign(set, *word)?;
    }
    Some(())
}

// Takes the last word from all, and reads what is left as digits: the polynomial reduced modulo (q, 1 + x + .. + x^(n - 1)) and centred.
pub(crate) fn read_reduced(set: ParameterSet, words: &mut [u16], out: &mut [Digit]) -> Option<()>
    requires some { 1 ≤ length words.old }
    requires room { length out.old ≡ length words.old }
    ensures { SignsRead (length words.old) set.width (reduce integers (length words.old) (integers_of words.old)) result out.new }
{
    subtract_last(words);
    read_signs(set, words, out)
}

// Whether the digits are those of the polynomial 1.
pub(crate) fn is_one(digits: &[Digit]) -> bool
    requires { 1 ≤ length digits.now }
    ensures { Tells result (Agree integers (length digits.now) (coefficients digits.now) (power integers 0)) }
{
    digits[0] == Digit::ONE && digits[1..].iter().all(|digit| *digit == Digit::ZERO)
}
