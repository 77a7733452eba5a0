// Lift: of a polynomial m it is (x - 1) s, where s has digits -1, 0 and 1, and (x - 1) s is m modulo 3 and 1 + x + .. + x^(n - 1).
ghost use Rattle.std.specs.Prelude.{◌≡◌, ◌≤◌, length, pos};
ghost use Rattle.algebra.specs.Polynomials.{SameMod};
ghost use Rattle.algebra.specs.Ring.{Agree, Differ, integers, sum};
ghost use Rattle.algebra.specs.Scheme.{lifting, shift};
ghost use Rattle.arithmetic.specs.Digits.{coefficients, number};
ghost use Rattle.arithmetic.specs.Products.{integers_of};
ghost use Rattle.scheme.specs.Sealing.{lift_of};

use crate::coefficients::signed_words;
use crate::product::phi1_times;
use crate::set::ParameterSet;
use arithmetic::{Digit, Ring};

// The sum of digits, modulo 3. Not one with the sum of words, which is told as a natural number.
fn sum_digits(digits: &[Digit]) -> Digit
    ensures { Differ integers (pos 3) (number result) (sum integers (length digits.now) (coefficients digits.now)) }
{
    let mut total = Digit::ZERO;
    for digit in digits {
        total = total.sum(*digit);
    }
    total
}

// What is added to every digit of m, for their sum to become 0 modulo 3: minus the sum divided by n, and n is 1 or -1.
fn balancing_shift(set: ParameterSet, m: &[Digit]) -> Digit
    requires { length m.now ≡ set.n }
    ensures { Differ integers (pos 3) (number result) (shift (length m.now) (coefficients m.now)) }
{
    let total = sum_digits(m);
    if set.n % 3 == 1 {
        total.negation()
    } else {
        total
    }
}

// Writes the s that lifts m.
fn lifting_digits(set: ParameterSet, m: &[Digit], s: &mut [Digit])
    requires { (length m.now ≡ set.n) × (length s.old ≡ set.n) }
    ensures { Agree integers (length m.now) (coefficients s.new) (lifting (length m.now) (coefficients m.now)) }
{
    let shift = balancing_shift(set, m);
    let mut last = Digit::ZERO;
    for (i, digit) in m.iter().enumerate() {
        last = last.sum(digit.sum(shift).negation());
        s[i] = last;
    }
}

// Writes Lift(m), modulo 65536. The lists s and `work` are room to work in.
pub(crate) fn lift(
    set: ParameterSet,
    m: &[Digit],
    s: &mut [Digit],
    work: &mut [u16],
    out: &mut [u16],
)
    requires polynomials { (length m.now ≡ set.n) × (length out.old ≡ set.n) }
    requires room { (length s.old ≡ set.n) × (1408 ≤ length work.old) }
    ensures { SameMod 65536 set.n (integers_of out.new) (lift_of set.n (coefficients m.now)) }
{
    let words = &mut work[..set.n];
    lifting_digits(set, m, s);
    signed_words(s, words);
    phi1_times(set, words, out);
}
