// The signs of f and g: the correlation of a drawn polynomial, and the flip that makes it 0 or more.
ghost use Rattle.std.specs.Prelude.{◌≡◌, ℕ, ◌≤◌, length, pos, ◌*ℤ◌, int_le, unsigned_abs};
ghost use Rattle.algebra.specs.Ternary.{correlation, Ternary, Ternary+};
ghost use Rattle.arithmetic.specs.Digits.{coefficients, number};
ghost use Rattle.scheme.specs.Signs.{flipped, settled};

use arithmetic::{Digit, Ring};

fn neighbours(a: Digit, b: Digit) -> i32
    ensures value { result ≡ number a *ℤ number b }
    ensures small { unsigned_abs result ≤ 1 }
{
    i32::from(i8::from(a)) * i32::from(i8::from(b))
}

// The sum of v_i times v_(i+1), for i from 0 to n - 3. A sum of so few fits; a type round a slice for that alone would be no plainer than the clause.
fn correlate(v: &[Digit]) -> i32
    requires { length v.now ≤ 1408 }
    ensures { result ≡ correlation (length v.now) (coefficients v.now) }
{
    let mut total: i32 = 0;
    for pair in v[0..v.len().saturating_sub(1)].windows(2) {
        total += neighbours(pair[0], pair[1]);
    }
    total
}

// Whether the correlation is 0 or more.
pub(crate) fn correlates(v: &[Digit]) -> bool
    requires { length v.now ≤ 1408 }
    ensures { result ≡ int_le (pos 0) (correlation (length v.now) (coefficients v.now)) }
{
    correlate(v) >= 0
}

fn flip_signs(v: &mut [Digit])
    ensures { v.new ≡ flipped v.old }
{
    for (i, d) in v.iter_mut().enumerate() {
        if i % 2 == 0 {
            *d = d.negation();
        }
    }
}

// Flips the signs of the even-numbered coefficients where the correlation is negative.
pub(crate) fn settle_signs(v: &mut [Digit])
    requires { length v.old ≤ 1408 }
    ensures { v.new ≡ settled v.old }
{
    if correlate(v) < 0 {
        flip_signs(v);
    }
}
