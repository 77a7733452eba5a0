// Polynomials in ternary parts: a part holds all coefficients but the last, which is 0. That there is one is a clause, as in word parts.
ghost use Rattle.std.specs.Prelude.{◌≡◌, ℕ, ◌+◌, ◌-◌, ◌*◌, ◌/◌, ◌≤◌, true, length};
ghost use Rattle.algebra.specs.Polynomials.{Poly};
ghost use Rattle.algebra.specs.Ring.{Agree, integers};
ghost use Rattle.algebra.specs.Ternary.{Ternary};
ghost use Rattle.arithmetic.specs.Digits.{coefficients};
ghost use Rattle.scheme.specs.TernaryParts.{holds_digits};
ghost use Rattle.scheme.specs.TernaryPolynomials.{ended_digits, pair_of, ternary_record};

use crate::set::ParameterSet;
use crate::ternary::{pack, unpack};
use arithmetic::Digit;

pub(crate) fn read_ternary(bytes: &[u8], out: &mut [Digit])
    requires some { 1 ≤ length out.old }
    requires enough { length out.old - 1 ≤ 5 * length bytes.now }
    ensures digits { out.new ≡ ended_digits (length out.old) bytes.now }
    ensures ternary { Ternary (length out.old) (coefficients out.new) }
{
    let last = out.len() - 1;
    unpack(bytes, &mut out[0..last]);
    out[last] = Digit::ZERO;
}

// Writes all coefficients but the last.
pub(crate) fn write_ternary(polynomial: &[Digit], out: &mut [u8])
    requires some { 1 ≤ length polynomial.now }
    requires room { length out.old ≡ (length polynomial.now - 1 + 4) / 5 }
    ensures { (u : Poly) → Agree integers (length polynomial.now) (coefficients polynomial.now) u → out.new ≡ ternary_record (length polynomial.now) u }
{
    let last = polynomial.len() - 1;
    pack(&polynomial[0..last], out);
}

// Writes two polynomials, one after the other, as r and m or f and fp.
pub(crate) fn write_pair(set: ParameterSet, r: &[Digit], m: &[Digit], pair: &mut [u8])
    requires digits { (length r.now ≡ set.n) × (length m.now ≡ set.n) }
    requires room { length pair.old ≡ set.pair }
    ensures { (u v : Poly) → Agree integers set.n (coefficients r.now) u → Agree integers set.n (coefficients m.now) v → pair.new ≡ pair_of set.n u v }
{
    let ternary = set.ternary;
    write_ternary(r, &mut pair[0..ternary]);
    write_ternary(m, &mut pair[ternary..]);
}
