// Products of polynomials where x^n counts as 1. The coefficients of the first factor are the factors of the rows, so that each order of words
// and digits has a function of its own. A polynomial of a set is a slice and a clause with its length: as a type it would be opened in each line.
ghost use Rattle.std.specs.Prelude.{◌≡◌, ◌≤◌, length};
ghost use Rattle.algebra.specs.Polynomials.{SameMod, centre, times, Φ1};
ghost use Rattle.algebra.specs.Ring.{Agree, integers, reduce};
ghost use Rattle.algebra.specs.Ternary.{Ternary};
ghost use Rattle.arithmetic.specs.Digits.{coefficients};
ghost use Rattle.arithmetic.specs.Products.{cyclic_product, integers_of};
ghost use Rattle.arithmetic.specs.Rows.{raised};

use crate::coefficients::{reduce_modulo_3, signed_words};
use crate::polynomial::LONGEST;
use crate::set::ParameterSet;
use arithmetic::{Digit, RowUnit, convert, multiply, times_phi1};

// Room that the steps of a call share: five lists of the longest polynomial, cleared once a call. To clear lists of its own for each product takes
// longer than the products of a small set. The first field has the struct, and with it each of the five, begin at a multiple of 16 bytes, as in
// `Room`. A product lies two lists before the one that its rows are taken from: where they lie near 4096 bytes apart, a processor takes the one for
// the other.
#[derive(Drop)]
pub(crate) struct Work {
    start: u128,
    pub(crate) words: [u16; 5 * LONGEST],
}

impl Work {
    pub(crate) fn new() -> Work {
        Work {
            start: 0,
            words: [0; 5 * LONGEST],
        }
    }
}

// The product of u and v, modulo 65536. v stands twice in `work` then.
pub(crate) fn product<U: RowUnit>(
    unit: &mut U,
    set: ParameterSet,
    u: &[u16],
    v: &[u16],
    work: &mut [u16],
    out: &mut [u16],
)
    requires factors { (length u.now ≡ set.n) × (length v.now ≡ set.n) }
    requires room { (2816 ≤ length work.old) × (length out.old ≡ set.n) }
    ensures words { out.new ≡ cyclic_product u.now v.now }
    ensures product { SameMod 65536 set.n (integers_of out.new) (times set.n (integers_of u.now) (integers_of v.now)) }
    ensures count { U.rows unit.new ≡ raised set.n (U.rows unit.old) }
{
    // All lengths fit, so that the product is not refused.
    let _ = multiply(unit, u, v, &mut work[..2 * set.n], out);
}

// The product of words c and digits f, modulo 65536.
pub(crate) fn times_digits<U: RowUnit>(
    unit: &mut U,
    set: ParameterSet,
    c: &[u16],
    f: &[Digit],
    work: &mut [u16],
    out: &mut [u16],
)
    requires factors { (length c.now ≡ set.n) × (length f.now ≡ set.n) }
    requires room { (4224 ≤ length work.old) × (length out.old ≡ set.n) }
    ensures product { SameMod 65536 set.n (integers_of out.new) (times set.n (integers_of c.now) (coefficients f.now)) }
    ensures count { U.rows unit.new ≡ raised set.n (U.rows unit.old) }
{
    let (words_room, rest) = work.split_at_mut(LONGEST);
    let words = &mut words_room[..set.n];
    signed_words(f, words);
    product(unit, set, c, words, rest, out);
}

// The product of digits r and words h, modulo 65536.
pub(crate) fn digits_times<U: RowUnit>(
    unit: &mut U,
    set: ParameterSet,
    r: &[Digit],
    h: &[u16],
    work: &mut [u16],
    out: &mut [u16],
)
    requires factors { (length r.now ≡ set.n) × (length h.now ≡ set.n) }
    requires room { (4224 ≤ length work.old) × (length out.old ≡ set.n) }
    ensures product { SameMod 65536 set.n (integers_of out.new) (times set.n (coefficients r.now) (integers_of h.now)) }
    ensures count { U.rows unit.new ≡ raised set.n (U.rows unit.old) }
{
    let (words_room, rest) = work.split_at_mut(LONGEST);
    let words = &mut words_room[..set.n];
    signed_words(r, words);
    product(unit, set, words, h, rest, out);
}

// The product of a and b, reduced modulo 3 and 1 + x + .. + x^(n - 1). The last digit of b is 0, so that no sum of codes wraps.
pub(crate) fn product_modulo_3<U: RowUnit>(
    unit: &mut U,
    set: ParameterSet,
    a: &[Digit],
    b: &[Digit],
    work: &mut [u16],
    out: &mut [Digit],
)
    requires factors { (length a.now ≡ set.n) × (length b.now ≡ set.n) }
    requires last { Ternary set.n (coefficients b.now) }
    requires room { (7040 ≤ length work.old) × (length out.old ≡ set.n) }
    ensures product { Agree integers set.n (coefficients out.new) (λ k. centre 3 (reduce integers set.n (times set.n (coefficients a.now) (coefficients b.now)) k)) }
    ensures count { U.rows unit.new ≡ raised set.n (U.rows unit.old) }
{
    let n = set.n;
    let (a_room, rest) = work.split_at_mut(LONGEST);
    let (ab_room, rest) = rest.split_at_mut(LONGEST);
    let (b_room, rest) = rest.split_at_mut(LONGEST);
    let a_words = &mut a_room[..n];
    let ab = &mut ab_room[..n];
    let b_words = &mut b_room[..n];
    convert(a, a_words);
    convert(b, b_words);
    product(unit, set, a_words, b_words, rest, ab);
    reduce_modulo_3(ab, out);
}

// The product of x - 1 and v, modulo 65536, which takes no rows.
pub(crate) fn phi1_times(set: ParameterSet, v: &[u16], out: &mut [u16])
    requires { (length v.now ≡ set.n) × (length out.old ≡ set.n) }
    ensures { SameMod 65536 set.n (integers_of out.new) (times set.n (Φ1 set.n) (integers_of v.now)) }
{
    // The lengths agree, so that there is room.
    let _ = times_phi1(v, out);
}
