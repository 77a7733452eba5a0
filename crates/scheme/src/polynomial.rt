// Polynomials in word parts: a part holds all coefficients but the last, so there is one. A slice has no type that says so, and a clause does.
ghost use Rattle.std.specs.Prelude.{◌≡◌, ℕ, ◌-◌, ◌*◌, ◌%◌, ◌^◌, ◌≤◌, length, take, pos, sum};
ghost use Rattle.algebra.specs.Polynomials.{Balanced};
ghost use Rattle.algebra.specs.Radix.{Under};
ghost use Rattle.arithmetic.specs.Products.{integers_of};
ghost use Rattle.scheme.specs.WordParts.{word_bytes, word_part, part_words};
ghost use Rattle.scheme.specs.WordPolynomials.{ReadsBack, balanced, padded};

use crate::width::Width;
use crate::words::{pack_words, unpack_words};

// The greatest number of coefficients of a polynomial, which a set says by its own facts and not by arithmetic's limit of words. Nothing
// allocates, so a call has arrays of that many places, and takes their fronts as its lists; a list that a product is written to lies in a `Room`.
pub(crate) const LONGEST: usize = 1408;

// The sum modulo 65536.
fn sum_words(words: &[u16]) -> u16
    ensures { result ≡ sum words.now % 65536 }
{
    words
        .iter()
        .fold(0u16, |total, word| total.wrapping_add(*word))
}

// A polynomial whose coefficients have the sum 0 modulo 2^width, as h and a sealed one: the sum gives the last.
pub(crate) fn read_balanced(width: Width, bytes: &[u8], out: &mut [u16])
    requires some { 1 ≤ length out.old }
    requires enough { width.bits * (length out.old - 1) ≤ 8 * length bytes.now }
    ensures words { out.new ≡ balanced width.bits (part_words width.bits (length out.old - 1) bytes.now) }
    ensures sum_zero { Balanced (2 ^ width.bits) (length out.old) (integers_of out.new) }
    ensures small { Under (2 ^ width.bits) out.new }
{
    let last = out.len() - 1;
    let others = &mut out[0..last];
    unpack_words(width, bytes, others);
    let total = sum_words(others);
    out[last] = width.low(total.wrapping_neg());
}

// A polynomial whose last coefficient is 0, as hq.
pub(crate) fn read_padded(width: Width, bytes: &[u8], out: &mut [u16])
    requires some { 1 ≤ length out.old }
    requires enough { width.bits * (length out.old - 1) ≤ 8 * length bytes.now }
    ensures words { out.new ≡ padded (part_words width.bits (length out.old - 1) bytes.now) }
    ensures last_zero { integers_of out.new (length out.old - 1) ≡ pos 0 }
    ensures small { Under (2 ^ width.bits) out.new }
{
    let last = out.len() - 1;
    unpack_words(width, bytes, &mut out[0..last]);
    out[last] = 0;
}

// Writes all coefficients but the last.
pub(crate) fn write_all_but_last(width: Width, polynomial: &[u16], out: &mut [u8])
    requires some { 1 ≤ length polynomial.now }
    requires room { length out.old ≡ word_bytes width.bits (length polynomial.now - 1) }
    ensures output { out.new ≡ word_part width.bits (take (length polynomial.now - 1) polynomial.now) }
    ensures reads_back { Under (2 ^ width.bits) polynomial.now → ReadsBack width.bits polynomial.now out.new }
{
    let last = polynomial.len() - 1;
    pack_words(width, &polynomial[0..last], out);
}
