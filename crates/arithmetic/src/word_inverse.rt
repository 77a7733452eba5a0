// Inverses of polynomials of words modulo 2^w and 1 + x + .. + x^(n - 1), from inverses modulo 2.
ghost use Rattle.std.specs.Prelude.{◌≡◌, ℕ, ◌*◌, ◌%◌, ◌^◌, ◌<◌, ◌≤◌, length, MatchOption, slice_index, slice_index_or};
ghost use Rattle.algebra.specs.Polynomials.{InverseMod, NoInverseMod};
ghost use Rattle.arithmetic.specs.Bits.{bit};
ghost use Rattle.arithmetic.specs.Newton.{Lifted};
ghost use Rattle.arithmetic.specs.Products.{integers_of};
ghost use Rattle.arithmetic.specs.Rows.{raised};
ghost use Rattle.arithmetic.specs.WordInverses.{Answered, Taken};

use crate::bit::Bit;
use crate::inverse::inverse_mod_phi;
use crate::loops::{convert, significant};
use crate::newton::lift_inverse;
use crate::product::Room;
use crate::rows::{MOST_WORDS, RowUnit};

// Each word modulo 2^width. One slice is as long as the other by a clause, which is plainer than a type round both.
fn mask_into(width: u32, words: &[u16], out: &mut [u16])
    requires narrow { width ≤ 16 }
    requires room { length out.old ≡ length words.now }
    ensures { (k : ℕ) → k < length words.now → slice_index out.new k ≡ slice_index words.now k % 2 ^ width }
{
    let mask = (1u32 << width) - 1;
    for (i, word) in words.iter().enumerate() {
        out[i] = (u32::from(*word) & mask) as u16;
    }
}

// The inverse of f modulo 2, by Euclid's method over lists of bits; nothing where there is none.
fn start(f: &[u16], u: &mut [u16]) -> Option<()>
    requires sizes { (2 ≤ length f.now) × ((length f.now ≤ 1408) × (length u.old ≡ length f.now)) }
    ensures inverse_or_none { MatchOption result (NoInverseMod 2 (length f.now) (integers_of f.now)) (λ _. InverseMod 2 (length f.now) (integers_of f.now) (integers_of u.new)) }
{
    let n = f.len();
    let mut f_room = [Bit::ZERO; MOST_WORDS];
    let mut u_room = [Bit::ZERO; MOST_WORDS];
    let mut r = [Bit::ZERO; MOST_WORDS];
    let mut s = [Bit::ZERO; MOST_WORDS];
    let mut t = [Bit::ZERO; MOST_WORDS];
    let mut v = [Bit::ZERO; MOST_WORDS];
    let f_bits = &mut f_room[..n];
    let u_bits = &mut u_room[..n];
    convert(f, f_bits);
    inverse_mod_phi(
        f_bits,
        u_bits,
        &mut r[..n],
        &mut s[..n],
        &mut t[..n],
        &mut v[..n],
    )?;
    convert(u_bits, u);
    Some(())
}

// The inverse of f modulo 2^width and 1 + x + .. + x^(n - 1), where f has n words, into `inverse`; the answer is its degree.
pub fn inverse_of_words<U: RowUnit>(
    unit: &mut U,
    width: u32,
    f: &[u16],
    inverse: &mut [u16],
) -> Option<usize>
    ensures none_exactly_when_none_serves { Answered width f.now inverse.old (U.rows unit.old) result inverse.new (U.rows unit.new) }
{
    let n = f.len();
    if width < 1 || width > 16 || n < 2 || n > MOST_WORDS || inverse.len() != n {
        return None;
    }
    let mut room = Room::new();
    let u = &mut room.words[..n];
    start(f, u)?;
    lift_inverse(unit, f, u);
    mask_into(width, u, inverse);
    Some(significant(inverse) - 1)
}
