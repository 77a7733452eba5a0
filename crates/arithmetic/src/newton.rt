// Newton's method: from an inverse modulo 2 to one modulo 65536, where 1 + x + .. + x^(n-1) counts as 0.
ghost use Rattle.std.specs.Prelude.{◌≡◌, ℕ, ◌*◌, ◌<◌, ◌≤◌, length, pos, neg_ℤ, slice_index};
ghost use Rattle.algebra.specs.Polynomials.{SameMod, refine as refined};
ghost use Rattle.algebra.specs.Ring.{Differ, integers, reduce};
ghost use Rattle.arithmetic.specs.Newton.{Lifted, two_less, words_of};
ghost use Rattle.arithmetic.specs.Products.{Sized, integers_of};
ghost use Rattle.arithmetic.specs.Rows.{raised};

use crate::cyclic::subtract_last;
use crate::product::{Room, multiply_doubled, write_twice};
use crate::rows::{MOST_WORDS, RowUnit};

fn negate(p: &mut [u16])
    ensures negated { (k : ℕ) → k < length p.old → Differ integers (pos 65536) (pos (slice_index p.new k)) (neg_ℤ (pos (slice_index p.old k))) }
{
    for word in p.iter_mut() {
        *word = word.wrapping_neg();
    }
}

// p becomes 2 - p.
fn take_from_two(p: &mut [u16])
    requires some { 1 ≤ length p.old }
    ensures difference { SameMod 65536 (length p.old) (integers_of p.new) (two_less (length p.old) (integers_of p.old)) }
{
    negate(p);
    p[0] = p[0].wrapping_add(2);
}

// Takes the last coefficient from all, over the integers up to multiples of 65536.
fn reduce_words(u: &mut [u16])
    requires some { 1 ≤ length u.old }
    ensures difference { SameMod 65536 (length u.old) (integers_of u.new) (reduce integers (length u.old) (integers_of u.old)) }
{
    subtract_last(u);
}

// Newton's step: u becomes u (2 - f u). The other two lists are room to work in.
pub(crate) fn refine<U: RowUnit>(
    unit: &mut U,
    f: &[u16],
    u: &mut [u16],
    doubled: &mut [u16],
    p: &mut [u16],
)
    requires sized { Sized f.now u.old doubled.old p.old }
    ensures step { SameMod 65536 (length f.now) (integers_of u.new) (refined (length f.now) (integers_of f.now) (integers_of u.old)) }
    ensures words { u.new ≡ words_of (length f.now) (refined (length f.now) (integers_of f.now) (integers_of u.old)) }
    ensures count { U.rows unit.new ≡ raised (2 * length f.now) (U.rows unit.old) }
{
    write_twice(u, doubled);
    multiply_doubled(unit, f, doubled, p);
    take_from_two(p);
    // `doubled` still holds u twice, so u is free to take the result.
    multiply_doubled(unit, p, doubled, u);
}

// Four steps, each of which squares the modulus: 4, 16, 256, 65536. Then the last coefficient is taken from all.
pub(crate) fn lift_inverse<U: RowUnit>(unit: &mut U, f: &[u16], u: &mut [u16])
    requires sizes { (1 ≤ length f.now) × (length f.now ≤ 1408) }
    requires room { length u.old ≡ length f.now }
    ensures lifted { Lifted f.now u.old u.new }
    ensures count { U.rows unit.new ≡ raised (8 * length f.now) (U.rows unit.old) }
{
    let n = f.len();
    // Made and cleared once for all four steps, which for a small n is a good part of their time.
    let mut twice = [0u16; 2 * MOST_WORDS];
    let doubled = &mut twice[..2 * n];
    let mut room = Room::new();
    let p = &mut room.words[..n];
    // Four calls and no loop, whose invariant would be these four steps again.
    refine(unit, f, u, doubled, p);
    refine(unit, f, u, doubled, p);
    refine(unit, f, u, doubled, p);
    refine(unit, f, u, doubled, p);
    reduce_words(u);
}
