// The cyclic product of two lists of words, by a row unit.
ghost use Rattle.std.specs.Prelude.{◌≡◌, ℕ, ◌*◌, ◌<◌, ◌≤◌, List, ◌++◌, length, replicate, slice_index};
ghost use Rattle.arithmetic.specs.Products.{MaskedProducts, Product, TernaryProducts, cyclic_product};
ghost use Rattle.arithmetic.specs.Rows.{raised};

use crate::rows::{MOST_WORDS, RowRefusal, RowUnit, check};

// Room for the output of a product of the most words. A list whose place is no multiple of 16 bytes makes rows up to a quarter slower;
// the first field has the struct, and with it the list, begin at one.
#[derive(Drop)]
pub struct Room {
    start: u128,
    pub words: [u16; MOST_WORDS],
}

impl Room {
    pub fn new() -> Self
        ensures zeros { result.words ≡ replicate 1408 0 }
    {
        Room {
            start: 0,
            words: [0; MOST_WORDS],
        }
    }
}

// v, and v again.
pub(crate) fn write_twice(v: &[u16], doubled: &mut [u16])
    requires room { length doubled.old ≡ 2 * length v.now }
    ensures twice { doubled.new ≡ v.now ++ v.now }
{
    let n = v.len();
    doubled[0..n].copy_from_slice(v);
    doubled[n..].copy_from_slice(v);
}

// The product of u and what stands twice in `doubled`, in a row for each word of u, those that are 0 too.
// The words from n - j on are the second factor turned by j places, as row j needs it.
pub(crate) fn multiply_doubled<U: RowUnit>(
    unit: &mut U,
    u: &[u16],
    doubled: &[u16],
    out: &mut [u16],
)
    requires some { 1 ≤ length u.now }
    requires few { length u.now ≤ 1408 }
    requires room { length doubled.now ≡ 2 * length u.now }
    requires result { length out.old ≡ length u.now }
    ensures words { (v : List ℕ) → doubled.now ≡ v ++ v → out.new ≡ cyclic_product u.now v }
    ensures count { U.rows unit.new ≡ raised (length u.now) (U.rows unit.old) }
{
    out.fill(0);
    let n = u.len();
    for (j, factor) in u.iter().enumerate() {
        // Each row has a length that is served.
        let _ = unit.row(*factor, &doubled[n - j..2 * n - j], out);
    }
}

// The product of u and v where x^n counts as 1, modulo 65536, for lists of n words. `doubled` is room for v and v again.
pub fn multiply<U: RowUnit>(
    unit: &mut U,
    u: &[u16],
    v: &[u16],
    doubled: &mut [u16],
    out: &mut [u16],
) -> Result<(), RowRefusal>
    ensures product { Product u.now v.now doubled.old out.old (U.rows unit.old) result doubled.new out.new (U.rows unit.new) }
{
    check(u, out)?;
    if v.len() != u.len() || doubled.len() != 2 * u.len() {
        return Err(RowRefusal::Length);
    }
    write_twice(v, doubled);
    multiply_doubled(unit, u, doubled, out);
    Ok(())
}

// What the words of a product are modulo 2 ^ w, and that products of words 0, 1 and 2 do not wrap.
pub fn products_hold() -> u8
    ensures lowest_bits { MaskedProducts }
    ensures no_sum_wraps { TernaryProducts }
{
    0
}
