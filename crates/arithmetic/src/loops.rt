// Single loops over the coefficients of polynomials.
ghost use Rattle.std.specs.Prelude.{◌≡◌, ℕ, ◌+◌, ◌<◌, ◌≤◌, length, slice_index_or};
ghost use Rattle.euclid.specs.Inverses.{phi};
ghost use Rattle.euclid.specs.Series.{Size, monomial, poly, polynomials};

use crate::rings::Ring;

// The number of coefficients up to the highest that is not zero.
pub(crate) fn significant<R: Ring>(p: &[R]) -> usize
    ensures within { result ≤ length p.now }
    ensures size { Size R.ring result (poly R.ring R.value p.now) }
{
    let mut rest = p;
    while let [front @ .., last] = rest {
        if !last.same(R::zero()) {
            return rest.len();
        }
        rest = front;
    }
    0
}

// By hand, since `fill` of slices asks that a clone cannot fail, which the bound `Copy` does not say.
fn fill<R: Ring>(p: &mut [R], value: R)
    ensures each { (k : ℕ) → k < length p.old → poly R.ring R.value p.new k ≡ R.value value }
{
    for c in p.iter_mut() {
        *c = value;
    }
}

// By a name of its own, as `fill_ones`: its clause says which polynomial that is.
pub(crate) fn clear<R: Ring>(p: &mut [R])
    ensures all_zeros { poly R.ring R.value p.new ≡ (polynomials R.ring).nought }
{
    fill(p, R::zero());
}

pub(crate) fn set_one<R: Ring>(p: &mut [R])
    requires { 0 < length p.old }
    ensures is_one { poly R.ring R.value p.new ≡ (polynomials R.ring).unit }
{
    clear(p);
    p[0] = R::one();
}

// 1 + x + .. + x^(n - 1).
pub(crate) fn fill_ones<R: Ring>(p: &mut [R])
    ensures all_ones { poly R.ring R.value p.new ≡ phi R.ring (length p.old) }
{
    fill(p, R::one());
}

pub(crate) fn scale_into<R: Ring>(t: &[R], factor: R, out: &mut [R])
    requires { length out.old ≡ length t.now }
    ensures scaled { poly R.ring R.value out.new ≡ (polynomials R.ring).times (monomial R.ring (R.value factor) 0) (poly R.ring R.value t.now) }
{
    for (i, c) in t.iter().enumerate() {
        out[i] = factor.product(*c);
    }
}

// Adds c times x^shift times d.
pub(crate) fn add_shifted<R: Ring>(r: &mut [R], d: &[R], c: R, shift: usize)
    requires fits { shift + length d.now ≤ length r.old }
    ensures added { poly R.ring R.value r.new ≡ (polynomials R.ring).plus (poly R.ring R.value r.old) ((polynomials R.ring).times (monomial R.ring (R.value c) shift) (poly R.ring R.value d.now)) }
{
    for (i, e) in d.iter().enumerate() {
        r[shift + i] = r[shift + i].sum(c.product(*e));
    }
}

// Converts element by element, as many as both lists have places for.
pub fn convert<A: Copy, B: From<A> + Copy>(from: &[A], into: &mut [B])
    ensures converted { (k : ℕ) (a : A) (b : B) → k < length from.now → k < length into.old → B.from_gives (slice_index_or from.now k a) (slice_index_or into.new k b) }
    ensures rest_kept { (k : ℕ) (b : B) → length from.now ≤ k → slice_index_or into.new k b ≡ slice_index_or into.old k b }
{
    let count = from.len().min(into.len());
    for (i, value) in from[..count].iter().enumerate() {
        into[i] = B::from(*value);
    }
}
