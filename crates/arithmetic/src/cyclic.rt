// Polynomials of n coefficients where x^n counts as 1.
ghost use Rattle.std.specs.Prelude.{◌≡◌, ℕ, ◌<◌, ◌≤◌, Ok, IsErr, length, ℤ, ◌≢◌};
ghost use Rattle.algebra.specs.Polynomials.{SameMod, times, Φ1};
ghost use Rattle.algebra.specs.Ring.{integers, reduce};
ghost use Rattle.algebra.specs.Stands.{Stands, numbers};
ghost use Rattle.euclid.specs.Cyclic.{cyclic, x_less_one};
ghost use Rattle.euclid.specs.Series.{less_last, phi1, poly};

use crate::rings::Ring;

// The lists of a call differ in length.
#[derive(Clone, Copy, PartialEq, Eq, Debug)]
pub struct WrongLength;

// Multiplies by x - 1. `out` has to have as many places as v.
pub fn times_phi1<R: Ring>(v: &[R], out: &mut [R]) -> Result<(), WrongLength>
    ensures served_where_lengths_agree { result ≡ Ok tt → length out.old ≡ length v.now }
    ensures refused_where_lengths_differ { IsErr result → length out.old ≢ length v.now }
    ensures cyclic_product_by_x_less_one { result ≡ Ok tt → poly R.ring R.value out.new ≡ cyclic R.ring (length v.now) (x_less_one R.ring) (poly R.ring R.value v.now) }
    ensures each_coefficient { result ≡ Ok tt → (k : ℕ) → k < length v.now → poly R.ring R.value out.new k ≡ phi1 R.ring (length v.now) (poly R.ring R.value v.now) k }
    ensures over_the_integers { result ≡ Ok tt → 2 ≤ length v.now → (k : ℕ) (number : R.Value → ℤ) → Stands R.ring k number → SameMod k (length v.now) (numbers number (poly R.ring R.value out.new)) (times (length v.now) (Φ1 (length v.now)) (numbers number (poly R.ring R.value v.now))) }
    ensures refusal_leaves_out { IsErr result → out.new ≡ out.old }
{
    if out.len() != v.len() {
        return Err(WrongLength);
    }
    let [.., last] = v else {
        return Ok(());
    };
    out[0] = last.sum(v[0].negation());
    for (i, c) in v[1..].iter().enumerate() {
        out[i + 1] = v[i].sum(c.negation());
    }
    Ok(())
}

// Subtracts the last coefficient from all.
pub fn subtract_last<R: Ring>(v: &mut [R])
    ensures last_subtracted_from_all { (k : ℕ) → k < length v.old → poly R.ring R.value v.new k ≡ less_last R.ring (length v.old) (poly R.ring R.value v.old) k }
    ensures over_the_integers { (k : ℕ) (number : R.Value → ℤ) → Stands R.ring k number → SameMod k (length v.old) (numbers number (poly R.ring R.value v.new)) (reduce integers (length v.old) (numbers number (poly R.ring R.value v.old))) }
{
    let [.., last] = &*v else {
        return;
    };
    let less = last.negation();
    for c in v.iter_mut() {
        *c = c.sum(less);
    }
}
