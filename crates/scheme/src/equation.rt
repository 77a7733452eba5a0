// The key equation 3 (x - 1) g = h f: the only g that can solve it.
ghost use Rattle.std.specs.Prelude.{length, pos, ◌*ℤ◌};
ghost use Rattle.algebra.specs.Polynomials.{SameMod};
ghost use Rattle.algebra.specs.Ring.{divided, integers};
ghost use Rattle.arithmetic.specs.Products.{integers_of};

// A third modulo 65536: three times this is 2 * 65536 + 1.
const THIRD: u16 = 43691;

// Divides d by 3 (x - 1), where the words of d add up to 0: word k becomes a third of -(d_0 + .. + d_k).
pub(crate) fn divide_by_3_phi1(d: &mut [u16])
    ensures { SameMod 65536 (length d.old) (integers_of d.new) (λ k. pos 43691 *ℤ divided integers (integers_of d.old) k) }
{
    let mut rest: u16 = 0;
    for word in d.iter_mut() {
        rest = rest.wrapping_sub(*word);
        *word = rest.wrapping_mul(THIRD);
    }
}
