// Sums and differences of polynomials of words, modulo 65536. That both are of one length is a clause, as in coefficients.
ghost use Rattle.std.specs.Prelude.{◌≡◌, ℕ, ◌<◌, length, slice_index};
ghost use Rattle.algebra.specs.Polynomials.{SameMod, less, plus};
ghost use Rattle.arithmetic.specs.Products.{integers_of};

// Each word of u becomes f of it and the word of v at its place. Callers write closures: of the name `u16::wrapping_add` a proof knows nothing.
fn combine<F: Fn(u16, u16) -> u16>(u: &mut [u16], v: &[u16], f: F)
    requires callable { F.IsAlwaysCallable f }
    requires room { length v.now ≡ length u.old }
    ensures { (k : ℕ) → k < length u.old → F.post f (slice_index u.old k) (slice_index v.now k) (slice_index u.new k) }
{
    for (i, word) in u.iter_mut().enumerate() {
        *word = f(*word, v[i]);
    }
}

// Adds v to u. This and the difference are named for their clauses, which say what the polynomial is then.
pub(crate) fn add_words(u: &mut [u16], v: &[u16])
    requires { length v.now ≡ length u.old }
    ensures { SameMod 65536 (length u.old) (integers_of u.new) (plus (integers_of u.old) (integers_of v.now)) }
{
    combine(u, v, |a, b| a.wrapping_add(b));
}

// Takes v from u.
pub(crate) fn subtract_words(u: &mut [u16], v: &[u16])
    requires { length v.now ≡ length u.old }
    ensures { SameMod 65536 (length u.old) (integers_of u.new) (less (integers_of u.old) (integers_of v.now)) }
{
    combine(u, v, |a, b| a.wrapping_sub(b));
}
