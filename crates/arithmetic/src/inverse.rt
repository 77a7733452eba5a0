// Inverses modulo 1 + x + .. + x^(n - 1), by Euclid's method.
ghost use Rattle.std.specs.Prelude.{◌≡◌, ℕ, ◌+◌, ◌-◌, ◌<◌, ◌≤◌, true, false, length, take, ℤ, IfNone, MatchOption};
ghost use Rattle.algebra.specs.Polynomials.{InverseMod, NoInverseMod};
ghost use Rattle.algebra.specs.Stands.{Stands, numbers};
ghost use Rattle.euclid.specs.Inverses.{Inverted, NoInverse, Suited, phi};
ghost use Rattle.euclid.specs.Method.{Ended, Taken};
ghost use Rattle.euclid.specs.Series.{Below, Size, monomial, poly, polynomials};

use crate::loops::{add_shifted, clear, fill_ones, scale_into, set_one, significant};
use crate::rings::Field;

// The places of a row: those of its coefficients, and up to 31 zeros after them, since whole groups of 32 go faster.
fn row_places(size: usize, room: usize) -> usize
    requires { size ≤ room }
    ensures enough { size ≤ result }
    ensures within { result ≤ room }
{
    if room - size < 32 {
        room
    } else {
        size.div_ceil(32) * 32
    }
}

// Adds c times x^shift times d, which takes the last of the first `size` coefficients of r away, and answers how many are left up to the highest.
fn take_top<F: Field>(r: &mut [F], d: &[F], c: F, shift: usize, size: usize) -> usize
    requires fits { shift + length d.now ≤ length r.old }
    requires some { (0 < size) × (size ≤ length r.old) }
    ensures added { poly F.Ring.ring F.Ring.value r.new ≡ (polynomials F.Ring.ring).plus (poly F.Ring.ring F.Ring.value r.old) ((polynomials F.Ring.ring).times (monomial F.Ring.ring (F.Ring.value c) shift) (poly F.Ring.ring F.Ring.value d.now)) }
    ensures left { Size F.Ring.ring result (poly F.Ring.ring F.Ring.value (take (size - 1) r.new)) }
    ensures fewer { result < size }
{
    add_shifted(r, d, c, shift);
    significant(&r[..size - 1])
}

// A row of Euclid's method: a remainder, the factor of a that belongs to it, and how many coefficients the remainder has up to its highest.
#[derive(Drop)]
struct Row<'a, F> {
    rest: &'a mut [F],
    factor: &'a mut [F],
    size: usize,
}

impl<F: Field> Row<'_, F> {
    // Takes multiples of the other row from this one until its remainder is shorter than the other's.
    fn reduce(&mut self, by: &Row<'_, F>)
        requires lengths { (length by.now.rest.now ≡ length self.old.rest.now) × ((length self.old.factor.now ≡ length self.old.rest.now) × (length by.now.factor.now ≡ length self.old.rest.now)) }
        requires sizes { (0 < by.now.size) × ((by.now.size ≤ self.old.size) × (self.old.size ≤ length self.old.rest.now)) }
        requires dividend { Size F.Ring.ring self.old.size (poly F.Ring.ring F.Ring.value self.old.rest.now) }
        requires divisor { Size F.Ring.ring by.now.size (poly F.Ring.ring F.Ring.value by.now.rest.now) }
        requires bound { Below F.Ring.ring (length self.old.rest.now + 1 - self.old.size) (poly F.Ring.ring F.Ring.value by.now.factor.now) }
        ensures taken { let p = poly F.Ring.ring F.Ring.value in Taken F.Ring.ring (self.old.size + 1 - by.now.size) (p self.old.rest.now) (p by.now.rest.now) (p self.old.factor.now) (p by.now.factor.now) (p self.new.rest.now) (p self.new.factor.now) }
        ensures shorter { self.new.size < by.now.size }
        ensures rest { Size F.Ring.ring self.new.size (poly F.Ring.ring F.Ring.value self.new.rest.now) }
        ensures lengths { (length self.new.rest.now ≡ length self.old.rest.now) × (length self.new.factor.now ≡ length self.old.factor.now) }
    {
        let all = self.rest.len();
        let mut size = self.size;
        let wide = all - size + 1;
        let lead = by.rest[by.size - 1].inverse();
        while size >= by.size {
            let c = self.rest[size - 1].product(lead).negation();
            let shift = size - by.size;
            let room = all - shift;
            add_shifted(self.factor, &by.factor[..row_places(wide, room)], c, shift);
            size = take_top(
                self.rest,
                &by.rest[..row_places(by.size, room)],
                c,
                shift,
                size,
            );
        }
        self.size = size;
    }

    // The end of Euclid's method: where the common divisor is a constant, its inverse times its factor is the inverse.
    fn conclude(&self, inverse: &mut [F]) -> Option<usize>
        requires lengths { (length self.now.factor.now ≡ length self.now.rest.now) × ((length inverse.old ≡ length self.now.rest.now) × (2 ≤ length self.now.rest.now)) }
        requires ended { (a : ℕ → F.Ring.Value) × Ended F.Ring.ring (length self.now.rest.now) a (poly F.Ring.ring F.Ring.value self.now.rest.now) (poly F.Ring.ring F.Ring.value self.now.factor.now) self.now.size }
        ensures concluded { (a : ℕ → F.Ring.Value) → Ended F.Ring.ring (length self.now.rest.now) a (poly F.Ring.ring F.Ring.value self.now.rest.now) (poly F.Ring.ring F.Ring.value self.now.factor.now) self.now.size → MatchOption result (NoInverse F.Ring.ring (length self.now.rest.now) a × (inverse.new ≡ inverse.old)) (λ degree. Inverted F.Ring.ring (length self.now.rest.now) a (poly F.Ring.ring F.Ring.value inverse.new) degree) }
    {
        let lead = self.rest[self.size - 1].inverse();
        if self.size > 1 {
            return None;
        }
        scale_into(self.factor, lead, inverse);
        Some(significant(inverse) - 1)
    }
}

// Euclid's method from 1 + x + .. + x^(n - 1) in r and a in s, with the factors 0 and 1 in t and v. The two rows change roles with every step.
fn euclid<F: Field>(
    r: &mut [F],
    s: &mut [F],
    t: &mut [F],
    v: &mut [F],
    inverse: &mut [F],
) -> Option<usize>
    requires lengths { (length s.old ≡ length r.old) × ((length t.old ≡ length r.old) × ((length v.old ≡ length r.old) × ((length inverse.old ≡ length r.old) × (2 ≤ length r.old)))) }
    requires modulus { poly F.Ring.ring F.Ring.value r.old ≡ phi F.Ring.ring (length r.old) }
    requires factors { (poly F.Ring.ring F.Ring.value t.old ≡ (polynomials F.Ring.ring).nought) × (poly F.Ring.ring F.Ring.value v.old ≡ (polynomials F.Ring.ring).unit) }
    ensures inverse_or_none { MatchOption result (NoInverse F.Ring.ring (length r.old) (poly F.Ring.ring F.Ring.value s.old) × (inverse.new ≡ inverse.old)) (λ degree. Inverted F.Ring.ring (length r.old) (poly F.Ring.ring F.Ring.value s.old) (poly F.Ring.ring F.Ring.value inverse.new) degree) }
{
    let n = r.len();
    let size = significant(s);
    let mut high = Row {
        rest: r,
        factor: t,
        size: n,
    };
    let mut low = Row {
        rest: s,
        factor: v,
        size,
    };
    while low.size > 0 {
        high.reduce(&low);
        if high.size == 0 {
            return low.conclude(inverse);
        }
        low.reduce(&high);
    }
    high.conclude(inverse)
}

fn suited(n: usize, a: usize, b: usize, c: usize, d: usize, e: usize) -> bool
    ensures fit { result ≡ true → Suited n a b c d e }
    ensures unfit { result ≡ false → Suited n a b c d e → ⊥ }
{
    n >= 2 && a == n && b == n && c == n && d == n && e == n
}

// The inverse of a modulo 1 + x + .. + x^(n - 1), where a has n coefficients, into `inverse`; the answer is its degree. The lists r, s, t and v
// are room to work in, and end as zeros. Where the field's values stand for the integers modulo k, it is the inverse of the polynomial over the
// integers that a stands for, modulo k and 1 + x + .. + x^(n - 1).
pub fn inverse_mod_phi<F: Field>(
    a: &[F],
    inverse: &mut [F],
    r: &mut [F],
    s: &mut [F],
    t: &mut [F],
    v: &mut [F],
) -> Option<usize>
    ensures none_exactly_when_none_serves { let m = F.Ring in let p = poly m.ring m.value in let n = length a.now in let fit = Suited n (length inverse.old) (length r.old) (length s.old) (length t.old) (length v.old) in MatchOption result (fit → NoInverse m.ring n (p a.now)) (λ degree. fit × Inverted m.ring n (p a.now) (p inverse.new) degree) }
    ensures over_the_integers { let m = F.Ring in let p = poly m.ring m.value in let n = length a.now in let fit = Suited n (length inverse.old) (length r.old) (length s.old) (length t.old) (length v.old) in (k : ℕ) (number : m.Value → ℤ) → Stands m.ring k number → MatchOption result (fit → NoInverseMod k n (numbers number (p a.now))) (λ _. InverseMod k n (numbers number (p a.now)) (numbers number (p inverse.new))) }
    ensures none_leaves_result { IfNone result (inverse.new ≡ inverse.old) }
    ensures r_ends_as_zeros { poly F.Ring.ring F.Ring.value r.new ≡ (polynomials F.Ring.ring).nought }
    ensures s_ends_as_zeros { poly F.Ring.ring F.Ring.value s.new ≡ (polynomials F.Ring.ring).nought }
    ensures t_ends_as_zeros { poly F.Ring.ring F.Ring.value t.new ≡ (polynomials F.Ring.ring).nought }
    ensures v_ends_as_zeros { poly F.Ring.ring F.Ring.value v.new ≡ (polynomials F.Ring.ring).nought }
{
    let answer = if suited(a.len(), inverse.len(), r.len(), s.len(), t.len(), v.len()) {
        fill_ones(r);
        s.copy_from_slice(a);
        clear(t);
        set_one(v);
        euclid(r, s, t, v, inverse)
    } else {
        None
    };
    clear(r);
    clear(s);
    clear(t);
    clear(v);
    answer
}
