// Division with remainder.
ghost use Rattle.std.specs.Prelude.{◌≡◌, ◌-◌, ◌<◌, ◌≤◌, length, IfSome, IfNone, MatchOption};
ghost use Rattle.euclid.specs.Division.{Divides, NoDivision};
ghost use Rattle.euclid.specs.Series.{Below, Size, poly, polynomials};

use crate::loops::{add_shifted, clear, significant};
use crate::rings::Field;

// Takes multiples of d, whose last coefficient is not zero, from r until r is shorter than d, and notes their factors in q.
fn reduce<F: Field>(r: &mut [F], d: &[F], q: &mut [F])
    requires some { 0 < length d.now }
    requires divisor { Size F.Ring.ring (length d.now) (poly F.Ring.ring F.Ring.value d.now) }
    requires places { length r.old ≤ length q.old }
    requires blank { poly F.Ring.ring F.Ring.value q.old ≡ (polynomials F.Ring.ring).nought }
    ensures whole { poly F.Ring.ring F.Ring.value r.old ≡ (polynomials F.Ring.ring).plus ((polynomials F.Ring.ring).times (poly F.Ring.ring F.Ring.value q.new) (poly F.Ring.ring F.Ring.value d.now)) (poly F.Ring.ring F.Ring.value r.new) }
    ensures shorter { Below F.Ring.ring (length d.now - 1) (poly F.Ring.ring F.Ring.value r.new) }
{
    let top = d.len() - 1;
    let lead = d[top].inverse();
    // A `while`, since under a `for` that counts down the loop of `add_shifted` is not vectorised.
    let mut left = r.len();
    while left >= d.len() {
        let c = r[left - 1].product(lead);
        let shift = left - d.len();
        q[shift] = c;
        add_shifted(r, d, c.negation(), shift);
        left -= 1;
    }
}

// Divides with remainder, and answers the degrees of quotient and remainder. A degree is told as the number of significant coefficients: one
// more than the degree, and 0 for the zero polynomial, which has none.
pub fn divide<F: Field>(
    dividend: &[F],
    divisor: &[F],
    quotient: &mut [F],
    remainder: &mut [F],
) -> Option<(usize, usize)>
    ensures none_exactly_when_no_division { let m = F.Ring in let no = NoDivision m.ring (poly m.ring m.value divisor.now) (length dividend.now) (length quotient.old) (length remainder.old) in MatchOption result no (λ _. no → ⊥) }
    ensures none_leaves_buffers { IfNone result ((quotient.new ≡ quotient.old) × (remainder.new ≡ remainder.old)) }
    ensures quotient_and_remainder { let m = F.Ring in let p = poly m.ring m.value in IfSome result (λ s. Divides m.ring (p dividend.now) (p divisor.now) (p quotient.new) (p remainder.new) s.0 s.1) }
{
    let size = significant(divisor);
    let places = dividend.len();
    if size == 0 || quotient.len() < places || remainder.len() < places {
        return None;
    }
    let (front, rest) = remainder.split_at_mut(places);
    front.copy_from_slice(dividend);
    clear(rest);
    clear(quotient);
    reduce(front, &divisor[..size], quotient);
    Some((significant(quotient), significant(remainder)))
}
