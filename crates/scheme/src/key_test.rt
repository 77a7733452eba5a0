// The test whether a card is a key. Each test takes the polynomials that its definition names, and the set with the row unit.
ghost use Rattle.std.specs.Prelude.{◌≡◌, ◌^◌, ◌≤◌, true, length};
ghost use Rattle.algebra.specs.Decided.{Tells};
ghost use Rattle.algebra.specs.Polynomials.{Balanced, InverseMod, times};
ghost use Rattle.algebra.specs.Scheme.{candidate};
ghost use Rattle.algebra.specs.Ternary.{Ternary, Ternary+};
ghost use Rattle.arithmetic.specs.Digits.{coefficients};
ghost use Rattle.arithmetic.specs.Products.{integers_of};
ghost use Rattle.arithmetic.specs.Rows.{raised};
ghost use Rattle.scheme.specs.KeyTest.{polynomial_tests, tests};
ghost use Rattle.scheme.specs.Steps.{cost, outcome};
ghost use Rattle.scheme.specs.Sets.{known, length_of, width_of};
ghost use Rattle.scheme.specs.TernaryParts.{holds_digits};
ghost use Rattle.scheme.specs.CardPolynomials.{part_polynomials, polynomials};
ghost use Rattle.scheme.specs.Exactness.{TestedExactly, TestsTell};

use crate::card::{Parts, split_card};
use crate::coefficients::{is_one, read_reduced, read_signs};
use crate::equation::divide_by_3_phi1;
use crate::polynomial::{LONGEST, read_balanced, read_padded};
use crate::product::{Work, product, product_modulo_3, times_digits};
use crate::refusal::Refusal;
use crate::set::ParameterSet;
use crate::signs::correlates;
use crate::ternary::all_hold_digits;
use crate::ternary_polynomial::read_ternary;
use arithmetic::{Digit, RowUnit};

// Whether f fp is 1 modulo 3 and 1 + x + .. + x^(n - 1). The list of f fp is room to work in, as those of g and of h hq in the tests below.
fn is_inverse_modulo_3<U: RowUnit>(
    unit: &mut U,
    set: ParameterSet,
    f: &[Digit],
    fp: &[Digit],
    f_fp: &mut [Digit],
    work: &mut [u16],
) -> bool
    requires digits { (length f.now ≡ set.n) × (length fp.now ≡ set.n) }
    requires last { Ternary set.n (coefficients fp.now) }
    requires room { (length f_fp.old ≡ set.n) × (7040 ≤ length work.old) }
    ensures answer { Tells result (InverseMod 3 set.n (coefficients f.now) (coefficients fp.now)) }
    ensures count { U.rows unit.new ≡ raised set.n (U.rows unit.old) }
{
    product_modulo_3(unit, set, f, fp, work, f_fp);
    is_one(f_fp)
}

// Whether some g in T+ has h f = 3 (x - 1) g modulo 2^width: the only candidate is in T+.
fn has_key_equation<U: RowUnit>(
    unit: &mut U,
    set: ParameterSet,
    h: &[u16],
    f: &[Digit],
    g: &mut [Digit],
    work: &mut [u16],
) -> bool
    requires polynomials { (length h.now ≡ set.n) × (length f.now ≡ set.n) }
    requires balanced { Balanced (2 ^ set.width) set.n (integers_of h.now) }
    requires room { (length g.old ≡ set.n) × (5632 ≤ length work.old) }
    ensures answer { Tells result (Ternary+ set.n (candidate (2 ^ set.width) 43691 (times set.n (integers_of h.now) (coefficients f.now)))) }
    ensures count { U.rows unit.new ≡ raised set.n (U.rows unit.old) }
{
    let (hf_room, rest) = work.split_at_mut(LONGEST);
    let hf = &mut hf_room[..set.n];
    times_digits(unit, set, h, f, rest, hf);
    divide_by_3_phi1(hf);
    read_signs(set, hf, g).is_some() && correlates(g)
}

// Whether h hq is 1 modulo 2^width and 1 + x + .. + x^(n - 1).
fn is_inverse_modulo_q<U: RowUnit>(
    unit: &mut U,
    set: ParameterSet,
    h: &[u16],
    hq: &[u16],
    digits: &mut [Digit],
    work: &mut [u16],
) -> bool
    requires words { (length h.now ≡ set.n) × (length hq.now ≡ set.n) }
    requires room { (length digits.old ≡ set.n) × (5632 ≤ length work.old) }
    ensures answer { Tells result (InverseMod (2 ^ set.width) set.n (integers_of h.now) (integers_of hq.now)) }
    ensures count { U.rows unit.new ≡ raised set.n (U.rows unit.old) }
{
    let (product_room, rest) = work.split_at_mut(2 * LONGEST);
    let h_hq = &mut product_room[..set.n];
    product(unit, set, h, hq, rest, h_hq);
    read_reduced(set, h_hq, digits).is_some() && is_one(digits)
}

// Tests the polynomials of the parts of a card.
fn test_parts<U: RowUnit>(unit: &mut U, set: ParameterSet, parts: Parts<'_>) -> Result<(), Refusal>
    requires ternary { (length parts.f.bytes.now ≡ set.ternary) × (length parts.fp.bytes.now ≡ set.ternary) }
    requires held { (holds_digits parts.f.bytes.now ≡ true) × (holds_digits parts.fp.bytes.now ≡ true) }
    requires words { (length parts.h.bytes.now ≡ set.word) × (length parts.hq.bytes.now ≡ set.word) }
    ensures answer { result ≡ outcome (polynomial_tests set.n set.width (part_polynomials set.n set.width parts.entry.f.bytes.now parts.entry.fp.bytes.now parts.entry.h.bytes.now parts.entry.hq.bytes.now)) }
    ensures count { U.rows unit.new ≡ raised (cost (polynomial_tests set.n set.width (part_polynomials set.n set.width parts.entry.f.bytes.now parts.entry.fp.bytes.now parts.entry.h.bytes.now parts.entry.hq.bytes.now))) (U.rows unit.old) }
{
    let n = set.n;
    let mut f_room = [Digit::ZERO; LONGEST];
    let mut fp_room = [Digit::ZERO; LONGEST];
    let mut digits_room = [Digit::ZERO; LONGEST];
    let mut h_room = [0u16; LONGEST];
    let mut work = Work::new();
    let f = &mut f_room[..n];
    let fp = &mut fp_room[..n];
    let digits = &mut digits_room[..n];
    let h = &mut h_room[..n];
    let width = set.bits();
    // Each part is read where it is first needed, so that a card that is refused early costs little.
    read_ternary(parts.f.bytes, f);
    if !correlates(f) {
        return Err(Refusal::NegativeCorrelation);
    }
    read_ternary(parts.fp.bytes, fp);
    if !is_inverse_modulo_3(unit, set, f, fp, digits, &mut work.words) {
        return Err(Refusal::FpNotInverse);
    }
    read_balanced(width, parts.h.bytes, h);
    if !has_key_equation(unit, set, h, f, digits, &mut work.words) {
        return Err(Refusal::NoKeyEquation);
    }
    let (hq_room, rest) = work.words.split_at_mut(LONGEST);
    let hq = &mut hq_room[..n];
    read_padded(width, parts.hq.bytes, hq);
    if !is_inverse_modulo_q(unit, set, h, hq, digits, rest) {
        return Err(Refusal::HqNotInverse);
    }
    Ok(())
}

// Tests whether a card is a key of a set. What `test_key` promises of keys follows from this contract.
fn test_card<U: RowUnit>(set: u8, card: &[u8], unit: &mut U) -> Result<(), Refusal>
    ensures answer { result ≡ outcome (tests set card.now) }
    ensures count { U.rows unit.new ≡ raised (cost (tests set card.now)) (U.rows unit.old) }
{
    let set = ParameterSet::try_from(set)?;
    if card.len() != set.card {
        return Err(Refusal::InputLength);
    }
    // f and fp are as long as a pair.
    let ternary = set.pair;
    if !all_hold_digits(&card[0..ternary]) {
        return Err(Refusal::TernaryByte);
    }
    let parts = split_card(card, set)?;
    test_parts(unit, set, parts)
}

// Tests whether a card is a key.
pub fn test_key<U: RowUnit>(set: u8, card: &[u8], unit: &mut U) -> Result<(), Refusal>
    ensures answer { result ≡ outcome (tests set card.now) }
    ensures count { U.rows unit.new ≡ raised (cost (tests set card.now)) (U.rows unit.old) }
    ensures taken_exactly_when_a_key { TestedExactly set card.now result }
    ensures tests_tell { known set ≡ true → TestsTell (length_of set) (width_of set) (polynomials (length_of set) (width_of set) card.now) }
{
    test_card(set, card, unit)
}
