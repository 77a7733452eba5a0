// Open: the pair of a sealed record. Each step takes the polynomials that its definition names, and the set with the row unit.
ghost use Rattle.std.specs.Prelude.{◌≡◌, ◌*◌, ◌^◌, ◌≤◌, true, length, MatchResult};
ghost use Rattle.algebra.specs.Ring.{Agree, integers};
ghost use Rattle.algebra.specs.Scheme.{lifting, opened_a, opened_m, opened_r};
ghost use Rattle.algebra.specs.Ternary.{Ternary};
ghost use Rattle.arithmetic.specs.Digits.{coefficients};
ghost use Rattle.arithmetic.specs.Products.{integers_of};
ghost use Rattle.arithmetic.specs.Rows.{raised};
ghost use Rattle.scheme.specs.declared.refusal.Refusal.TheVariants.{NoPair};
ghost use Rattle.scheme.specs.Exactness.{IsKeyOf, OpensExactly};
ghost use Rattle.scheme.specs.Opening.{Opened, opened_record, opens};
ghost use Rattle.scheme.specs.Refusals.{left};
ghost use Rattle.scheme.specs.Steps.{cost, outcome};
ghost use Rattle.scheme.specs.Sets.{length_of, pair_bytes, record_bytes, width_of};
ghost use Rattle.scheme.specs.TernaryParts.{holds_digits};
ghost use Rattle.scheme.specs.TernaryPolynomials.{ternary_polynomial};
ghost use Rattle.scheme.specs.WordPolynomials.{balanced_polynomial, padded_polynomial};

use crate::card::{Parts, split_card};
use crate::coefficients::{centre_digits, read_reduced};
use crate::lifting::lift;
use crate::polynomial::{LONGEST, read_balanced, read_padded};
use crate::product::{Work, product, product_modulo_3, times_digits};
use crate::refusal::Refusal;
use crate::set::ParameterSet;
use crate::sums::subtract_words;
use crate::ternary::all_hold_digits;
use crate::ternary_polynomial::{read_ternary, write_pair};
use arithmetic::{Digit, RowUnit};

// m' of a sealed polynomial c: a is c f, centred modulo 2^width, and m' is a fp, reduced modulo 3 and 1 + x + .. + x^(n - 1). The lists a and
// `work` are room to work in.
fn find_m<U: RowUnit>(
    unit: &mut U,
    set: ParameterSet,
    c: &[u16],
    f: &[Digit],
    fp: &[Digit],
    a: &mut [Digit],
    work: &mut [u16],
    m: &mut [Digit],
)
    requires polynomials { (length c.now ≡ set.n) × ((length f.now ≡ set.n) × ((length fp.now ≡ set.n) × (length m.old ≡ set.n))) }
    requires last { Ternary set.n (coefficients fp.now) }
    requires room { (length a.old ≡ set.n) × (7040 ≤ length work.old) }
    ensures message { Agree integers set.n (coefficients m.new) (opened_m set.n (coefficients fp.now) (opened_a set.n (2 ^ set.width) (coefficients f.now) (integers_of c.now))) }
    ensures count { U.rows unit.new ≡ raised (2 * set.n) (U.rows unit.old) }
{
    let (cf_room, rest) = work.split_at_mut(LONGEST);
    let cf = &mut cf_room[..set.n];
    times_digits(unit, set, c, f, rest, cf);
    centre_digits(set, cf, a);
    product_modulo_3(unit, set, a, fp, work, m);
}

// r' of a sealed polynomial c and its m': b is c - Lift(m'), and r' is b hq, reduced modulo 2^width and 1 + x + .. + x^(n - 1) and
// centred, where that has digits alone. c becomes b; r is room for the digits of the lift until r' is read.
fn find_r<U: RowUnit>(
    unit: &mut U,
    set: ParameterSet,
    c: &mut [u16],
    m: &[Digit],
    hq: &[u16],
    work: &mut [u16],
    r: &mut [Digit],
) -> Result<(), Refusal>
    requires words { (length c.old ≡ set.n) × (length hq.now ≡ set.n) }
    requires digits { (length m.now ≡ set.n) × (length r.old ≡ set.n) }
    requires room { 5632 ≤ length work.old }
    ensures factor { let u = opened_r set.n (2 ^ set.width) (integers_of hq.now) (integers_of c.old) (lifting set.n (coefficients m.now)) in MatchResult result
        (λ _. Ternary set.n u × Agree integers set.n (coefficients r.new) u)
        (λ e. (Ternary set.n u → ⊥) × (e ≡ NoPair)) }
    ensures count { U.rows unit.new ≡ raised set.n (U.rows unit.old) }
{
    let (room, rest) = work.split_at_mut(LONGEST);
    let (lift_room, rest) = rest.split_at_mut(LONGEST);
    // Lift(m') first, and then the product in its place.
    let found = &mut room[..set.n];
    lift(set, m, r, lift_room, found);
    subtract_words(c, found);
    product(unit, set, c, hq, rest, found);
    read_reduced(set, found, r).ok_or(Refusal::NoPair)
}

// Opens a sealed record under the parts of a card. Where there is no pair, `pair` stays as it was.
fn open_parts<U: RowUnit>(
    unit: &mut U,
    set: ParameterSet,
    parts: Parts<'_>,
    sealed: &[u8],
    pair: &mut [u8],
) -> Result<(), Refusal>
    requires ternary { (length parts.f.bytes.now ≡ set.ternary) × (length parts.fp.bytes.now ≡ set.ternary) }
    requires held { (holds_digits parts.f.bytes.now ≡ true) × (holds_digits parts.fp.bytes.now ≡ true) }
    requires words { length parts.hq.bytes.now ≡ set.word }
    requires records { (length sealed.now ≡ set.word) × (length pair.old ≡ set.pair) }
    ensures opened { Opened set.n set.width (ternary_polynomial set.n parts.entry.f.bytes.now) (ternary_polynomial set.n parts.entry.fp.bytes.now) (padded_polynomial set.n set.width parts.entry.hq.bytes.now) (balanced_polynomial set.n set.width sealed.now) result pair.old pair.new }
    ensures count { U.rows unit.new ≡ raised (3 * set.n) (U.rows unit.old) }
{
    let n = set.n;
    let mut f_room = [Digit::ZERO; LONGEST];
    let mut fp_room = [Digit::ZERO; LONGEST];
    let mut m_room = [Digit::ZERO; LONGEST];
    let mut r_room = [Digit::ZERO; LONGEST];
    let mut c_room = [0u16; LONGEST];
    let mut work = Work::new();
    let f = &mut f_room[..n];
    let fp = &mut fp_room[..n];
    let m = &mut m_room[..n];
    let r = &mut r_room[..n];
    let c = &mut c_room[..n];
    let width = set.bits();
    read_ternary(parts.f.bytes, f);
    read_ternary(parts.fp.bytes, fp);
    read_balanced(width, sealed, c);
    // The list of r' is room for a until then, and the room for products has one for hq.
    find_m(unit, set, c, f, fp, r, &mut work.words, m);
    let (hq_room, rest) = work.words.split_at_mut(LONGEST);
    let hq = &mut hq_room[..n];
    read_padded(width, parts.hq.bytes, hq);
    find_r(unit, set, c, m, hq, rest, r)?;
    write_pair(set, r, m, pair);
    Ok(())
}

// Opens a sealed record under a card. What `open_record` promises of keys follows from this contract.
fn open_card<U: RowUnit>(
    set: u8,
    card: &[u8],
    sealed: &[u8],
    pair: &mut [u8],
    unit: &mut U,
) -> Result<(), Refusal>
    ensures answer { result ≡ outcome (opens set card.now sealed.now pair.old) }
    ensures output { pair.new ≡ left result (opened_record (length_of set) (width_of set) card.now sealed.now) pair.old }
    ensures count { U.rows unit.new ≡ raised (cost (opens set card.now sealed.now pair.old)) (U.rows unit.old) }
{
    let set = ParameterSet::try_from(set)?;
    if card.len() != set.card || sealed.len() != set.word {
        return Err(Refusal::InputLength);
    }
    if pair.len() != set.pair {
        return Err(Refusal::OutputLength);
    }
    // f and fp are as long as a pair.
    let ternary = set.pair;
    if !all_hold_digits(&card[0..ternary]) {
        return Err(Refusal::TernaryByte);
    }
    let parts = split_card(card, set)?;
    open_parts(unit, set, parts, sealed, pair)
}

// Opens a sealed record under a card: writes the pair that encrypts to it. Under a key, `NoPair` says that no pair does.
pub fn open_record<U: RowUnit>(
    set: u8,
    card: &[u8],
    sealed: &[u8],
    pair: &mut [u8],
    unit: &mut U,
) -> Result<(), Refusal>
    ensures answer { result ≡ outcome (opens set card.now sealed.now pair.old) }
    ensures output { pair.new ≡ left result (opened_record (length_of set) (width_of set) card.now sealed.now) pair.old }
    ensures count { U.rows unit.new ≡ raised (cost (opens set card.now sealed.now pair.old)) (U.rows unit.old) }
    ensures no_pair_exactly_when_none_encrypts { IsKeyOf set card.now → length sealed.now ≡ record_bytes (length_of set) (width_of set) → length pair.old ≡ pair_bytes (length_of set) → OpensExactly set card.now sealed.now result pair.new }
{
    open_card(set, card, sealed, pair, unit)
}
