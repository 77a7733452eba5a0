// Make: a card from coins. f, g, fp, h and hq stand singly, as the definitions name them, and go together to no more than one place.
ghost use Rattle.std.specs.Prelude.{◌≡◌, ◌*◌, ◌^◌, ◌≤◌, ◌++◌, length, pos, MatchResult};
ghost use Rattle.algebra.specs.Polynomials.{InverseMod, NoInverseMod, SameMod, scale};
ghost use Rattle.algebra.specs.Radix.{Under};
ghost use Rattle.algebra.specs.Ternary.{Ternary};
ghost use Rattle.arithmetic.specs.Digits.{coefficients};
ghost use Rattle.arithmetic.specs.Products.{integers_of};
ghost use Rattle.scheme.specs.declared.refusal.Refusal.TheVariants.{NotInvertible};
ghost use Rattle.scheme.specs.Making.{CardOf, MakeAnswer, MakeOutput, NoCard, Published, card_record};
ghost use Rattle.scheme.specs.WordPolynomials.{word_record};

use crate::coefficients::signed_words;
use crate::draws::{Coins, draw_settled};
use crate::polynomial::{LONGEST, write_all_but_last};
use crate::product::{Work, digits_times, phi1_times};
use crate::refusal::Refusal;
use crate::set::ParameterSet;
use crate::ternary_polynomial::write_pair;
use arithmetic::{Digit, RowUnit, inverse_mod_phi, inverse_of_words};

// Three times each word, modulo q.
fn triple(set: ParameterSet, words: &[u16], out: &mut [u16])
    requires { length out.old ≡ length words.now }
    ensures small { Under (2 ^ set.width) out.new }
    ensures tripled { SameMod (2 ^ set.width) (length words.now) (integers_of out.new) (scale (pos 3) (integers_of words.now)) }
{
    let width = set.bits();
    for (i, word) in words.iter().enumerate() {
        out[i] = width.low(word.wrapping_mul(3));
    }
}

// Writes the inverse of f modulo 3 and 1 + x + .. + x^(n - 1).
fn invert_modulo_3(f: &[Digit], fp: &mut [Digit]) -> Result<(), Refusal>
    requires sizes { (2 ≤ length f.now) × (length f.now ≤ 1408) }
    requires room { length fp.old ≡ length f.now }
    ensures { MatchResult result
        (λ _. InverseMod 3 (length f.now) (coefficients f.now) (coefficients fp.new) × Ternary (length f.now) (coefficients fp.new))
        (λ e. NoInverseMod 3 (length f.now) (coefficients f.now) × (e ≡ NotInvertible)) }
{
    let n = f.len();
    let mut r = [Digit::ZERO; LONGEST];
    let mut s = [Digit::ZERO; LONGEST];
    let mut t = [Digit::ZERO; LONGEST];
    let mut v = [Digit::ZERO; LONGEST];
    let degree = inverse_mod_phi(f, fp, &mut r[..n], &mut s[..n], &mut t[..n], &mut v[..n]);
    degree.ok_or(Refusal::NotInvertible)?;
    Ok(())
}

// Writes the inverse of f modulo 2^width and 1 + x + .. + x^(n - 1).
fn invert_modulo_q<U: RowUnit>(
    unit: &mut U,
    set: ParameterSet,
    f: &[Digit],
    fq: &mut [u16],
) -> Result<(), Refusal>
    requires { (length f.now ≡ set.n) × (length fq.old ≡ set.n) }
    ensures inverse { MatchResult result
        (λ _. InverseMod (2 ^ set.width) set.n (coefficients f.now) (integers_of fq.new))
        (λ e. NoInverseMod 2 set.n (coefficients f.now) × (e ≡ NotInvertible)) }
    ensures count { U.rows unit.old ≤ U.rows unit.new }
{
    let mut room = [0u16; LONGEST];
    let words = &mut room[..set.n];
    signed_words(f, words);
    inverse_of_words(unit, set.width, words, fq).ok_or(Refusal::NotInvertible)?;
    Ok(())
}

// Writes the public key 3 (x - 1) g fq modulo 2^width, where fq is the inverse of f.
fn make_public<U: RowUnit>(
    unit: &mut U,
    set: ParameterSet,
    f: &[Digit],
    g: &[Digit],
    h: &mut [u16],
) -> Result<(), Refusal>
    requires digits { (length f.now ≡ set.n) × (length g.now ≡ set.n) }
    requires room { length h.old ≡ set.n }
    ensures made { MatchResult result
        (λ _. Published set.n set.width (coefficients f.now) (coefficients g.now) h.new)
        (λ e. NoInverseMod 2 set.n (coefficients f.now) × (e ≡ NotInvertible)) }
    ensures count { U.rows unit.old ≤ U.rows unit.new }
{
    let n = set.n;
    let mut work = Work::new();
    let (product_room, rest) = work.words.split_at_mut(LONGEST);
    let (rest, fq_room) = rest.split_at_mut(3 * LONGEST);
    let fq = &mut fq_room[..n];
    invert_modulo_q(unit, set, f, fq)?;
    let g_fq = &mut product_room[..n];
    digits_times(unit, set, g, fq, rest, g_fq);
    let turned = &mut rest[..n];
    phi1_times(set, g_fq, turned);
    triple(set, turned, h);
    Ok(())
}

// Writes the parts h and hq.
fn write_words(set: ParameterSet, h: &[u16], hq: &[u16], out: &mut [u8])
    requires words { (length h.now ≡ set.n) × (length hq.now ≡ set.n) }
    requires room { length out.old ≡ 2 * set.word }
    ensures { out.new ≡ word_record set.n set.width (integers_of h.now) ++ word_record set.n set.width (integers_of hq.now) }
{
    let width = set.bits();
    let (first, second) = out.split_at_mut(set.word);
    write_all_but_last(width, h, first);
    write_all_but_last(width, hq, second);
}

// Writes a card.
fn write_card(set: ParameterSet, f: &[Digit], fp: &[Digit], h: &[u16], hq: &[u16], out: &mut [u8])
    requires digits { (length f.now ≡ set.n) × (length fp.now ≡ set.n) }
    requires words { (length h.now ≡ set.n) × (length hq.now ≡ set.n) }
    requires room { length out.old ≡ set.card }
    ensures { out.new ≡ card_record set.n set.width (coefficients f.now) (coefficients fp.now) (integers_of h.now) (integers_of hq.now) }
{
    let (pair, words) = out.split_at_mut(set.pair);
    write_pair(set, f, fp, pair);
    write_words(set, h, hq, words);
}

// Makes the card of coins. Where there is none, `out` stays as it was.
fn make_card<U: RowUnit>(unit: &mut U, coins: Coins<'_>, out: &mut [u8]) -> Result<(), Refusal>
    requires { length out.old ≡ coins.set.card }
    ensures made { MatchResult result
        (λ _. CardOf coins.entry.set.n coins.entry.set.width coins.entry.bytes.now out.new)
        (λ e. NoCard coins.entry.set.n coins.entry.set.width coins.entry.bytes.now × ((out.new ≡ out.old) × (e ≡ NotInvertible))) }
    ensures count { U.rows unit.old ≤ U.rows unit.new }
{
    let set = coins.set;
    let n = set.n;
    let mut f_room = [Digit::ZERO; LONGEST];
    let mut g_room = [Digit::ZERO; LONGEST];
    let mut fp_room = [Digit::ZERO; LONGEST];
    let mut h_room = [0u16; LONGEST];
    let mut hq_room = [0u16; LONGEST];
    let f = &mut f_room[..n];
    let g = &mut g_room[..n];
    let fp = &mut fp_room[..n];
    let h = &mut h_room[..n];
    let hq = &mut hq_room[..n];
    draw_settled(coins, f, g);
    invert_modulo_3(f, fp)?;
    make_public(unit, set, f, g, h)?;
    // One line, as for f in `invert_modulo_q`: a function for it would be no shorter.
    inverse_of_words(unit, set.width, h, hq).ok_or(Refusal::NotInvertible)?;
    write_card(set, f, fp, h, hq, out);
    Ok(())
}

// Makes the card of coins, which are only read.
pub(crate) fn make_drawn<U: RowUnit>(
    set: u8,
    coins: &[u8],
    out: &mut [u8],
    unit: &mut U,
) -> Result<(), Refusal>
    ensures answer { MakeAnswer set coins.now out.old result }
    ensures output { MakeOutput set coins.now result out.old out.new }
    ensures count { U.rows unit.old ≤ U.rows unit.new }
{
    let set = ParameterSet::try_from(set)?;
    let coins = Coins::new(set, coins)?;
    if out.len() != set.card {
        return Err(Refusal::OutputLength);
    }
    make_card(unit, coins, out)
}
