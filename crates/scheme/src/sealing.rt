// Seal: c = r h + Lift(m) modulo 2^w.
ghost use Rattle.std.specs.Prelude.{◌≡◌, ◌≤◌, length};
ghost use Rattle.algebra.specs.Polynomials.{SameMod};
ghost use Rattle.arithmetic.specs.Digits.{coefficients};
ghost use Rattle.arithmetic.specs.Products.{integers_of};
ghost use Rattle.arithmetic.specs.Rows.{raised};
ghost use Rattle.scheme.specs.CardPolynomials.{polynomials};
ghost use Rattle.scheme.specs.Refusals.{left};
ghost use Rattle.scheme.specs.Steps.{cost, outcome};
ghost use Rattle.scheme.specs.Sealing.{encrypted, sealed_record, seals};
ghost use Rattle.scheme.specs.Sets.{length_of, width_of};
ghost use Rattle.scheme.specs.WordPolynomials.{balanced_polynomial};

use crate::card::split_card;
use crate::draws::{Coins, draw_both};
use crate::lifting::lift;
use crate::polynomial::{LONGEST, read_balanced, write_all_but_last};
use crate::product::{Work, digits_times};
use crate::refusal::Refusal;
use crate::set::ParameterSet;
use crate::sums::add_words;
use arithmetic::{Digit, RowUnit};

// Writes r h + Lift(m) to c, modulo 65536.
fn encrypt<U: RowUnit>(
    unit: &mut U,
    set: ParameterSet,
    r: &[Digit],
    m: &[Digit],
    h: &[u16],
    work: &mut [u16],
    c: &mut [u16],
)
    requires digits { (length r.now ≡ set.n) × (length m.now ≡ set.n) }
    requires words { (length h.now ≡ set.n) × (length c.old ≡ set.n) }
    requires room { 5632 ≤ length work.old }
    ensures ciphertext { SameMod 65536 set.n (integers_of c.new) (encrypted set.n (integers_of h.now) (coefficients r.now) (coefficients m.now)) }
    ensures count { U.rows unit.new ≡ raised set.n (U.rows unit.old) }
{
    let mut s_room = [Digit::ZERO; LONGEST];
    digits_times(unit, set, r, h, work, c);
    let (lift_room, rest) = work.split_at_mut(LONGEST);
    let lifted = &mut rest[..set.n];
    lift(set, m, &mut s_room[..set.n], lift_room, lifted);
    add_words(c, lifted);
}

// Seals what the coins draw to the public key that stands in the bytes h of a card.
fn seal_pair<U: RowUnit>(unit: &mut U, h: &[u8], coins: Coins<'_>, out: &mut [u8])
    requires records { (length h.now ≡ coins.set.word) × (length out.old ≡ coins.set.word) }
    ensures output { out.new ≡ sealed_record coins.entry.set.n coins.entry.set.width (balanced_polynomial coins.entry.set.n coins.entry.set.width h.now) coins.entry.bytes.now }
    ensures count { U.rows unit.new ≡ raised coins.entry.set.n (U.rows unit.old) }
{
    let set = coins.set;
    let n = set.n;
    let mut r_room = [Digit::ZERO; LONGEST];
    let mut m_room = [Digit::ZERO; LONGEST];
    let mut key_room = [0u16; LONGEST];
    let mut work = Work::new();
    let r = &mut r_room[..n];
    let m = &mut m_room[..n];
    let key = &mut key_room[..n];
    let (c_room, rest) = work.words.split_at_mut(LONGEST);
    let c = &mut c_room[..n];
    let width = set.bits();
    draw_both(coins, r, m);
    read_balanced(width, h, key);
    encrypt(unit, set, r, m, key, rest, c);
    write_all_but_last(width, c, out);
}

// Seals what the coins, which are only read, draw to the public key of a card.
pub(crate) fn seal_drawn<U: RowUnit>(
    set: u8,
    card: &[u8],
    coins: &[u8],
    out: &mut [u8],
    unit: &mut U,
) -> Result<(), Refusal>
    ensures answer { result ≡ outcome (seals set card.now coins.now out.old) }
    ensures output { out.new ≡ left result (sealed_record (length_of set) (width_of set) (polynomials (length_of set) (width_of set) card.now).h coins.now) out.old }
    ensures count { U.rows unit.new ≡ raised (cost (seals set card.now coins.now out.old)) (U.rows unit.old) }
{
    let set = ParameterSet::try_from(set)?;
    let parts = split_card(card, set)?;
    let coins = Coins::new(set, coins)?;
    if out.len() != set.word {
        return Err(Refusal::OutputLength);
    }
    seal_pair(unit, parts.h.bytes, coins, out);
    Ok(())
}
