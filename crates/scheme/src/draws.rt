// What is drawn from coins: the pair r, m of a seal, and f, g of a card.
ghost use Rattle.std.specs.Prelude.{◌≡◌, ◌≢◌, ◌-◌, ◌/◌, length, take, drop, Ok, MatchResult};
ghost use Rattle.algebra.specs.Ternary.{Ternary, Ternary+};
ghost use Rattle.arithmetic.specs.Digits.{coefficients};
ghost use Rattle.scheme.specs.declared.refusal.Refusal.TheVariants.{InputLength};
ghost use Rattle.scheme.specs.Coins.{drawn, first_half, second_half};
ghost use Rattle.scheme.specs.Draws.{draws, room};
ghost use Rattle.scheme.specs.Refusals.{left, verdict};
ghost use Rattle.scheme.specs.Signs.{settled};

use crate::coins::draw;
use crate::refusal::Refusal;
use crate::set::ParameterSet;
use crate::signs::settle_signs;
use arithmetic::Digit;

// The coins of two polynomials of a set.
#[derive(Clone, Copy)]
pub(crate) struct Coins<'a> {
    pub(crate) set: ParameterSet,
    pub(crate) bytes: &'a [u8],
    ghost all: { length bytes.now ≡ set.coins },
}

impl<'a> Coins<'a> {
    pub(crate) fn new(set: ParameterSet, bytes: &'a [u8]) -> Result<Coins<'a>, Refusal>
        ensures { MatchResult result
            (λ c. (length bytes.now ≡ set.coins) × (c.set ≡ set) × (c.bytes.now ≡ bytes.now))
            (λ e. (length bytes.now ≢ set.coins) × (e ≡ InputLength)) }
    {
        if bytes.len() != set.coins {
            return Err(Refusal::InputLength);
        }
        Ok(Coins { set, bytes })
    }
}

// Draws r from the first half of the coins and m from the second. This and `draw_key` differ in one line, and a closure for it would be longer.
pub fn draw_pair(
    set: ParameterSet,
    coins: &[u8],
    r: &mut [Digit],
    m: &mut [Digit],
) -> Result<(), Refusal>
    ensures answer { result ≡ verdict (draws set.n coins.now r.old m.old) }
    ensures first { r.new ≡ left result (drawn (take ((set.n - 1) / 2) coins.now)) r.old }
    ensures second { m.new ≡ left result (drawn (drop ((set.n - 1) / 2) coins.now)) m.old }
    ensures both_ternary { result ≡ Ok tt → Ternary set.n (coefficients r.new) × Ternary set.n (coefficients m.new) }
{
    let coins = Coins::new(set, coins)?;
    check_room(set, r, m)?;
    draw_both(coins, r, m);
    Ok(())
}

// Draws f and g likewise, and flips the even-numbered signs of each whose correlation is negative.
pub fn draw_key(
    set: ParameterSet,
    coins: &[u8],
    f: &mut [Digit],
    g: &mut [Digit],
) -> Result<(), Refusal>
    ensures answer { result ≡ verdict (draws set.n coins.now f.old g.old) }
    ensures first { f.new ≡ left result (settled (drawn (take ((set.n - 1) / 2) coins.now))) f.old }
    ensures second { g.new ≡ left result (settled (drawn (drop ((set.n - 1) / 2) coins.now))) g.old }
    ensures both_correlate { result ≡ Ok tt → Ternary+ set.n (coefficients f.new) × Ternary+ set.n (coefficients g.new) }
{
    let coins = Coins::new(set, coins)?;
    check_room(set, f, g)?;
    draw_settled(coins, f, g);
    Ok(())
}

fn check_room(set: ParameterSet, first: &[Digit], second: &[Digit]) -> Result<(), Refusal>
    ensures { result ≡ verdict (room set.n first.now second.now) }
{
    if first.len() != set.n || second.len() != set.n {
        return Err(Refusal::OutputLength);
    }
    Ok(())
}

// Draws one polynomial from the first half of the coins and one from the second. The room is the caller's slices, which a type of ours would only wrap.
pub(crate) fn draw_both(coins: Coins<'_>, first: &mut [Digit], second: &mut [Digit])
    requires room { (length first.old ≡ coins.set.n) × (length second.old ≡ coins.set.n) }
    ensures first { first.new ≡ drawn (first_half coins.entry.set.n coins.entry.bytes.now) }
    ensures second { second.new ≡ drawn (second_half coins.entry.set.n coins.entry.bytes.now) }
{
    let (first_coins, second_coins) = coins.bytes.split_at(coins.set.coins / 2);
    draw(first_coins, first);
    draw(second_coins, second);
}

// Draws likewise, and flips the even-numbered signs of each whose correlation is negative.
pub(crate) fn draw_settled(coins: Coins<'_>, first: &mut [Digit], second: &mut [Digit])
    requires room { (length first.old ≡ coins.set.n) × (length second.old ≡ coins.set.n) }
    ensures first { first.new ≡ settled (drawn (first_half coins.entry.set.n coins.entry.bytes.now)) }
    ensures second { second.new ≡ settled (drawn (second_half coins.entry.set.n coins.entry.bytes.now)) }
{
    draw_both(coins, first, second);
    settle_signs(first);
    settle_signs(second);
}
