// Pair records: r and m, a ternary part each.
ghost use Rattle.std.specs.Prelude.{◌≡◌, length, Ok};
ghost use Rattle.scheme.specs.Pairs.{HoldsPair, pair_record, pairs};
ghost use Rattle.scheme.specs.Refusals.{left, verdict};
ghost use Rattle.scheme.specs.Sets.{length_of};

use crate::draws::{Coins, draw_both};
use crate::polynomial::LONGEST;
use crate::refusal::Refusal;
use crate::set::ParameterSet;
use crate::ternary_polynomial::write_pair;
use arithmetic::Digit;

// Writes the pair record of coins, which are only read.
pub(crate) fn write_drawn_pair(set: u8, coins: &[u8], out: &mut [u8]) -> Result<(), Refusal>
    ensures answer { result ≡ verdict (pairs set coins.now out.old) }
    ensures output { out.new ≡ left result (pair_record (length_of set) coins.now) out.old }
    ensures digit_by_digit { result ≡ Ok tt → HoldsPair (length_of set) coins.now out.new }
{
    let set = ParameterSet::try_from(set)?;
    let coins = Coins::new(set, coins)?;
    if out.len() != set.pair {
        return Err(Refusal::OutputLength);
    }
    write_both(coins, out);
    Ok(())
}

// Draws the pair and writes it.
fn write_both(coins: Coins<'_>, out: &mut [u8])
    requires { length out.old ≡ coins.set.pair }
    ensures { out.new ≡ pair_record coins.entry.set.n coins.entry.bytes.now }
{
    let n = coins.set.n;
    let mut r = [Digit::ZERO; LONGEST];
    let mut m = [Digit::ZERO; LONGEST];
    draw_both(coins, &mut r[0..n], &mut m[0..n]);
    write_pair(coins.set, &r[0..n], &m[0..n], out);
}
