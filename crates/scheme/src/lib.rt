// The scheme: parameter sets, coins and what is drawn from them, and records.
#![tactic(auto)]

ghost use Rattle.scheme.specs.Examples.{CoinHalves, PairOfCoins, SettledSigns};
ghost use Rattle.scheme.specs.Tables.{SmallestGiven};

mod card;
mod coefficients;
mod coins;
mod draws;
mod equation;
mod job;
mod key_test;
mod lifting;
mod making;
mod opening;
mod pair;
mod polynomial;
mod product;
mod refusal;
mod sealing;
mod set;
mod signs;
mod sums;
mod ternary;
mod ternary_polynomial;
mod width;
mod words;

pub use card::{CardReader, Part, Parts, split_card};
pub use coins::coin_digits;
pub use draws::{draw_key, draw_pair};
pub use job::Job;
pub use key_test::test_key;
pub use opening::open_record;
pub use refusal::Refusal;
pub use set::ParameterSet;
pub use ternary::{read_ternary_part, write_ternary_part};
pub use words::{read_word_part, write_word_part};

// The worked values follow from the definitions that the contracts cite.
pub fn examples_hold() -> u8
    ensures coin_halves { CoinHalves }
    ensures settled_signs { SettledSigns }
    ensures pair_of_coins { PairOfCoins }
{
    0
}

// Where several refusals fit, the smallest number is given, in every table that the contracts cite.
pub fn smallest_refusals_given() -> u8
    ensures smallest_number { SmallestGiven }
{
    0
}
