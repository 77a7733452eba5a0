// Coins are handed over in a job, which zeroes them however it ends.
ghost use Rattle.std.specs.Prelude.{◌≡◌, ℕ, ◌≤◌, List, Ok};
ghost use Rattle.arithmetic.specs.Rows.{raised};
ghost use Rattle.scheme.specs.CardPolynomials.{polynomials};
ghost use Rattle.scheme.specs.Exactness.{IsKeyOf, SealedExactly};
ghost use Rattle.scheme.specs.Jobs.{cleared};
ghost use Rattle.scheme.specs.Making.{CardOf, MakeAnswer, MakeOutput};
ghost use Rattle.scheme.specs.Pairs.{HoldsPair, pair_record, pairs};
ghost use Rattle.scheme.specs.Refusals.{left, verdict};
ghost use Rattle.scheme.specs.Steps.{cost, outcome};
ghost use Rattle.scheme.specs.Sealing.{sealed_record, seals};
ghost use Rattle.scheme.specs.Sets.{length_of, width_of};

use crate::making::make_drawn;
use crate::pair::write_drawn_pair;
use crate::refusal::Refusal;
use crate::sealing::seal_drawn;
use arithmetic::RowUnit;

// Coins on their way to a call. The job holds the one reference to them, so nobody reads them before they are zero.
pub struct Job<'a> {
    coins: &'a mut [u8],
}

impl Drop for Job<'_> {
    fn drop(self)
        ensures { self.exit.0.now ≡ cleared self.entry.coins.now }
    {
        self.coins.fill(0);
        let Job { coins: _ } = self;
    }
}

// A call takes its job apart and makes it anew, since the check knows of a job that it made what its drop left, and of `self` not.
impl<'a> Job<'a> {
    // Begins a job over a coin buffer of any length.
    pub fn begin(coins: &'a mut [u8]) -> Job<'a>
        ensures same_buffer { result.coins.ghost_name ≡ coins.entry.ghost_name }
        ensures same_coins { result.coins.now ≡ coins.old }
    {
        Job { coins }
    }

    // Ends the job with nothing made of its coins.
    pub fn abandon(self)
        ensures coins_end_as_zeros { self.exit.0.now ≡ cleared self.entry.coins.now }
    {
        let Job { coins } = self;
        let _job = Job { coins };
    }

    // Writes the pair record of the coins: r, drawn from their first half, and m, from their second.
    pub fn write_pair(self, set: u8, out: &mut [u8]) -> Result<(), Refusal>
        ensures coins_end_as_zeros { self.exit.0.now ≡ cleared self.entry.coins.now }
        ensures answer { result ≡ verdict (pairs set self.entry.coins.now out.old) }
        ensures output { out.new ≡ left result (pair_record (length_of set) self.entry.coins.now) out.old }
        ensures digit_by_digit { result ≡ Ok tt → HoldsPair (length_of set) self.entry.coins.now out.new }
    {
        let Job { coins } = self;
        let job = Job { coins };
        write_drawn_pair(set, job.coins, out)
    }

    // Seals the pair of the coins to the public key of a card.
    pub fn seal<U: RowUnit>(
        self,
        set: u8,
        card: &[u8],
        out: &mut [u8],
        unit: &mut U,
    ) -> Result<(), Refusal>
        ensures coins_end_as_zeros { self.exit.0.now ≡ cleared self.entry.coins.now }
        ensures answer { result ≡ outcome (seals set card.now self.entry.coins.now out.old) }
        ensures output { out.new ≡ left result (sealed_record (length_of set) (width_of set) (polynomials (length_of set) (width_of set) card.now).h self.entry.coins.now) out.old }
        ensures count { U.rows unit.new ≡ raised (cost (seals set card.now self.entry.coins.now out.old)) (U.rows unit.old) }
        ensures sealed_records_open { result ≡ Ok tt → SealedExactly set card.now self.entry.coins.now out.new }
    {
        let Job { coins } = self;
        let job = Job { coins };
        seal_drawn(set, card, job.coins, out, unit)
    }

    // Makes a card of the coins.
    pub fn make<U: RowUnit>(self, set: u8, out: &mut [u8], unit: &mut U) -> Result<(), Refusal>
        ensures coins_end_as_zeros { self.exit.0.now ≡ cleared self.entry.coins.now }
        ensures answer { MakeAnswer set self.entry.coins.now out.old result }
        ensures output { MakeOutput set self.entry.coins.now result out.old out.new }
        ensures count { U.rows unit.old ≤ U.rows unit.new }
        ensures made_cards_are_keys { result ≡ Ok tt → IsKeyOf set out.new }
        ensures no_other_card { result ≡ Ok tt → (card : List ℕ) → CardOf (length_of set) (width_of set) self.entry.coins.now card → card ≡ out.new }
    {
        let Job { coins } = self;
        let job = Job { coins };
        make_drawn(set, job.coins, out, unit)
    }
}
