// The reader over a card: f, fp, h and hq, one after the other.
ghost use Rattle.std.specs.Prelude.{◌≡◌, ℕ, ◌+◌, ◌<◌, ◌≤◌, length, MatchOption, MatchResult, ◌≢◌};
ghost use Rattle.scheme.specs.declared.refusal.Refusal.TheVariants.{InputLength};
ghost use Rattle.scheme.specs.Cards.{Split, Stretch};

use crate::refusal::Refusal;
use crate::set::ParameterSet;

// A stretch of a card, with its place in the card, counted from 0.
#[derive(Clone, Copy)]
pub struct Part<'a> {
    pub bytes: &'a [u8],
    pub place: usize,
}

// Reads the parts of a card in their order.
#[derive(Drop)]
pub struct CardReader<'a> {
    card: &'a [u8],
    at: usize,
    ghost within: { at ≤ length card.now },
}

impl<'a> CardReader<'a> {
    pub fn new(card: &'a [u8]) -> Self
        ensures at_the_start { result.at ≡ 0 }
        ensures whole_card { result.card.now ≡ card.now }
    {
        CardReader { card, at: 0 }
    }

    // The next `len` bytes; nothing, and no step on, where fewer remain.
    pub fn part(&mut self, len: usize) -> Option<Part<'a>>
        ensures same_card { self.new.card.now ≡ self.old.card.now }
        ensures next_stretch { MatchOption result
            ((length self.old.card.now < self.old.at + len) × (self.new.at ≡ self.old.at))
            (λ p. Stretch self.old.card.now self.old.at len p × (self.new.at ≡ self.old.at + len)) }
    {
        let place = self.at;
        if len > self.card.len() - place {
            return None;
        }
        let bytes = &self.card[place..place + len];
        self.at = place + len;
        Some(Part { bytes, place })
    }
}

// The four parts of a card.
#[derive(Clone, Copy)]
pub struct Parts<'a> {
    pub f: Part<'a>,
    pub fp: Part<'a>,
    pub h: Part<'a>,
    pub hq: Part<'a>,
}

// The parts of a card of a set.
pub fn split_card<'a>(card: &'a [u8], set: ParameterSet) -> Result<Parts<'a>, Refusal>
    ensures parts_or_refusal { MatchResult result
        (λ p. (length card.now ≡ set.card) × Split card.now set.ternary set.word p)
        (λ e. (length card.now ≢ set.card) × (e ≡ InputLength)) }
{
    if card.len() != set.card {
        return Err(Refusal::InputLength);
    }
    let mut reader = CardReader::new(card);
    let f = reader.part(set.ternary).ok_or(Refusal::InputLength)?;
    let fp = reader.part(set.ternary).ok_or(Refusal::InputLength)?;
    let h = reader.part(set.word).ok_or(Refusal::InputLength)?;
    let hq = reader.part(set.word).ok_or(Refusal::InputLength)?;
    Ok(Parts { f, fp, h, hq })
}
