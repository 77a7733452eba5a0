// What is asked of a card without coins: keycards open and keycards test.
use crate::files;
use crate::files::{AtStake, Output};
use crate::trouble::Trouble;
use arithmetic::WordByWord;
use scheme::{ParameterSet, Refusal, open_record, test_key};

// A card that was read from a file, under the number of its set. The runtime is handed to each method: with it as a field, the borrow checker does
// not cover the function that calls them.
#[derive(Drop)]
pub(crate) struct Card<'a> {
    number: u8,
    path: &'a str,
    bytes: Vec<u8>,
}

impl<'a> Card<'a> {
    pub(crate) fn read(rt: &HostRuntime, number: u8, path: &'a str) -> Result<Card<'a>, Trouble> {
        let bytes = files::read_input(rt, path)?;
        Ok(Card {
            number,
            path,
            bytes,
        })
    }

    // Says whether the card is a key.
    pub(crate) fn test(&self, rt: &HostRuntime) -> Result<(), Trouble> {
        self.key_test().map_err(Trouble::with_card)?;
        let Card { path, number, .. } = self;
        Ok(println!(rt; "{path}: the card is a key of set {number}.")?)
    }

    // Opens a record, and says whether it is for the board of the card.
    pub(crate) fn open(&self, rt: &HostRuntime, record: &str, pair: &str) -> Result<(), Trouble> {
        let sealed = files::read_input(rt, record)?;
        let output = Output::reserve(rt, pair, AtStake::Nothing)?;
        let size = output.settle(self.opened(rt, sealed.as_slice()))?;
        let Card { path, number, .. } = self;
        println!(rt; "{pair}: {size} bytes, the pair record (r, then m) of set {number}.")?;
        // Only under a key does an answer say whose board it is.
        if self.is_key() {
            println!(rt; "{record}: the record is for this board.")?;
        } else {
            println!(rt;
                "{path}: the card is damaged or not a key, so this does not say whose board it is; do not screw the cover down, take another copy of the card and open again."
            )?;
        }
        Ok(())
    }

    fn opened(&self, rt: &HostRuntime, sealed: &[u8]) -> Result<Vec<u8>, Trouble> {
        // No bytes where there is no such set: opening says so before it looks at them.
        let size = ParameterSet::try_from(self.number).map_or(0, |set| set.pair);
        let mut pair = vec![in rt.alloc(); 0u8; size]?;
        let mut unit = WordByWord::new();
        let card = self.bytes.as_slice();
        match open_record(self.number, card, sealed, pair.as_mut_slice(), &mut unit) {
            Ok(()) => Ok(pair),
            Err(Refusal::NoPair) if !self.is_key() => Err(Trouble::NoPairNoKey),
            Err(refusal) => Err(Trouble::with_card(refusal)),
        }
    }

    fn is_key(&self) -> bool {
        self.key_test().is_ok()
    }

    fn key_test(&self) -> Result<(), Refusal> {
        test_key(self.number, self.bytes.as_slice(), &mut WordByWord::new())
    }
}
