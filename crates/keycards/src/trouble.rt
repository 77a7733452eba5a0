// What goes wrong, in one line each.
use crate::advice::meaning;
use scheme::Refusal;
use std::alloc::{AllocError, Global};
use std::io;
use thiserror::Error;

#[derive(Debug, Drop, Error)]
pub enum Trouble {
    // No command was given.
    #[error("keycards: what shall it do? 'keycards help' lists the commands")]
    NoCommand,
    // The scheme says no.
    #[error("refused {number}: {text}", number = .0.number(), text = meaning(*.0))]
    Refused(#[from] Refusal),
    // A card, or what it was given with, has the wrong length.
    #[error("refused 6: the card, or the coins or the record given with it, has the wrong length for this set; at sets 1, 2 and 3 cards have 8, 16 and 2556 bytes, coins 4, 6 and 700, sealed records 3, 6 and 1138: name the right set, draw new coins, or take another copy")]
    WrongLength,
    // No pair, under a card that is no key: the record may be for this board or not.
    #[error("refused 14: no pair, but the card is damaged or not a key, so this does not say whose board it is; do not screw the cover down, take another copy of the card and open again")]
    NoPairNoKey,
    // What a sentence says, as of a file or of the form of a command.
    #[error("keycards: {0}")]
    Said(String),
    // Printing or the arguments failed.
    #[error("keycards: {0}")]
    Io(#[from] io::Error),
    #[error("keycards: there is not enough memory; no output was written. Look whether the coin file is zeros before you use it again")]
    NoMemory(#[from(alloc)] AllocError),
}

impl Trouble {
    // A refusal of a call that was given a card.
    pub(crate) fn with_card(refusal: Refusal) -> Trouble {
        match refusal {
            Refusal::InputLength => Trouble::WrongLength,
            other => Trouble::Refused(other),
        }
    }

    pub(crate) fn said(heap: Global, sentence: &str) -> Trouble {
        String::from_str(heap, sentence).map_or_else(Trouble::NoMemory, Trouble::Said)
    }

    // Two sentences, here and below, of a line each: `format!` takes its text as it stands.
    pub(crate) fn unknown(heap: Global, word: &str) -> Trouble {
        format!(in heap;
            "there is no command '{word}'; 'keycards help' lists the commands"
        ).map_or_else(Trouble::NoMemory, Trouble::Said)
    }

    // A file, or another word of the command, and what is wrong with it.
    pub(crate) fn of_file(heap: Global, path: &str, what: &str) -> Trouble {
        format!(in heap; "{path}: {what}").map_or_else(Trouble::NoMemory, Trouble::Said)
    }
}
