// A case: a call with what it is given, a set, and how long the output is.
//
//     make SET COINS [LENGTH]      seal SET CARD COINS [LENGTH]      open SET CARD RECORD [LENGTH]      test SET CARD
//
// The output has the length of the set where none is given.
use crate::fault::Fault;
use crate::hex;
use scheme::ParameterSet;
use std::alloc::Global;

#[derive(Drop, Clone)]
pub(crate) enum Call {
    Make { coins: Vec<u8> },
    Seal { card: Vec<u8>, coins: Vec<u8> },
    Open { card: Vec<u8>, record: Vec<u8> },
    Test { card: Vec<u8> },
}

#[derive(Drop)]
pub(crate) struct Case {
    pub(crate) call: Call,
    pub(crate) set: u8,
    // The length of the output.
    pub(crate) length: usize,
}

impl Call {
    // The length of the output that the set asks for, a size of its own for each call. Where there is no such set it is 0, which no call looks at.
    fn length(&self, set: u8) -> usize {
        ParameterSet::try_from(set).map_or(0, |set| match self {
            Call::Make { .. } => set.card,
            Call::Seal { .. } => set.word,
            Call::Open { .. } => set.pair,
            Call::Test { .. } => 0,
        })
    }
}

impl Case {
    pub(crate) fn read(heap: Global, line: &str) -> Result<Case, Fault> {
        let mut words = line.split_whitespace();
        let name = words.next().ok_or(Fault::Line)?;
        let set = words.next().ok_or(Fault::Line)?;
        let set = set.parse::<u8>().map_err(|_| Fault::Line)?;
        // Nothing is read for a name that is no call.
        let call = match name {
            "make" => Call::Make {
                coins: bytes(heap, words.next())?,
            },
            "seal" => Call::Seal {
                card: bytes(heap, words.next())?,
                coins: bytes(heap, words.next())?,
            },
            "open" => Call::Open {
                card: bytes(heap, words.next())?,
                record: bytes(heap, words.next())?,
            },
            "test" => Call::Test {
                card: bytes(heap, words.next())?,
            },
            _ => return Err(Fault::Line),
        };
        let length = match words.next() {
            Some(length) => usize::from(length.parse::<u16>().map_err(|_| Fault::Line)?),
            None => call.length(set),
        };
        Ok(Case { call, set, length })
    }
}

fn bytes(heap: Global, word: Option<&str>) -> Result<Vec<u8>, Fault> {
    hex::read(heap, word.ok_or(Fault::Line)?)
}
