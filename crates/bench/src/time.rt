// The calls at set 3, each once or the best of some turns in nanoseconds. What three of them take stands in their lists of parameters: a struct
// for it would be opened again in each.
use crate::fault::Fault;
use arithmetic::WordByWord;
use scheme::{Job, open_record, test_key};
use std::time::Duration;
use trials::{Random, best_of, fill, generator};

const SET: u8 = 3;

// How often a call is tried, and what is said of it: a number and a sentence, for which closures would be no plainer.
#[derive(Clone, Copy)]
pub(crate) enum Trial {
    // One turn, in which the shorter calls are tried more often: that each was served.
    Once,
    // So many such turns: the best time of a call.
    Timed(u32),
}

impl Trial {
    fn turns(self, times: u32) -> u32 {
        match self {
            Trial::Once => times,
            Trial::Timed(turns) => turns.saturating_mul(times),
        }
    }

    fn tell(self, rt: &HostRuntime, name: &str, best: Duration) -> Result<(), Fault> {
        match self {
            Trial::Once => println!(rt; "{name} served")?,
            Trial::Timed(_) => println!(rt; "{name} {}", best.as_nanos())?,
        }
        Ok(())
    }
}

pub(crate) fn run(rt: &HostRuntime, trial: Trial) -> Result<(), Fault> {
    let mut random = generator();
    let mut card = [0u8; 2556];
    let mut sealed = [0u8; 1138];
    let best = make(rt, trial.turns(1), &mut random, &mut card)?;
    trial.tell(rt, "make", best)?;
    let best = test(rt, trial.turns(6), &card)?;
    trial.tell(rt, "key-test", best)?;
    let best = seal(rt, trial.turns(18), &mut random, &card, &mut sealed)?;
    trial.tell(rt, "seal", best)?;
    let best = open(rt, trial.turns(6), &card, &sealed)?;
    trial.tell(rt, "open", best)
}

fn make(
    rt: &HostRuntime,
    turns: u32,
    random: &mut Random,
    card: &mut [u8],
) -> Result<Duration, Fault> {
    let mut unit = WordByWord::new();
    best_of(
        rt,
        turns,
        || draw(random),
        |mut coins| Ok(Job::begin(&mut coins).make(SET, card, &mut unit)?),
    )
}

fn test(rt: &HostRuntime, turns: u32, card: &[u8]) -> Result<Duration, Fault> {
    let mut unit = WordByWord::new();
    best_of(rt, turns, || (), |()| Ok(test_key(SET, card, &mut unit)?))
}

fn seal(
    rt: &HostRuntime,
    turns: u32,
    random: &mut Random,
    card: &[u8],
    sealed: &mut [u8],
) -> Result<Duration, Fault> {
    let mut unit = WordByWord::new();
    best_of(
        rt,
        turns,
        || draw(random),
        |mut coins| Ok(Job::begin(&mut coins).seal(SET, card, sealed, &mut unit)?),
    )
}

fn open(rt: &HostRuntime, turns: u32, card: &[u8], sealed: &[u8]) -> Result<Duration, Fault> {
    let mut unit = WordByWord::new();
    let mut pair = [0u8; 280];
    best_of(
        rt,
        turns,
        || (),
        |()| Ok(open_record(SET, card, sealed, &mut pair, &mut unit)?),
    )
}

// Not inlined: the lists of a call that coins are drawn beside can come to lie 4096 bytes apart, and a processor takes one for the other.
#[inline(never)]
fn draw(random: &mut Random) -> [u8; 700] {
    let mut coins = [0u8; 700];
    fill(random, &mut coins, |x| (x & 0xff) as u8);
    coins
}
