// What is made of a file of coins: keycards pair, make and seal.
use crate::files::{AtStake, CoinFile, Output};
use crate::trouble::Trouble;
use arithmetic::WordByWord;
use scheme::{Job, ParameterSet};

// A call that spends coins: the number of its set, the coin file and the file that is made.
#[derive(Clone, Copy)]
pub(crate) struct Spending<'a> {
    number: u8,
    coins: &'a str,
    out: &'a str,
}

impl<'a> Spending<'a> {
    pub(crate) fn new(number: u8, coins: &'a str, out: &'a str) -> Spending<'a> {
        Spending { number, coins, out }
    }

    // Makes a pair record.
    pub(crate) fn pair(self, rt: &HostRuntime) -> Result<(), Trouble> {
        self.run(
            rt,
            "the pair record (r, then m)",
            size(self.number, |set| set.pair),
            |coins, out| Ok(Job::begin(coins).write_pair(self.number, out)?),
        )
    }

    // Makes a card.
    pub(crate) fn make(self, rt: &HostRuntime) -> Result<(), Trouble> {
        let mut unit = WordByWord::new();
        self.run(
            rt,
            "the card",
            size(self.number, |set| set.card),
            |coins, out| Ok(Job::begin(coins).make(self.number, out, &mut unit)?),
        )
    }

    // Makes a record that is sealed to the public key of a card.
    pub(crate) fn seal(self, rt: &HostRuntime, card: &[u8]) -> Result<(), Trouble> {
        let mut unit = WordByWord::new();
        self.run(
            rt,
            "the sealed record",
            size(self.number, |set| set.word),
            |coins, out| {
                Job::begin(coins)
                    .seal(self.number, card, out, &mut unit)
                    .map_err(Trouble::with_card)
            },
        )
    }

    fn run<J>(self, rt: &HostRuntime, name: &str, size: usize, job: J) -> Result<(), Trouble>
    where
        J: FnOnce(&mut [u8], &mut [u8]) -> Result<(), Trouble> + Drop,
        requires { J.IsAlwaysCallable job }
    {
        let Spending { number, coins, out } = self;
        let mut source = CoinFile::open(rt, coins)?;
        let output = Output::reserve(rt, out, AtStake::Coins)?;
        let size = output.settle(spend(rt, &mut source, size, job))?;
        println!(rt; "{out}: {size} bytes, {name} of set {number}.")?;
        println!(rt; "{coins}: its coins are used and are zeros now.")?;
        Ok(())
    }
}

// The bytes of what is made. Where there is no such set they are none: the job says so before it looks at them.
fn size<F: FnOnce(ParameterSet) -> usize>(number: u8, of: F) -> usize
    requires { F.IsAlwaysCallable of }
{
    ParameterSet::try_from(number).map_or(0, of)
}

// Spends the coins; they are zeros in memory and in the file then, also where they were refused.
fn spend<J>(
    rt: &HostRuntime,
    source: &mut CoinFile,
    size: usize,
    job: J,
) -> Result<Vec<u8>, Trouble>
where
    J: FnOnce(&mut [u8], &mut [u8]) -> Result<(), Trouble> + Drop,
    requires { J.IsAlwaysCallable job }
{
    // Before the coins are read, so that want of memory costs none.
    let mut made = vec![in rt.alloc(); 0u8; size]?;
    let mut coins = source.read()?;
    let answer = job(coins.as_mut_slice(), made.as_mut_slice());
    source.overwrite(coins.as_slice())?;
    answer?;
    Ok(made)
}
