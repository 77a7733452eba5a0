// keycards: what fitters use on coins, cards and records.
#![tactic(auto)]

use std::env;
use std::process::ExitCode;

mod advice;
mod board;
mod demo;
mod files;
mod spend;
mod trouble;

use board::Card;
use spend::Spending;
use trouble::Trouble;

const HELP: &str = "keycards: link keys for heat pump controllers

  keycards demo                           a small task from beginning to end, at set 1
  keycards make SET COINS CARD            make the key card of a board from the coin file COINS, and write it to CARD
  keycards test SET CARD                  say whether CARD is a key
  keycards seal SET CARD COINS RECORD     draw a pair from COINS, seal it to the public key of CARD, and write the sealed record to RECORD
  keycards open SET CARD RECORD PAIR      find the pair of the sealed record RECORD, and write the pair record to PAIR
  keycards pair SET COINS PAIR            draw a pair from COINS, and write its record to PAIR, sealed to nobody
  keycards help                           this text

SET is 1, 2 or 3. Files are raw bytes, of these sizes:

          coins   card   sealed record   pair record
  set 1       4      8               3             2
  set 2       6     16               6             4
  set 3     700   2556            1138           280

Coins serve once: as soon as they are read, the file COINS is overwritten with zeros, also where the call is refused. So look twice
that it is the coin file which you name there. Nothing is read of it where SET is no number, where CARD cannot be read, or where the
output cannot be made.
A file that is there already is never replaced: give the output a new name. Of CARD and RECORD as inputs nothing is changed.
A refusal is one line, 'refused NUMBER: what it means and what to do'; there is no output then, and the status is 1.
Under a card that is a key, a record that opens is for this board. One that is refused 14 is not: carry it to the next door.";

fn run(rt: &HostRuntime) -> Result<(), Trouble> {
    let heap = rt.alloc();
    let words: Vec<String> = env::args(rt)?.skip(1).collect(heap)?;
    let words: Vec<&str> = words.iter().map(|word| word.as_str()).collect(heap)?;
    match words.as_slice() {
        [] => Err(Trouble::NoCommand),
        ["help" | "--help" | "-h", ..] => Ok(rt.println(HELP)?),
        ["demo", ..] => demo::run(rt),
        ["pair", set, coins, pair] => Spending::new(set_number(rt, set)?, coins, pair).pair(rt),
        ["pair", ..] => Err(Trouble::said(
            heap,
            "pair takes three words: keycards pair SET COINS PAIR",
        )),
        ["make", set, coins, card] => Spending::new(set_number(rt, set)?, coins, card).make(rt),
        ["make", ..] => Err(Trouble::said(
            heap,
            "make takes three words: keycards make SET COINS CARD",
        )),
        ["seal", set, card, coins, record] => {
            let spending = Spending::new(set_number(rt, set)?, coins, record);
            spending.seal(rt, files::read_input(rt, card)?.as_slice())
        }
        ["seal", ..] => Err(Trouble::said(
            heap,
            "seal takes four words: keycards seal SET CARD COINS RECORD",
        )),
        ["open", set, card, record, pair] => {
            Card::read(rt, set_number(rt, set)?, card)?.open(rt, record, pair)
        }
        ["open", ..] => Err(Trouble::said(
            heap,
            "open takes four words: keycards open SET CARD RECORD PAIR",
        )),
        ["test", set, card] => Card::read(rt, set_number(rt, set)?, card)?.test(rt),
        ["test", ..] => Err(Trouble::said(heap, "test takes two words: keycards test SET CARD")),
        [other, ..] => Err(Trouble::unknown(heap, other)),
    }
}

// The number of a set. One that no byte holds is refused by the calls as 0 is: there is no such set.
fn set_number(rt: &HostRuntime, word: &str) -> Result<u8, Trouble> {
    let number = word.parse::<u32>().map_err(|_| {
        Trouble::of_file(
            rt.alloc(),
            word,
            "is not the number of a set; sets are 1, 2 and 3",
        )
    })?;
    Ok(u8::try_from(number).unwrap_or(0))
}

fn main(rt: HostRuntime) -> ExitCode {
    match run(&rt) {
        Ok(()) => ExitCode::SUCCESS,
        Err(trouble) => {
            // Where nothing can be printed either, the status tells.
            let _ = rt.eprintln(&trouble);
            ExitCode::FAILURE
        }
    }
}
