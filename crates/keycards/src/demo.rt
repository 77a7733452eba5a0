// keycards demo: a pair from coins, step by step.
use crate::trouble::Trouble;
use arithmetic::Digit;
use scheme::{Job, ParameterSet, draw_key, draw_pair, read_ternary_part};
use std::fmt;

const SET: u8 = 1;

pub(crate) fn run(rt: &HostRuntime) -> Result<(), Trouble> {
    println!(rt;
        "keycards demo, parameter set 1: polynomials of 5 coefficients, the last of them 0."
    )?;
    pair(rt)?;
    refusals(rt)?;
    signs(rt)
}

// A pair record from coins, and back.
fn pair(rt: &HostRuntime) -> Result<(), Trouble> {
    let mut coins = [0x01u8, 0x04, 0x10, 0x01];
    println!(rt; "1. Four coins are drawn: {}", Spaced(&coins))?;
    let set = ParameterSet::try_from(SET)?;
    let mut r = [Digit::ZERO; 5];
    let mut m = [Digit::ZERO; 5];
    draw_pair(set, &coins, &mut r, &mut m)?;
    println!(rt;
        "   Each half byte is one coefficient: r = {}, m = {}",
        Spaced(&r),
        Spaced(&m)
    )?;
    let mut record = [0u8; 2];
    Job::begin(&mut coins).write_pair(SET, &mut record)?;
    println!(rt;
        "2. A job takes the coins and writes the pair record: {}",
        Spaced(&record)
    )?;
    println!(rt;
        "3. The coins are spent, and nobody can use them again: {}",
        Spaced(&coins)
    )?;
    let mut digits = [Digit::ZERO; 4];
    read_ternary_part(&record[0..1], &mut digits)?;
    println!(rt; "4. The record is read back: r = {}", Spaced(&digits))?;
    read_ternary_part(&record[1..2], &mut digits)?;
    println!(rt; "                            m = {}", Spaced(&digits))?;
    Ok(())
}

// What is refused, and that the coins are gone then too.
fn refusals(rt: &HostRuntime) -> Result<(), Trouble> {
    let mut record = [0u8; 2];
    let mut coins = [0x01u8, 0x04, 0x10];
    if let Err(refusal) = Job::begin(&mut coins).write_pair(SET, &mut record) {
        println!(rt; "5. A coin too few: {}", Trouble::Refused(refusal))?;
    }
    println!(rt;
        "   The record stays as it was, {}, and the coins are zeros, {}.",
        Spaced(&record),
        Spaced(&coins)
    )?;
    let mut digits = [Digit::ZERO; 4];
    if let Err(refusal) = read_ternary_part(&[0xF3], &mut digits) {
        println!(rt; "6. A damaged part: {}", Trouble::Refused(refusal))?;
    }
    Ok(())
}

// f and g of a card, whose signs are settled.
fn signs(rt: &HostRuntime) -> Result<(), Trouble> {
    let coins = [0x31u8, 0x00, 0x01, 0x00];
    let set = ParameterSet::try_from(SET)?;
    let mut f = [Digit::ZERO; 5];
    let mut g = [Digit::ZERO; 5];
    draw_pair(set, &coins, &mut f, &mut g)?;
    println!(rt;
        "7. For a card f and g are drawn: f = {}, g = {}",
        Spaced(&f),
        Spaced(&g)
    )?;
    draw_key(set, &coins, &mut f, &mut g)?;
    println!(rt;
        "   Where neighbours mostly differ in sign, every other sign is flipped: f = {}, g = {}",
        Spaced(&f),
        Spaced(&g)
    )?;
    Ok(())
}

// The items of a list with a space between them.
#[derive(Drop)]
struct Spaced<'a, T>(&'a [T]);

// How an item is shown, which is not as `Display` has it: a byte as two hexadecimal digits, a digit as a number.
trait Shown {
    fn show<W: fmt::Write>(&self, f: &mut fmt::Formatter<W>) -> fmt::Result;
}

impl Shown for u8 {
    fn show<W: fmt::Write>(&self, f: &mut fmt::Formatter<W>) -> fmt::Result {
        write!(f, "{self:02X}")
    }
}

impl Shown for Digit {
    fn show<W: fmt::Write>(&self, f: &mut fmt::Formatter<W>) -> fmt::Result {
        write!(f, "{}", i8::from(*self))
    }
}

impl<'a, T: Shown> fmt::Display for Spaced<'a, T> {
    fn fmt<W: fmt::Write>(&self, f: &mut fmt::Formatter<W>) -> fmt::Result {
        for (i, item) in self.0.iter().enumerate() {
            if i > 0 {
                f.write_str(" ")?;
            }
            item.show(f)?;
        }
        Ok(())
    }
}
