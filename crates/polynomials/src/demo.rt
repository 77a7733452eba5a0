// The demonstration: products over two row units, and inverses that are checked by multiplying back.
use crate::fault::Fault;
use crate::{draws, work};
use arithmetic::{Bit, Digit, Halving, Ring, RowUnit, WordByWord, times_phi1};
use std::alloc::Global;
use trials::generator;

pub(crate) fn run(rt: &HostRuntime) -> Result<(), Fault> {
    small_product(rt)?;
    small_differences(rt)?;
    for n in [5usize, 7, 701] {
        products(rt, n)?;
        multiply_back(rt, n)?;
    }
    Ok(())
}

// (1 + x) times (1 - x + x^2) where x^5 counts as 1.
fn small_product(rt: &HostRuntime) -> Result<(), Fault> {
    let mut unit = WordByWord::new();
    let out = work::product(
        rt.alloc(),
        &mut unit,
        &[1, 1, 0, 0, 0],
        &[1, 65535, 1, 0, 0],
    )?;
    println!(rt; "(1 + x) (1 - x + x^2) with 5 coefficients: {out:?}")?;
    Ok(())
}

// x - 1 times 1 + x, over words and over digits.
fn small_differences(rt: &HostRuntime) -> Result<(), Fault> {
    let heap = rt.alloc();
    let mut words = [0u16; 5];
    let mut digits = [Digit::ZERO; 5];
    times_phi1(&[1u16, 1, 0, 0, 0], &mut words)?;
    times_phi1(
        &[
            Digit::ONE,
            Digit::ONE,
            Digit::ZERO,
            Digit::ZERO,
            Digit::ZERO,
        ],
        &mut digits,
    )?;
    let codes: Vec<u16> = work::converted(heap, &digits)?;
    println!(rt; "(x - 1) (1 + x): {words:?} in words, {codes:?} in digits with 2 for -1")?;
    Ok(())
}

// One product over word by word and over two halving layers.
fn products(rt: &HostRuntime, n: usize) -> Result<(), Fault> {
    let heap = rt.alloc();
    let mut random = generator();
    let u = draws::words(heap, &mut random, n)?;
    let v = draws::words(heap, &mut random, n)?;
    let mut plain = WordByWord::new();
    let mut halved = Halving::new(Halving::new(WordByWord::new()));
    let first = work::product(heap, &mut plain, u.as_slice(), v.as_slice())?;
    let second = work::product(heap, &mut halved, u.as_slice(), v.as_slice())?;
    let same = work::fingerprint(first.as_slice()) == work::fingerprint(second.as_slice());
    println!(rt;
        "n = {n}: a product took {} rows word by word and {} over two halving layers; the same words: {same}; fingerprint {}",
        plain.count(),
        halved.count(),
        work::fingerprint(first.as_slice())
    )?;
    Ok(())
}

// The first polynomial of a sequence that has inverses modulo 2 and modulo 3, as digits and as words.
fn invertible(heap: Global, n: usize) -> Result<Vec<Digit>, Fault> {
    let mut random = generator();
    for _ in 0..1000 {
        let f = draws::digits(heap, &mut random, n)?;
        let words = work::wrapped(heap, f.as_slice())?;
        let bits = work::converted::<u16, Bit>(heap, words.as_slice())?;
        if work::inverse(heap, f.as_slice())?.is_some()
            && work::inverse(heap, bits.as_slice())?.is_some()
        {
            return Ok(f);
        }
    }
    Err(Fault::NoInverse)
}

// The inverses of one polynomial, as words.
#[derive(Drop)]
struct Inverses {
    modulo_2: Vec<u16>,
    modulo_3: Vec<u16>,
    modulo_8192: Vec<u16>,
}

impl Inverses {
    fn of(heap: Global, f: &[Digit]) -> Result<Inverses, Fault> {
        let words = work::wrapped(heap, f)?;
        let bits = work::converted::<u16, Bit>(heap, words.as_slice())?;
        let modulo_2 = work::inverse(heap, bits.as_slice())?.ok_or(Fault::NoInverse)?;
        let modulo_3 = work::inverse(heap, f)?.ok_or(Fault::NoInverse)?;
        let mut unit = WordByWord::new();
        let modulo_8192 = work::word_inverse(heap, &mut unit, words.as_slice())?.ok_or(
            Fault::NoInverse,
        )?;
        Ok(Inverses {
            modulo_2: work::converted(heap, modulo_2.as_slice())?,
            modulo_3: work::converted(heap, modulo_3.as_slice())?,
            modulo_8192,
        })
    }
}

// Multiplies back: f times u, reduced modulo 1 + x + .. + x^(n - 1), has to be 1 where `read` reads the words.
fn check<R: Ring + Drop, F: Fn(u16) -> R>(
    heap: Global,
    f: &[u16],
    u: &[u16],
    read: F,
) -> Result<(), Fault>
    requires { F.IsAlwaysCallable read }
{
    let mut unit = WordByWord::new();
    let back = work::product(heap, &mut unit, f, u)?;
    let back: Vec<R> = back.iter().map(|word| read(*word)).collect(heap)?;
    if work::reduces_to(back, read(1)) {
        Ok(())
    } else {
        Err(Fault::WrongInverse)
    }
}

fn multiply_back(rt: &HostRuntime, n: usize) -> Result<(), Fault> {
    let heap = rt.alloc();
    let f = invertible(heap, n)?;
    let words = work::wrapped(heap, f.as_slice())?;
    let codes: Vec<u16> = work::converted(heap, f.as_slice())?;
    let Inverses {
        modulo_2,
        modulo_3,
        modulo_8192,
    } = Inverses::of(heap, f.as_slice())?;
    check(heap, words.as_slice(), modulo_2.as_slice(), Bit::from)?;
    // Of codes no sum wraps, so each can be reduced modulo 3 at the end.
    check(heap, codes.as_slice(), modulo_3.as_slice(), Digit::from)?;
    // Words are the same modulo 8192 where their eightfolds are the same modulo 65536.
    check(heap, words.as_slice(), modulo_8192.as_slice(), |word| {
        word.wrapping_mul(8)
    })?;
    println!(rt;
        "n = {n}: inverses modulo 2, 3 and 8192 multiply back to 1; fingerprints {} {} {}",
        work::fingerprint(modulo_2.as_slice()),
        work::fingerprint(modulo_3.as_slice()),
        work::fingerprint(modulo_8192.as_slice())
    )?;
    Ok(())
}

// f and its inverses at n = 701, a list a line.
pub(crate) fn words(rt: &HostRuntime) -> Result<(), Fault> {
    let heap = rt.alloc();
    let f = invertible(heap, 701)?;
    let codes: Vec<u16> = work::converted(heap, f.as_slice())?;
    let inverses = Inverses::of(heap, f.as_slice())?;
    println!(rt; "f {codes:?}")?;
    println!(rt; "2 {:?}", inverses.modulo_2)?;
    println!(rt; "3 {:?}", inverses.modulo_3)?;
    println!(rt; "8192 {:?}", inverses.modulo_8192)?;
    Ok(())
}
