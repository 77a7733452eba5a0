// How long things take at n = 701: the best of many, in nanoseconds.
use crate::fault::Fault;
use crate::{draws, work};
use arithmetic::{
    Bit, Field, Halving, Ring, RowUnit, WordByWord, inverse_mod_phi, inverse_of_words, multiply,
};
use std::time::Duration;
use trials::{best_of, generator};

const N: usize = 701;

pub(crate) fn run(rt: &HostRuntime) -> Result<(), Fault> {
    let mut plain = WordByWord::new();
    let mut halved = Halving::new(WordByWord::new());
    tell(rt, "product", product(rt, &mut plain)?)?;
    tell(rt, "product-over-halving", product(rt, &mut halved)?)?;
    inverses(rt)
}

fn tell(rt: &HostRuntime, name: &str, best: Duration) -> Result<(), Fault> {
    Ok(println!(rt; "{name} {}", best.as_nanos())?)
}

fn inverses(rt: &HostRuntime) -> Result<(), Fault> {
    let heap = rt.alloc();
    let f = draws::digits(heap, &mut generator(), N)?;
    let words: Vec<u16> = work::converted(heap, f.as_slice())?;
    let bits = work::converted::<u16, Bit>(heap, words.as_slice())?;
    tell(rt, "inverse-modulo-2", euclid(rt, bits.as_slice())?)?;
    tell(rt, "inverse-modulo-3", euclid(rt, f.as_slice())?)?;
    tell(
        rt,
        "inverse-modulo-8192",
        words_inverse(rt, words.as_slice())?,
    )
}

// Tries many places for the output: where it lies 4096 bytes from the list, a processor takes the one for the other.
fn product<U: RowUnit>(rt: &HostRuntime, unit: &mut U) -> Result<Duration, Fault> {
    let heap = rt.alloc();
    let mut random = generator();
    let u = draws::words(heap, &mut random, N)?;
    let v = draws::words(heap, &mut random, N)?;
    let mut best = Duration::MAX;
    for place in 0..64u16 {
        let mut room = vec![in heap; 0u16; 4096]?;
        let from = usize::from(place) * 33;
        let out = &mut room.as_mut_slice()[from..from + N];
        best = best.min(products_into(rt, unit, u.as_slice(), v.as_slice(), out)?);
    }
    Ok(best)
}

fn products_into<U: RowUnit>(
    rt: &HostRuntime,
    unit: &mut U,
    u: &[u16],
    v: &[u16],
    out: &mut [u16],
) -> Result<Duration, Fault> {
    let mut doubled = vec![in rt.alloc(); 0u16; 2 * N]?;
    best_of(
        rt,
        100,
        || (),
        |()| Ok(multiply(unit, u, v, doubled.as_mut_slice(), out)?),
    )
}

fn euclid<F: Field + Clone + Drop>(rt: &HostRuntime, f: &[F]) -> Result<Duration, Fault> {
    let heap = rt.alloc();
    let n = f.len();
    let mut inverse = vec![in heap; F::zero(); n]?;
    let mut r = vec![in heap; F::zero(); n]?;
    let mut s = vec![in heap; F::zero(); n]?;
    let mut t = vec![in heap; F::zero(); n]?;
    let mut v = vec![in heap; F::zero(); n]?;
    best_of(
        rt,
        500,
        || (),
        |()| {
            let _ = inverse_mod_phi(
                f,
                inverse.as_mut_slice(),
                r.as_mut_slice(),
                s.as_mut_slice(),
                t.as_mut_slice(),
                v.as_mut_slice(),
            );
            Ok(())
        },
    )
}

fn words_inverse(rt: &HostRuntime, f: &[u16]) -> Result<Duration, Fault> {
    let mut unit = WordByWord::new();
    let mut inverse = vec![in rt.alloc(); 0u16; f.len()]?;
    best_of(
        rt,
        200,
        || (),
        |()| {
            let _ = inverse_of_words(&mut unit, 13, f, inverse.as_mut_slice());
            Ok(())
        },
    )
}
