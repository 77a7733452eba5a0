// The operations of the library, with lists on the heap. What is timed gets lists that were made before (`time`).
use crate::fault::Fault;
use arithmetic::{
    Digit, Field, Ring, RowUnit, inverse_mod_phi, inverse_of_words, multiply, subtract_last,
};
use std::alloc::{AllocError, Global};

// The inverse of f modulo 1 + x + .. + x^(n - 1) over a field, or nothing.
pub(crate) fn inverse<F: Field + Clone + Drop>(
    heap: Global,
    f: &[F],
) -> Result<Option<Vec<F>>, AllocError> {
    let n = f.len();
    let mut inverse = vec![in heap; F::zero(); n]?;
    let mut r = vec![in heap; F::zero(); n]?;
    let mut s = vec![in heap; F::zero(); n]?;
    let mut t = vec![in heap; F::zero(); n]?;
    let mut v = vec![in heap; F::zero(); n]?;
    let found = inverse_mod_phi(
        f,
        inverse.as_mut_slice(),
        r.as_mut_slice(),
        s.as_mut_slice(),
        t.as_mut_slice(),
        v.as_mut_slice(),
    );
    Ok(found.map(|_| inverse))
}

// The product of two lists of words by rows.
pub(crate) fn product<U: RowUnit>(
    heap: Global,
    unit: &mut U,
    u: &[u16],
    v: &[u16],
) -> Result<Vec<u16>, Fault> {
    let n = u.len();
    let mut doubled = vec![in heap; 0u16; n.saturating_mul(2)]?;
    let mut out = vec![in heap; 0u16; n]?;
    multiply(unit, u, v, doubled.as_mut_slice(), out.as_mut_slice())?;
    Ok(out)
}

// The inverse modulo 8192, or nothing.
pub(crate) fn word_inverse<U: RowUnit>(
    heap: Global,
    unit: &mut U,
    f: &[u16],
) -> Result<Option<Vec<u16>>, AllocError> {
    let mut inverse = vec![in heap; 0u16; f.len()]?;
    let found = inverse_of_words(unit, 13, f, inverse.as_mut_slice());
    Ok(found.map(|_| inverse))
}

// Whether a polynomial reduces to `one` modulo 1 + x + .. + x^(n - 1).
pub(crate) fn reduces_to<R: Ring + Drop>(mut p: Vec<R>, one: R) -> bool {
    subtract_last(p.as_mut_slice());
    p.iter()
        .enumerate()
        .all(|(i, x)| x.same(if i == 0 { one } else { R::zero() }))
}

// Words as elements of a field, or such elements as the words 0, 1 and 2.
pub(crate) fn converted<A: Copy, B: From<A> + Drop>(
    heap: Global,
    from: &[A],
) -> Result<Vec<B>, AllocError> {
    from.iter().map(|x| B::from(*x)).collect(heap)
}

// Digits as words modulo 65536: -1 is 65535.
pub(crate) fn wrapped(heap: Global, digits: &[Digit]) -> Result<Vec<u16>, AllocError> {
    digits
        .iter()
        .map(|d| i16::from(i8::from(*d)).cast_unsigned())
        .collect(heap)
}

// One number for a list, to compare lists by.
pub(crate) fn fingerprint(words: &[u16]) -> u32 {
    words.iter().fold(0u32, |mixed, word| {
        mixed.wrapping_mul(31).wrapping_add(u32::from(*word))
    })
}
