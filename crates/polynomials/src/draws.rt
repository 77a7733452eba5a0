// Polynomials to try things with.
use arithmetic::Digit;
use std::alloc::{AllocError, Global};
use trials::{Random, fill};

// Words of 16 bits.
pub(crate) fn words(heap: Global, random: &mut Random, n: usize) -> Result<Vec<u16>, AllocError> {
    let mut words = vec![in heap; 0u16; n]?;
    fill(random, words.as_mut_slice(), |x| (x & 0xffff) as u16);
    Ok(words)
}

// Digits, of which the last is 0.
pub(crate) fn digits(
    heap: Global,
    random: &mut Random,
    n: usize,
) -> Result<Vec<Digit>, AllocError> {
    let mut digits = vec![in heap; Digit::ZERO; n]?;
    fill(random, digits.as_mut_slice(), |x| {
        Digit::from(((x >> 20) % 3) as u16)
    });
    if let Some(last) = digits.last_mut() {
        *last = Digit::ZERO;
    }
    Ok(digits)
}
