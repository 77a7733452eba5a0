// Parameter sets.
ghost use Rattle.std.specs.Prelude.{◌≡◌, ℕ, ◌+◌, ◌-◌, ◌*◌, ◌/◌, ◌%◌, ◌^◌, ◌<◌, ◌≤◌};

use crate::width::Width;

mod lookup;

// A parameter set: how long its polynomials are, how many bits a coefficient modulo q = 2^width has, and the sizes
// of its records in bytes. What proofs use of a set is what is stated here, and never its number.
#[derive(Clone, Copy)]
pub struct ParameterSet {
    // coefficients of a polynomial
    pub n: usize,
    // bits of a coefficient modulo q
    pub width: u32,
    // bytes of a ternary part
    pub ternary: usize,
    // bytes of a word part
    pub word: usize,
    // bytes of a card
    pub card: usize,
    // bytes of a pair record
    pub pair: usize,
    // bytes of coins
    pub coins: usize,
    ghost length: { (2 ≤ n) × (n ≤ 1408) },
    ghost coprime: { (n % 2 ≡ 1) × (0 < n % 3) },
    ghost narrow: { width ≤ 16 },
    ghost wide: { 128 * ((n - 1) * (n - 1)) < 2 ^ width * 2 ^ width },
    ghost parts: { (ternary ≡ (n - 1 + 4) / 5) × (word ≡ (width * (n - 1) + 7) / 8) },
    ghost records: { (card ≡ 2 * ternary + 2 * word) × (pair ≡ 2 * ternary) × (coins ≡ n - 1) },
}

impl ParameterSet {
    // How many bits a coefficient has.
    pub(crate) fn bits(self) -> Width
        ensures { result.bits ≡ self.width }
    {
        Width { bits: self.width }
    }
}
