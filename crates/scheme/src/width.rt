// How many bits a coefficient has in a word part.
ghost use Rattle.std.specs.Prelude.{◌≡◌, ℕ, ◌-◌, ◌%◌, ◌^◌, ◌≤◌};
ghost use Rattle.scheme.specs.WordParts.{width_fits, word_bytes};

// 1 to 16 bits.
#[derive(Clone, Copy)]
pub(crate) struct Width {
    pub(crate) bits: u32,
    ghost some: { 1 ≤ bits },
    ghost narrow: { bits ≤ 16 },
}

impl Width {
    // Whether coefficients of so many bits are had.
    pub(crate) fn fits(bits: u32) -> bool
        ensures { result ≡ width_fits bits }
    {
        (1..=16).contains(&bits)
    }

    // The greatest coefficient: all its bits are set.
    pub(crate) fn mask(self) -> u16
        ensures { result ≡ 2 ^ self.bits - 1 }
    {
        ((1u32 << self.bits) - 1) as u16
    }

    // The low bits of a word, which are the word modulo 2^bits.
    pub(crate) fn low(self, word: u16) -> u16
        ensures { result ≡ word % 2 ^ self.bits }
    {
        word & self.mask()
    }

    // The bytes of a part of so many coefficients.
    pub(crate) fn part_bytes(self, count: usize) -> usize
        requires { count ≤ 1407 }
        ensures { result ≡ word_bytes self.bits count }
    {
        (self.bits as usize * count).div_ceil(8)
    }
}
