// Bits, the numbers modulo 2. A byte and no enum, since only then loops over bits run many at a time. Bits and digits are two types and not one
// with a modulus as its parameter: for 0 and 1 there is no such ring, a parameter has no bound, and so the two would share little but the field.
ghost use Rattle.std.proofs.Common.{lit<};
ghost use Rattle.std.specs.Prelude.{◌≡◌, ◌%◌, ◌<◌};
ghost use Rattle.algebra.specs.Residues.{Residue, residue, residue_laws, residues};

use crate::rings::{Field, Ring};

#[derive(Clone, Copy, PartialEq, Eq, Debug)]
pub struct Bit {
    code: u8,
    ghost small: { code < 2 },
}

impl Bit {
    pub const ZERO: Bit = Bit { code: 0 };

    pub const ONE: Bit = Bit { code: 1 };
}

// The bit that a number is modulo 2.
impl From<u16> for Bit {
    ghost from_gives = { λ value b. b.code ≡ value % 2 };

    fn from(value: u16) -> Self {
        Bit {
            code: (value % 2) as u8,
        }
    }
}

// The number that a bit is: 0 or 1.
impl From<Bit> for u16 {
    ghost from_gives = { λ b value. value ≡ b.code };

    fn from(bit: Bit) -> Self {
        u16::from(bit.code)
    }
}

impl Ring for Bit {
    ghost Value = { Residue 2 };

    ghost value = { λ b. residue 2 (lit< tt) b.code };

    ghost ring = { residues 2 (lit< tt) };

    ghost laws = { residue_laws 2 (lit< tt) };

    fn zero() -> Bit {
        Bit::ZERO
    }

    fn one() -> Bit {
        Bit::ONE
    }

    fn sum(self, other: Bit) -> Bit {
        Bit {
            code: self.code ^ other.code,
        }
    }

    fn product(self, other: Bit) -> Bit {
        Bit {
            code: self.code & other.code,
        }
    }

    fn negation(self) -> Bit {
        self
    }

    fn same(self, other: Bit) -> bool {
        self.code == other.code
    }
}

impl Field for Bit {
    fn inverse(self) -> Bit {
        self
    }
}
