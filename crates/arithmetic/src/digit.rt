// Digits modulo 3.
ghost use Rattle.std.proofs.Common.{lit<};
ghost use Rattle.std.specs.Prelude.{◌≡◌, ◌<◌};
ghost use Rattle.algebra.specs.Residues.{Residue, residue, residue_laws, residues};

use crate::rings::{Field, Ring};

mod values;

// A digit modulo 3, with the values -1, 0 and 1. It is held by its code, 0 and 1 for themselves and 2 for -1:
// an addition is then a sum of bytes and at most one subtraction, which a compiler turns into vector instructions.
#[derive(Clone, Copy, PartialEq, Eq, Debug)]
pub struct Digit {
    code: u8,
    ghost small: { code < 3 },
}

impl Digit {
    pub const ZERO: Digit = Digit { code: 0 };

    pub const ONE: Digit = Digit { code: 1 };

    pub const MINUS_ONE: Digit = Digit { code: 2 };
}

impl Ring for Digit {
    ghost Value = { Residue 3 };

    ghost value = { λ d. residue 3 (lit< tt) d.code };

    ghost ring = { residues 3 (lit< tt) };

    ghost laws = { residue_laws 3 (lit< tt) };

    fn zero() -> Digit {
        Digit::ZERO
    }

    fn one() -> Digit {
        Digit::ONE
    }

    fn sum(self, other: Digit) -> Digit {
        let s = self.code + other.code;
        Digit {
            code: if s >= 3 { s - 3 } else { s },
        }
    }

    // In a loop with one first factor, the choice is made once.
    fn product(self, other: Digit) -> Digit {
        match self.code {
            0 => self,
            1 => other,
            _ => other.negation(),
        }
    }

    fn negation(self) -> Digit {
        Digit {
            code: if self.code == 0 { 0 } else { 3 - self.code },
        }
    }

    fn same(self, other: Digit) -> bool {
        self.code == other.code
    }
}

impl Field for Digit {
    fn inverse(self) -> Digit {
        self
    }
}
