// Words of 16 bits, the numbers modulo 65536.
ghost use Rattle.std.proofs.Common.{lit<};
ghost use Rattle.algebra.specs.Residues.{Residue, residue, residue_laws, residues};

use crate::rings::Ring;

impl Ring for u16 {
    ghost Value = { Residue 65536 };

    ghost value = { residue 65536 (lit< tt) };

    ghost ring = { residues 65536 (lit< tt) };

    ghost laws = { residue_laws 65536 (lit< tt) };

    fn zero() -> u16 {
        0
    }

    fn one() -> u16 {
        1
    }

    fn sum(self, other: u16) -> u16 {
        self.wrapping_add(other)
    }

    fn product(self, other: u16) -> u16 {
        self.wrapping_mul(other)
    }

    fn negation(self) -> u16 {
        self.wrapping_neg()
    }

    fn same(self, other: u16) -> bool {
        self == other
    }
}
