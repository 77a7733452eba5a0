// Why a call says no, and the number by which a fitter knows it.
ghost use Rattle.std.specs.Prelude.{◌≡◌, ℕ};
ghost use Rattle.scheme.specs.Refusals.{number_of};

#[derive(Clone, Copy, PartialEq, Eq, Debug)]
pub enum Refusal {
    // There is no parameter set of that number.
    NoSuchSet = 3,
    // Coins, a card, a sealed record or a part have the wrong length, or there is no word part of that width or number of coefficients.
    InputLength = 6,
    // The output has the wrong length.
    OutputLength = 7,
    // A byte of a ternary part is above F2 and holds no five digits.
    TernaryByte = 8,
    // f of a card correlates negatively.
    NegativeCorrelation = 9,
    // fp of a card is no inverse of f modulo 3.
    FpNotInverse = 10,
    // No g solves the key equation.
    NoKeyEquation = 11,
    // hq of a card is no inverse of h modulo q.
    HqNotInverse = 12,
    // f, modulo 2 or modulo 3, or h has no inverse, so that no card comes of the coins.
    NotInvertible = 13,
    // No pair encrypts to a sealed record.
    NoPair = 14,
}

impl Refusal {
    // The number of the refusal.
    pub fn number(self) -> u8
        ensures number_of_the_refusal { result ≡ number_of self }
    {
        self as u8
    }
}
