// What a digit is as a number, and how it is written.
ghost use Rattle.std.specs.Prelude.{◌≡◌, ℕ};
ghost use Rattle.arithmetic.specs.Digits.{digit, number, sign};

use crate::digit::Digit;

// The digit of a number: its remainder modulo 3, where 2 counts as -1.
impl From<u16> for Digit {
    ghost from_gives = { λ value d. d ≡ digit value };

    fn from(value: u16) -> Self {
        Digit {
            code: (value % 3) as u8,
        }
    }
}

// The remainder modulo 3 that a digit is: 0, 1 or 2.
impl From<Digit> for u16 {
    ghost from_gives = { λ d value. value ≡ d.code };

    fn from(digit: Digit) -> Self {
        u16::from(digit.code)
    }
}

// The number that a digit is: -1, 0 or 1.
impl From<Digit> for i8 {
    ghost from_gives = { λ d value. value ≡ number d };

    fn from(digit: Digit) -> Self {
        match digit.code {
            2 => -1,
            code => code as i8,
        }
    }
}

impl Digit {
    // The sign of a number: -1, 0 or 1. No `From`, since numbers of one sign give one digit.
    pub fn from_sign(value: i8) -> Self
        ensures sign_of_the_number { result ≡ sign value }
    {
        if value > 0 {
            return Digit::ONE;
        }
        if value < 0 {
            return Digit::MINUS_ONE;
        }
        Digit::ZERO
    }

    // How the digit is written in a ternary part: a code and no value, so no `From`.
    pub fn code(self) -> u8
        ensures written_code { result ≡ self.code }
    {
        self.code
    }
}
