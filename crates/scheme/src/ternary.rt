// Ternary parts: five digits a byte, first digit lowest.
ghost use Rattle.std.specs.Prelude.{◌≡◌, ℕ, ◌+◌, ◌*◌, ◌/◌, ◌<◌, ◌≤◌, true, length, Ok};
ghost use Rattle.scheme.specs.Refusals.{left, verdict};
ghost use Rattle.algebra.specs.Radix.{numeral};
ghost use Rattle.scheme.specs.TernaryParts.{codes, HoldsDigits, TakesDigits, holds_digits, reads, ternary_digits, ternary_part, writes};

use crate::refusal::Refusal;
use arithmetic::Digit;

// The greatest byte that holds five digits: 2 + 2 * 3 + 2 * 9 + 2 * 27 + 2 * 81.
const GREATEST: u8 = 0xF2;

// What the digits of a byte count.
const POWERS: [u8; 5] = [1, 3, 9, 27, 81];

// Writes the digits, as many bytes as they need. Spare digits of the last byte are zero.
pub fn write_ternary_part(digits: &[Digit], out: &mut [u8]) -> Result<(), Refusal>
    ensures answer { result ≡ verdict (writes (length digits.now) out.old) }
    ensures output { out.new ≡ left result (ternary_part digits.now) out.old }
    ensures digit_by_digit { result ≡ Ok tt → HoldsDigits digits.now out.new }
    ensures reads_back { result ≡ Ok tt → ternary_digits (length digits.now) out.new ≡ digits.now }
{
    if out.len() != digits.len().div_ceil(5) {
        return Err(Refusal::OutputLength);
    }
    pack(digits, out);
    Ok(())
}

// Reads as many digits as `out` has places. Digits of the last byte beyond these are not looked at.
pub fn read_ternary_part(bytes: &[u8], out: &mut [Digit]) -> Result<(), Refusal>
    ensures answer { result ≡ verdict (reads (length out.old) bytes.now) }
    ensures output { out.new ≡ left result (ternary_digits (length out.old) bytes.now) out.old }
    ensures digit_by_digit { result ≡ Ok tt → TakesDigits bytes.now out.new }
{
    if bytes.len() != out.len().div_ceil(5) {
        return Err(Refusal::InputLength);
    }
    if !all_hold_digits(bytes) {
        return Err(Refusal::TernaryByte);
    }
    unpack(bytes, out);
    Ok(())
}

pub(crate) fn pack(digits: &[Digit], out: &mut [u8])
    requires { length out.old ≡ (length digits.now + 4) / 5 }
    ensures { out.new ≡ ternary_part digits.now }
{
    // Whole bytes by themselves: the number of their digits is fixed, and the code then several times as fast.
    let fives = digits.chunks_exact(5);
    let last = fives.remainder();
    for (i, five) in fives.enumerate() {
        out[i] = packed(five);
    }
    if !last.is_empty() {
        out[digits.len() / 5] = packed(last);
    }
}

// The byte that holds five digits, or the fewer that a part ends with.
fn packed(five: &[Digit]) -> u8
    requires { length five.now ≤ 5 }
    ensures { result ≡ numeral 3 (codes five.now) }
{
    let mut byte: u8 = 0;
    for (i, d) in five.iter().enumerate() {
        byte += d.code() * POWERS[i];
    }
    byte
}

// Whether each byte holds five digits.
pub(crate) fn all_hold_digits(bytes: &[u8]) -> bool
    ensures { result ≡ holds_digits bytes.now }
{
    bytes.iter().all(|b| *b <= GREATEST)
}

pub(crate) fn unpack(bytes: &[u8], out: &mut [Digit])
    requires { length out.old ≤ 5 * length bytes.now }
    ensures { out.new ≡ ternary_digits (length out.old) bytes.now }
{
    // What is left of a byte, and of how many digits. It is divided by 3 at each digit, since to divide by a power that varies is slow.
    let mut rest: u8 = 0;
    let mut left: u8 = 0;
    for (i, d) in out.iter_mut().enumerate() {
        if left == 0 {
            rest = bytes[i / 5];
            left = 5;
        }
        *d = Digit::from(u16::from(rest));
        rest /= 3;
        left -= 1;
    }
}
