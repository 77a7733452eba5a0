// Coins: each half of a byte gives one coefficient.
ghost use Rattle.std.specs.Prelude.{◌≡◌, ℕ, ◌+◌, ◌-◌, ◌*◌, ◌/◌, ◌%◌, ◌<◌, ◌≤◌, length};
ghost use Rattle.scheme.specs.Coins.{coin, ByTheRule, drawn};

use arithmetic::Digit;

const ZERO: Digit = Digit::ZERO;

const ONE: Digit = Digit::ONE;

const MINUS: Digit = Digit::MINUS_ONE;

// What each of the sixteen possible halves of a byte gives, 0 to 15.
const COINS: [Digit; 16] = [
    ZERO, ONE, ONE, MINUS, MINUS, ZERO, ZERO, ONE, MINUS, ZERO, ZERO, ONE, ONE, MINUS, MINUS, ZERO,
];

fn coin_digit(half: u8) -> Digit
    requires { half < 16 }
    ensures { result ≡ coin half }
{
    COINS[half as usize]
}

// The two digits of a byte of coins: of its low half, and of its high half.
pub fn coin_digits(byte: u8) -> (Digit, Digit)
    ensures low_half_first { (result.0 ≡ coin (byte % 16)) × (result.1 ≡ coin (byte / 16)) }
    ensures four_bit_rule { (ByTheRule (byte % 16) result.0) × (ByTheRule (byte / 16) result.1) }
{
    (coin_digit(byte % 16), coin_digit(byte / 16))
}

// Draws a polynomial: a coefficient for each half byte, the low half first, and 0 as the last.
pub(crate) fn draw(coins: &[u8], out: &mut [Digit])
    requires { length out.old ≡ 2 * length coins.now + 1 }
    ensures { out.new ≡ drawn coins.now }
{
    for (i, byte) in coins.iter().enumerate() {
        let (low, high) = coin_digits(*byte);
        out[2 * i] = low;
        out[2 * i + 1] = high;
    }
    out[2 * coins.len()] = Digit::ZERO;
}
