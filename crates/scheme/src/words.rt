// Word parts: `width` bits a coefficient, lowest bit first.
ghost use Rattle.std.specs.Prelude.{◌≡◌, ℕ, ◌*◌, ◌^◌, ◌≤◌, length, Ok};
ghost use Rattle.algebra.specs.Radix.{Under};
ghost use Rattle.scheme.specs.Refusals.{left, verdict};
ghost use Rattle.scheme.specs.WordParts.{HoldsBits, TakesBits, shaped, word_bytes, word_part, word_reads, word_writes, part_words};

use crate::refusal::Refusal;
use crate::width::Width;

// The greatest number of coefficients of a part.
const MOST: usize = 1407;

// Writes of each coefficient its low `width` bits. Spare bits of the last byte are zero.
pub fn write_word_part(width: u32, coefficients: &[u16], out: &mut [u8]) -> Result<(), Refusal>
    ensures answer { result ≡ verdict (word_writes width (length coefficients.now) out.old) }
    ensures output { out.new ≡ left result (word_part width coefficients.now) out.old }
    ensures bit_by_bit { result ≡ Ok tt → HoldsBits width coefficients.now out.new }
    ensures reads_back { result ≡ Ok tt → Under (2 ^ width) coefficients.now → part_words width (length coefficients.now) out.new ≡ coefficients.now }
{
    if !has_shape(width, coefficients.len()) {
        return Err(Refusal::InputLength);
    }
    let width = Width { bits: width };
    if out.len() != width.part_bytes(coefficients.len()) {
        return Err(Refusal::OutputLength);
    }
    pack_words(width, coefficients, out);
    Ok(())
}

// Reads as many coefficients as `out` has places. Bits of the last byte beyond these are not looked at.
pub fn read_word_part(width: u32, bytes: &[u8], out: &mut [u16]) -> Result<(), Refusal>
    ensures answer { result ≡ verdict (word_reads width (length out.old) bytes.now) }
    ensures output { out.new ≡ left result (part_words width (length out.old) bytes.now) out.old }
    ensures bit_by_bit { result ≡ Ok tt → TakesBits width bytes.now out.new }
{
    if !has_shape(width, out.len()) {
        return Err(Refusal::InputLength);
    }
    let width = Width { bits: width };
    if bytes.len() != width.part_bytes(out.len()) {
        return Err(Refusal::InputLength);
    }
    unpack_words(width, bytes, out);
    Ok(())
}

// Whether there are word parts of so many bits and coefficients. No `Option` of a width: only of one that was tested in place does a compiler
// know that it is 16 at most, and the loops are then faster.
fn has_shape(bits: u32, count: usize) -> bool
    ensures { result ≡ shaped bits count }
{
    Width::fits(bits) && (1..=MOST).contains(&count)
}

// Bits come in by coefficients and go out by bytes: `held` bits wait in `bits` for the byte at `at`. A byte takes bits of up to eight
// coefficients, so neither list goes through the other in steps of its own.
pub(crate) fn pack_words(width: Width, coefficients: &[u16], out: &mut [u8])
    requires { length out.old ≡ word_bytes width.bits (length coefficients.now) }
    ensures { out.new ≡ word_part width.bits coefficients.now }
{
    let mut bits: u32 = 0;
    let mut held: u32 = 0;
    let mut at: usize = 0;
    for c in coefficients {
        bits |= u32::from(width.low(*c)) << held;
        held += width.bits;
        while held >= 8 {
            out[at] = (bits & 0xff) as u8;
            bits >>= 8;
            held -= 8;
            at += 1;
        }
    }
    if held > 0 {
        out[at] = bits as u8;
    }
}

// The same the other way. To read each word out of the three bytes that hold it was tried: it is no plainer, since each place is reckoned anew,
// and slower.
pub(crate) fn unpack_words(width: Width, bytes: &[u8], out: &mut [u16])
    requires { width.bits * length out.old ≤ 8 * length bytes.now }
    ensures { out.new ≡ part_words width.bits (length out.old) bytes.now }
{
    let wide = width.bits;
    let mut bits: u32 = 0;
    let mut held: u32 = 0;
    let mut at: usize = 0;
    // By index: in the inner loop a proof does not see a list that an iterator has lent out.
    for i in 0..out.len() {
        while held < wide {
            bits |= u32::from(bytes[at]) << held;
            held += 8;
            at += 1;
        }
        out[i] = width.low((bits & 0xffff) as u16);
        bits >>= wide;
        held -= wide;
    }
}
