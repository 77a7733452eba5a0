// Row units: a factor times a list of words, added to a list of words modulo 65536.
ghost use Rattle.std.specs.Prelude.{◌≡◌, ℕ, ◌^◌, ◌<◌, Ok, Err, IsErr};
ghost use Rattle.arithmetic.specs.Rows.{RowCall, Serves, WorkedRow, number_of};
ghost use Rattle.arithmetic.specs.declared.rows.RowRefusal.TheVariants.{Length};

pub(crate) mod halving;
pub(crate) mod word_by_word;

// The most words that a row may have, and so the length of the arrays whose fronts a call takes as its lists, since nothing allocates.
pub(crate) const MOST_WORDS: usize = 1408;

// Why a row was not served.
#[derive(Clone, Copy, PartialEq, Eq, Debug)]
pub enum RowRefusal {
    // The list of a row is not 1 to 1408 words long or the output not as long as the list; or the lists of a product do not fit.
    Length = 15,
}

impl RowRefusal {
    // The number by which a fitter knows the refusal.
    pub fn number(self) -> u8
        ensures number_of_the_refusal { result ≡ number_of self }
    {
        self as u8
    }
}

// Whether a row unit serves a row: 1 to 1408 words, and as many in the output.
pub(crate) fn check(list: &[u16], out: &[u16]) -> Result<(), RowRefusal>
    ensures served { result ≡ Ok tt → Serves list.now out.now }
    ensures refused { IsErr result → (Serves list.now out.now → ⊥) × (result ≡ Err Length) }
{
    if list.is_empty() || list.len() > MOST_WORDS || out.len() != list.len() {
        return Err(RowRefusal::Length);
    }
    Ok(())
}

// What adds rows. It may be plain code or a piece of hardware.
pub trait RowUnit {
    // The count of rows served, in 64 bits.
    ghost rows: { Self → ℕ };

    // Adds factor times word i of the list to word i of the output, modulo 65536, for every i.
    fn row(&mut self, factor: u16, list: &[u16], out: &mut [u16]) -> Result<(), RowRefusal>
        ensures row_call { RowCall factor list.now out.old (rows self.old) result out.new (rows self.new) };

    // The count of rows served.
    fn count(&self) -> u64
        ensures rows_served { result ≡ rows self.now };

    // Below the last function, so this is a law: each implementation shows that its count has 64 bits.
    ghost top: { (x : Self) → rows x < 2 ^ 64 };
}

// The worked row follows from the meaning of a row call.
pub fn worked_row_holds() -> u8
    ensures worked_row { WorkedRow }
{
    0
}
