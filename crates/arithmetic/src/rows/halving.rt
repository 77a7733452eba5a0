// A row unit over another, which has it do each row in two halves. It counts its own rows: a field and a line, which its clauses name.
ghost use Rattle.std.specs.Prelude.{◌≡◌, ◌+◌, ◌/◌, ◌^◌, ◌<◌, ◌≤◌, length, Ok};
ghost use Rattle.arithmetic.specs.Rows.{Handed, RowCall, raised, row_sum};

use crate::rows::{RowRefusal, RowUnit, check};

#[derive(Drop)]
pub struct Halving<U> {
    below: U,
    served: u64,
    ghost fits: { served < 2 ^ 64 },
}

impl<U: RowUnit> Halving<U> {
    // A layer that has served no row, over the unit below.
    pub fn new(below: U) -> Self
        ensures no_row_served { result.served ≡ 0 }
        ensures over_the_unit { result.below ≡ below }
    {
        Halving { below, served: 0 }
    }
}

// Half of k, rounded up: where the upper half of a row of k words begins.
fn upper_half(k: usize) -> usize
    ensures half_rounded_up { result ≡ (k + 1) / 2 }
{
    k.div_ceil(2)
}

// The two halves of a row of at least two words, by the unit below.
fn add_halves<U: RowUnit>(
    below: &mut U,
    factor: u16,
    list: &[u16],
    out: &mut [u16],
) -> Result<(), RowRefusal>
    requires two_or_more { 2 ≤ length list.now }
    requires not_too_many { length list.now ≤ 1408 }
    requires same_length { length out.old ≡ length list.now }
    ensures served { result ≡ Ok tt }
    ensures words { out.new ≡ row_sum 65536 factor list.now out.old }
    ensures two_rows { U.rows below.new ≡ raised 2 (U.rows below.old) }
{
    let h = upper_half(list.len());
    below.row(factor, &list[0..h], &mut out[0..h])?;
    below.row(factor, &list[h..], &mut out[h..])
}

impl<U: RowUnit> RowUnit for Halving<U> {
    ghost rows = { λ u. u.served };

    ghost top = { λ u. u.fits };

    fn row(&mut self, factor: u16, list: &[u16], out: &mut [u16]) -> Result<(), RowRefusal>
        ensures row_call { RowCall factor list.now out.old self.old.served result out.new self.new.served }
        ensures rows_below { Handed list.now out.old (U.RowUnit.rows self.old.below) (U.RowUnit.rows self.new.below) }
    {
        check(list, out)?;
        if list.len() == 1 {
            self.below.row(factor, list, out)?;
        } else {
            add_halves(&mut self.below, factor, list, out)?;
        }
        self.served = self.served.saturating_add(1);
        Ok(())
    }

    fn count(&self) -> u64 {
        self.served
    }
}
