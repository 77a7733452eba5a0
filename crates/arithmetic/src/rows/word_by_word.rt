// A row unit that goes through a row word by word. That the output is as long as the list stands as a clause where a row is handed down: the two
// slices are what the row call takes, and a type round them would be opened in each line. The unit counts what it has served, as each unit does.
ghost use Rattle.std.specs.Prelude.{◌≡◌, ℕ, ◌^◌, ◌<◌, ◌≤◌, List, length, take};
ghost use Rattle.arithmetic.specs.Rows.{row_sum};

use crate::rows::{RowRefusal, RowUnit, check};
use std::simd::prelude::*;

#[derive(Drop)]
pub struct WordByWord {
    served: u64,
    ghost fits: { served < 2 ^ 64 },
}

impl WordByWord {
    // A unit that has served no row.
    pub fn new() -> Self
        ensures no_row_served { result.served ≡ 0 }
    {
        WordByWord { served: 0 }
    }
}

// As many words as a vector has lanes. Each lane wraps at 65536, and none passes anything to its neighbour.
fn add_lanes<const N: usize>(factor: u16, list: &[u16], out: &mut [u16])
    requires list_fills_a_vector { length list.now ≡ N }
    requires output_fills_a_vector { length out.old ≡ N }
    ensures words { out.new ≡ row_sum 65536 factor list.now out.old }
{
    let words = Simd::<u16, N>::from_slice(list);
    let sums = Simd::<u16, N>::from_slice(out) + Simd::<u16, N>::splat(factor) * words;
    sums.copy_to_slice(out);
}

// The words from `done` on, as many as fill vectors of N lanes. Answers how many words are done then. By index, since a proof knows nothing
// of what is written to chunks that an iterator lends.
fn add_vectors<const N: usize>(factor: u16, list: &[u16], out: &mut [u16], done: usize) -> usize
    requires some_lanes { 0 < N }
    requires same_length { length out.old ≡ length list.now }
    requires within { done ≤ length list.now }
    ensures within { result ≤ length list.now }
    ensures words { (before : List ℕ) → out.old ≡ row_sum 65536 factor (take done list.now) before → out.new ≡ row_sum 65536 factor (take result list.now) before }
{
    let mut i = done;
    while list.len() - i >= N {
        add_lanes::<N>(factor, &list[i..i + N], &mut out[i..i + N]);
        i += N;
    }
    i
}

// The words one at a time.
fn add_singly(factor: u16, list: &[u16], out: &mut [u16])
    requires same_length { length out.old ≡ length list.now }
    ensures words { out.new ≡ row_sum 65536 factor list.now out.old }
{
    for (i, word) in list.iter().enumerate() {
        out[i] = out[i].wrapping_add(factor.wrapping_mul(*word));
    }
}

// The words of a row in their order: long vectors first, then shorter ones, then the one to three words that may be left. They are explicit,
// since a compiler that is to find vectors itself can fail to where rows stand in a loop, and is then six times slower.
fn add_words(factor: u16, list: &[u16], out: &mut [u16])
    requires same_length { length out.old ≡ length list.now }
    ensures words { out.new ≡ row_sum 65536 factor list.now out.old }
{
    let mut done = add_vectors::<16>(factor, list, out, 0);
    done = add_vectors::<8>(factor, list, out, done);
    done = add_vectors::<4>(factor, list, out, done);
    add_singly(factor, &list[done..], &mut out[done..]);
}

impl RowUnit for WordByWord {
    ghost rows = { λ u. u.served };

    ghost top = { λ u. u.fits };

    fn row(&mut self, factor: u16, list: &[u16], out: &mut [u16]) -> Result<(), RowRefusal> {
        check(list, out)?;
        add_words(factor, list, out);
        self.served = self.served.saturating_add(1);
        Ok(())
    }

    fn count(&self) -> u64 {
        self.served
    }
}
