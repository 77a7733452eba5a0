// Arithmetic: coefficients, polynomials over any commutative ring or field, row units, products and inverses. Polynomials are slices of
// coefficients, lowest first. Nothing allocates.
#![tactic(auto)]

mod bit;
mod cyclic;
mod digit;
mod division;
mod inverse;
mod loops;
mod newton;
mod product;
mod rings;
mod rows;
mod word;
mod word_inverse;

pub use bit::Bit;
pub use cyclic::{WrongLength, subtract_last, times_phi1};
pub use digit::Digit;
pub use division::divide;
pub use inverse::inverse_mod_phi;
pub use loops::convert;
pub use product::{Room, multiply, products_hold};
pub use rings::{Field, Ring};
pub use rows::halving::Halving;
pub use rows::word_by_word::WordByWord;
pub use rows::{RowRefusal, RowUnit, worked_row_holds};
pub use word_inverse::inverse_of_words;
