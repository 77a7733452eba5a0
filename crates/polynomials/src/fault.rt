// What can go wrong.
use arithmetic::{RowRefusal, WrongLength};
use std::alloc::AllocError;
use std::io;
use thiserror::Error;

#[derive(Debug, Drop, Error)]
pub(crate) enum Fault {
    #[error("polynomials: refused {number}: a row of a length that no row unit serves", number = .0.number())]
    Row(#[from] RowRefusal),
    #[error("polynomials: two lists of a call differ in length")]
    Length(#[from] WrongLength),
    // A polynomial that should have an inverse has none.
    #[error("polynomials: no inverse where there should be one")]
    NoInverse,
    // Multiplying back did not give 1.
    #[error("polynomials: an inverse did not multiply back to 1")]
    WrongInverse,
    #[error("polynomials: {0}")]
    Io(#[from] io::Error),
    #[error("polynomials: there is not enough memory")]
    NoMemory(#[from(alloc)] AllocError),
}
