// What can go wrong beside a refusal.
use std::alloc::AllocError;
use std::io;
use thiserror::Error;

const NO_CASE: &str =
    "a line is no case; a case is 'make SET COINS', 'seal SET CARD COINS', 'open SET CARD RECORD' or 'test SET CARD', and but for test a length may follow";

#[derive(Debug, Drop, Error)]
pub(crate) enum Fault {
    // A line that is no case.
    #[error("vectors: {text}", text = NO_CASE)]
    Line,
    #[error("vectors: {0}")]
    Io(#[from] io::Error),
    #[error("vectors: there is not enough memory")]
    NoMemory(#[from(alloc)] AllocError),
}
