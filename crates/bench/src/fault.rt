// What can go wrong.
use scheme::Refusal;
use std::io;
use thiserror::Error;

#[derive(Debug, Drop, Error)]
pub(crate) enum Fault {
    #[error("bench: refused {number}, where it should be served", number = .0.number())]
    Refused(#[from] Refusal),
    #[error("bench: {0}")]
    Io(#[from] io::Error),
}
