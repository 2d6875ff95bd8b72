// Why there is no report.
use crate::settings_file::Fault;
use std::alloc::{AllocError, AllocFailed};
use std::fmt;
use terms::Refusal;

#[derive(Clone, Copy)]
pub enum Error<'a> {
    Settings(Fault<'a>),
    Image(Refusal),
    OutOfMemory,
}

impl fmt::Display for Error<'_> {
    fn fmt<W: fmt::Write>(&self, f: &mut fmt::Formatter<W>) -> fmt::Result {
        match self {
            Error::Settings(fault) => write!(f, "{fault}"),
            Error::Image(refusal) => write!(f, "{refusal}"),
            Error::OutOfMemory => write!(f, "out of memory"),
        }
    }
}

impl<'a> From<Fault<'a>> for Error<'a> {
    fn from(fault: Fault<'a>) -> Error<'a> {
        Error::Settings(fault)
    }
}

impl From<Refusal> for Error<'_> {
    fn from(refusal: Refusal) -> Self {
        Error::Image(refusal)
    }
}

impl From<AllocError> for Error<'_> {
    fn from(_error: AllocError) -> Self {
        Error::OutOfMemory
    }
}

impl<T: Drop> From<AllocFailed<T>> for Error<'_> {
    fn from(_error: AllocFailed<T>) -> Self {
        Error::OutOfMemory
    }
}
