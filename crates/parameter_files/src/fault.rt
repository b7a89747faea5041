// Why a parameter file gives nothing.

use arm_value::{JsonFault, OutOfMemory};
use std::alloc::AllocError;
use thiserror::Error;

/// Why a parameter file gives nothing.
#[derive(Clone, Copy, Debug, Error, PartialEq, Eq)]
pub enum ParameterFault {
    /// There is no such file.
    #[error("no such file")]
    Missing,
    /// The file has more than 4,194,304 bytes.
    #[error("above 4194304 bytes")]
    TooLarge,
    /// The bytes are no JSON text.
    #[error("no JSON text")]
    NotJson,
    /// The JSON value nests above 120.
    #[error("nested above 120")]
    TooDeep,
    /// A number of it is no whole number of 64 bits.
    #[error("a number that is not whole")]
    NotWhole,
    /// It has no member `parameters` of the form `{"NAME": {"value": VALUE}}`.
    #[error("no member `parameters` of names with values")]
    WrongForm,
    /// The file could not be read.
    #[error("the file could not be read")]
    Fault,
    /// Out of memory.
    #[error("out of memory")]
    OutOfMemory,
}
