//! Why a text is no suite.
ghost use Rattle.std.specs.Prelude.{◌≡◌};
ghost use Rattle.suite_file.specs.declared.fault.SuiteFault.TheVariants.{Memory};

use std::alloc::{AllocError, AllocFailed};
use thiserror::Error;

/// Where in a suite.
#[derive(Clone, Copy, Debug, PartialEq, Eq, Error)]
pub enum Place {
    /// Above the checks.
    #[error("the suite")]
    Defaults,
    /// In a check, counted from 1.
    #[error("check {0}")]
    Check(usize),
}

/// Why a text is no suite: the first reason, from the text's form to the checks in their order.
#[derive(Debug, Drop, Error)]
pub enum SuiteFault {
    /// The text is not TOML.
    #[error("{0}")]
    NotToml(toml::de::Error),
    /// A key that has no meaning there: of several the first in the order of their bytes.
    #[error("{place}: unknown key `{key}`")]
    UnknownKey { place: Place, key: String },
    /// A value is of another type than its key asks for.
    #[error("{place}: `{key}` is of the wrong type")]
    WrongType { place: Place, key: &'static str },
    /// A check lacks a key that it needs.
    #[error("{place}: no `{key}`")]
    Missing { place: Place, key: &'static str },
    /// There is no check.
    #[error("the suite has no check")]
    Empty,
    /// An earlier check has the same name.
    #[error("two checks have the name `{0}`")]
    RepeatedName(String),
    /// Memory ran out, which says nothing of the text.
    #[error("out of memory")]
    Memory,
}

impl From<AllocError> for SuiteFault {
    ghost from_gives = { λ _ e. e ≡ Memory };

    fn from(_error: AllocError) -> SuiteFault {
        SuiteFault::Memory
    }
}

impl<T: Drop> From<AllocFailed<T>> for SuiteFault {
    ghost from_gives = { λ _ e. e ≡ Memory };

    fn from(_error: AllocFailed<T>) -> SuiteFault {
        SuiteFault::Memory
    }
}
