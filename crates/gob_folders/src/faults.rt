//! Why a call on a folder has no answer.

ghost use Rattle.std.specs.Prelude.{◌≡◌};
ghost use Rattle.gob_folders.specs.declared.faults.FolderFault.TheVariants.{Memory};

use std::alloc::{AllocError, AllocFailed};
use std::io::{self, ErrorKind};
use thiserror::Error;

/// Why a call on a folder has no answer.
#[derive(Clone, Copy, Debug, PartialEq, Eq, Error)]
pub enum FolderFault {
    #[error("the folder failed")]
    Failed,
    #[error("no memory is left")]
    Memory,
}

impl From<io::Error> for FolderFault {
    fn from(error: io::Error) -> Self {
        if error.kind() == ErrorKind::OutOfMemory {
            FolderFault::Memory
        } else {
            FolderFault::Failed
        }
    }
}

impl From<AllocError> for FolderFault {
    ghost from_gives = { λ _ e. e ≡ Memory };

    fn from(_: AllocError) -> Self {
        FolderFault::Memory
    }
}

impl<T: Drop> From<AllocFailed<T>> for FolderFault {
    ghost from_gives = { λ _ e. e ≡ Memory };

    fn from(_: AllocFailed<T>) -> Self {
        FolderFault::Memory
    }
}

/// The answer to a call on a name that may not be there.
pub fn found<T: Drop>(answer: io::Result<T>) -> Result<Option<T>, FolderFault> {
    match answer {
        Ok(value) => Ok(Some(value)),
        Err(e) if e.kind() == ErrorKind::NotFound => Ok(None),
        Err(e) => Err(FolderFault::from(e)),
    }
}
