//! Why a text has no properties.
ghost use Rattle.std.specs.Prelude.{◌≡◌};

use gob_plan::NoMemory;
use std::alloc::AllocError;
use thiserror::Error;

#[derive(Clone, Copy, Debug, PartialEq, Eq, Error)]
pub enum PropsFault {
    #[error("the file is not UTF-8")]
    NotUtf8,
    /// The number, from 1, of the natural line that begins the first logical line with a malformed escape.
    #[error("an escape is malformed")]
    BadEscape { line: u64 },
    #[error("out of memory")]
    Memory,
}

impl From<NoMemory> for PropsFault {
    ghost use Rattle.gob_props.specs.declared.fault.PropsFault.TheVariants.{Memory};

    ghost from_gives = { λ _ fault. fault ≡ Memory };

    fn from(_error: NoMemory) -> PropsFault {
        PropsFault::Memory
    }
}

impl From<AllocError> for PropsFault {
    ghost use Rattle.gob_props.specs.declared.fault.PropsFault.TheVariants.{Memory};

    ghost from_gives = { λ _ fault. fault ≡ Memory };

    fn from(_error: AllocError) -> PropsFault {
        PropsFault::Memory
    }
}
