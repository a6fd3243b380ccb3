//! Rows in no folder.

ghost use Rattle.std.specs.Prelude.{◌≡◌};

use gob_convert::Placer;
use gob_plan::Row;
use std::alloc::AllocError;

/// Places each row in the branch's own folder.
#[derive(Clone, Copy)]
pub struct Plain;

impl Placer for Plain {
    ghost use Rattle.std.specs.Prelude.{[], refl};
    ghost use Rattle.std.proofs.Common.{inl};

    type Rec = Row;

    ghost place = { λ _ _. [] };

    fn push_place(&self, _row: &Row, _into: &mut Vec<u8>) -> Result<(), AllocError> {
        Ok(())
    }

    ghost ends = { λ _ _. inl refl };
}
