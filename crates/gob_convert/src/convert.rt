// What a converter is, and one converter over a list of records.
ghost use Rattle.std.specs.Prelude.{◌≡◌, Bool, true, None, Some, ◌++◌, IfOk, IfErr};
ghost use Rattle.std.specs.List.{list_all};
ghost use Rattle.gob_convert.specs.Made.{Made, made_each, all_made};

use gob_plan::NoMemory;
use std::alloc::{AllocError, AllocFailed, Global};
use thiserror::Error;

/// Why a record wasn't converted.
#[derive(Clone, Copy, Debug, Drop, PartialEq, Eq, Error)]
pub enum ConvertFault {
    #[error("a record is bad")]
    Bad,
    #[error("out of memory")]
    Memory,
}

impl From<NoMemory> for ConvertFault {
    ghost use Rattle.gob_convert.specs.declared.convert.ConvertFault.{ConvertFault};

    ghost from_gives = { λ _ e. e ≡ ConvertFault.Memory };

    fn from(_e: NoMemory) -> ConvertFault {
        ConvertFault::Memory
    }
}

impl From<AllocError> for ConvertFault {
    ghost use Rattle.gob_convert.specs.declared.convert.ConvertFault.{ConvertFault};

    ghost from_gives = { λ _ e. e ≡ ConvertFault.Memory };

    fn from(_e: AllocError) -> ConvertFault {
        ConvertFault::Memory
    }
}

impl<T: Drop> From<AllocFailed<T>> for ConvertFault {
    ghost use Rattle.gob_convert.specs.declared.convert.ConvertFault.{ConvertFault};

    ghost from_gives = { λ _ e. e ≡ ConvertFault.Memory };

    fn from(_e: AllocFailed<T>) -> ConvertFault {
        ConvertFault::Memory
    }
}

/// A converter of records. It was made for one shape of records; `output` tells the shape of those that it makes.
pub trait Convert {
    type Shape: Drop;

    type OutShape: Drop;

    type Rec: Drop;

    type Out: Drop;

    ghost shape: { Self → Self.Shape };

    ghost out_shape: { Self → Self.OutShape };

    // which records fit a shape, at either end
    ghost fits: { Self.Shape → Self.Rec → Bool };

    ghost out_fits: { Self.OutShape → Self.Out → Bool };

    // what is made of a record
    ghost made: { Self → Self.Rec → Made Self.Out };

    /// The shape of the records that it takes.
    fn input(&self) -> &Self::Shape
        ensures { result.now ≡ shape self.now };

    /// The shape of the records that it makes.
    fn output(&self) -> &Self::OutShape
        ensures { result.now ≡ out_shape self.now };

    /// Makes its list of a record, whole or not at all.
    fn convert(&self, alloc: Global, rec: Self::Rec) -> Result<Vec<Self::Out>, ConvertFault>
        requires { fits (shape self.now) rec ≡ true }
        ensures ok { IfOk result (λ v. made self.now rec ≡ Some v.items) }
        ensures bad { IfErr result (λ e. e ≡ ConvertFault.Bad → made self.now rec ≡ None) };

    // every record made fits the output
    ghost keeps: { (c : Self) (x : Self.Rec) → fits (shape c) x ≡ true →
        all_made (out_fits (out_shape c)) (made c x) ≡ true };
}

// Converts each record of a list. The first list that isn't empty takes the others in, so nothing is copied where one
// record makes all there is.
pub fn convert_each<C: Convert>(
    converter: &C,
    alloc: Global,
    records: Vec<C::Rec>,
) -> Result<Vec<C::Out>, ConvertFault>
    requires { list_all (C.fits (C.shape converter.now)) records.items ≡ true }
    ensures ok { IfOk result (λ v. made_each (C.made converter.now) records.items ≡ Some v.items) }
    ensures bad { IfErr result (λ e. e ≡ ConvertFault.Bad → made_each (C.made converter.now) records.items ≡ None) }
{
    let mut made = Vec::new(alloc);
    for record in records {
        let more = converter.convert(alloc, record)?;
        made = appended(made, more)?;
    }
    Ok(made)
}

// One list after the other.
fn appended<T: Drop>(front: Vec<T>, back: Vec<T>) -> Result<Vec<T>, ConvertFault>
    ensures ok { IfOk result (λ v. v.items ≡ front.items ++ back.items) }
    ensures memory { IfErr result (λ e. e ≡ ConvertFault.Memory) }
{
    if front.is_empty() {
        return Ok(back);
    }
    let mut front = front;
    let mut back = back;
    front.append(&mut back)?;
    Ok(front)
}
