// Converters of one kind, one after another.
ghost use Rattle.std.specs.Prelude.{◌≡◌, ℕ, List};
ghost use Rattle.std.proofs.Math.Logic.{∥∥₁_elim};
ghost use Rattle.std.proofs.Math.Bool.{Bool-set};
ghost use Rattle.gob_convert.specs.Made.{made_through, shape_through, FitTogether};
ghost use Rattle.gob_convert.specs.Fitting.{all_made-through};

use crate::convert::{Convert, ConvertFault, convert_each};
use std::alloc::Global;

/// Converters of one kind: each next one converts the records that the one before makes. An empty list gives each
/// record as it is. While one record is on its way, a step costs the list that it makes of it and no other.
#[derive(Drop)]
pub struct Many<A: Convert<OutShape = A::Shape, Out = A::Rec>> {
    list: Vec<A>,
    shape: A::Shape,
    ghost follow: { ∥ FitTogether A.shape A.out_shape shape list.items ∥₁ },
    ghost same_ends: { (s : A.Shape) (x : A.Rec) → A.fits s x ≡ A.out_fits s x },
}

impl<A: Convert<OutShape = A::Shape, Out = A::Rec>> Many<A> {
    /// The shape is that of the records that the first converter takes, and of all where the list is empty.
    pub fn new(list: Vec<A>, shape: A::Shape) -> Many<A>
        requires follow { FitTogether A.shape A.out_shape shape list.items }
        requires same_ends { (s : A.Shape) (x : A.Rec) → A.fits s x ≡ A.out_fits s x }
        ensures input { ⟦<Many<A> as Convert>⟧.shape result ≡ shape }
        ensures output { ⟦<Many<A> as Convert>⟧.out_shape result ≡ shape_through A.out_shape shape list.items }
        ensures made { (x : A.Rec) → ⟦<Many<A> as Convert>⟧.made result x ≡ made_through A.made list.items x }
    {
        Many { list, shape }
    }
}

impl<A: Convert<OutShape = A::Shape, Out = A::Rec>> Convert for Many<A> {
    type Shape = A::Shape;

    type OutShape = A::Shape;

    type Rec = A::Rec;

    type Out = A::Rec;

    ghost shape = { λ m. m.shape };

    ghost out_shape = { λ m. shape_through A.out_shape m.shape m.list.items };

    ghost fits = { A.fits };

    ghost out_fits = { A.fits };

    ghost made = { λ m x. made_through A.made m.list.items x };

    fn input(&self) -> &A::Shape {
        &self.shape
    }

    fn output(&self) -> &A::Shape {
        match self.list.split_last() {
            Some((last, _)) => last.output(),
            None => &self.shape,
        }
    }

    fn convert(&self, alloc: Global, rec: A::Rec) -> Result<Vec<A::Rec>, ConvertFault> {
        let Some((first, others)) = self.list.split_first() else {
            let mut whole = Vec::with_capacity(alloc, 1)?;
            whole.push(rec)?;
            return Ok(whole);
        };
        let mut records = first.convert(alloc, rec)?;
        for converter in others {
            records = convert_each(converter, alloc, records)?;
        }
        Ok(records)
    }

    ghost keeps = { λ m x fit. ∥∥₁_elim m.follow (Bool-set _ _) (λ follow.
        all_made-through A.fits A.out_fits m.same_ends A.shape A.out_shape A.made A.keeps m.shape m.list.items follow x
        fit) };
}
