// One converter after another of another kind.
ghost use Rattle.std.specs.Prelude.{◌≡◌, true};
ghost use Rattle.gob_convert.specs.Made.{then_each};
ghost use Rattle.gob_convert.specs.Fitting.{all_made-then_each};

use crate::convert::{Convert, ConvertFault, convert_each};
use std::alloc::Global;

/// Two converters of any kinds: the second one converts each record that the first one makes.
#[derive(Drop)]
pub struct Chain<A: Convert, B: Convert<Shape = A::OutShape, Rec = A::Out>> {
    first: A,
    second: B,
    ghost shapes: { ∥ A.out_shape first ≡ B.shape second ∥₁ },
    ghost fit: { (x : A.Out) → A.out_fits (A.out_shape first) x ≡ true → B.fits (B.shape second) x ≡ true },
}

impl<A: Convert, B: Convert<Shape = A::OutShape, Rec = A::Out>> Chain<A, B> {
    pub fn new(first: A, second: B) -> Chain<A, B>
        requires shapes { A.out_shape first ≡ B.shape second }
        requires fit { (x : A.Out) → A.out_fits (A.out_shape first) x ≡ true → B.fits (B.shape second) x ≡ true }
        ensures input { ⟦<Chain<A, B> as Convert>⟧.shape result ≡ A.shape first }
        ensures output { ⟦<Chain<A, B> as Convert>⟧.out_shape result ≡ B.out_shape second }
        ensures made { (x : A.Rec) →
            ⟦<Chain<A, B> as Convert>⟧.made result x ≡ then_each (B.made second) (A.made first x) }
    {
        Chain { first, second }
    }
}

impl<A: Convert, B: Convert<Shape = A::OutShape, Rec = A::Out>> Convert for Chain<A, B> {
    type Shape = A::Shape;

    type OutShape = B::OutShape;

    type Rec = A::Rec;

    type Out = B::Out;

    ghost shape = { λ c. A.shape c.first };

    ghost out_shape = { λ c. B.out_shape c.second };

    ghost fits = { A.fits };

    ghost out_fits = { B.out_fits };

    ghost made = { λ c x. then_each (B.made c.second) (A.made c.first x) };

    fn input(&self) -> &A::Shape {
        self.first.input()
    }

    fn output(&self) -> &B::OutShape {
        self.second.output()
    }

    fn convert(&self, alloc: Global, rec: A::Rec) -> Result<Vec<B::Out>, ConvertFault> {
        let between = self.first.convert(alloc, rec)?;
        convert_each(&self.second, alloc, between)
    }

    ghost keeps = { λ c x fit. all_made-then_each
        (A.out_fits (A.out_shape c.first)) (B.out_fits (B.out_shape c.second)) (B.made c.second)
        (λ y fits_between. B.keeps c.second y (c.fit y fits_between)) (A.made c.first x) (A.keeps c.first x fit) };
}
