//! Small converters of the tests' own, put together in each way, and a placer.
ghost use Rattle.std.specs.Prelude.{◌≡◌, true, ℕ, List, [], ◌∷◌, nat_eq, nat_le, ◌%◌, ◌++◌, ◌⊎◌};
ghost use Rattle.std.specs.Prelude.{cond, codes, IfOk, IfErr, refl};
ghost use Rattle.std.proofs.Common.{inl, inr};
ghost use Rattle.std.proofs.lemmas.Bool.{cond_both};
ghost use Rattle.gob_text_tests.specs.Samples.{divisors_but, divisors_but-fits, both_of, both_of-fits};

use crate::compare::{same_bytes, same_text};
use gob_convert::{Chain, Convert, ConvertFault, Many, Placer};
use std::alloc::{AllocError, Global};
use std::test::Fail;

// The two numbers of a pair that rises, up to a limit.
#[derive(Drop)]
struct Pairs {
    any: (),
    limit: u64,
}

impl Convert for Pairs {
    type Shape = ();

    type OutShape = u64;

    type Rec = (u64, u64);

    type Out = u64;

    ghost shape = { λ c. c.any };

    ghost out_shape = { λ c. c.limit };

    ghost fits = { λ _ _. true };

    ghost out_fits = { λ limit n. nat_le n limit };

    ghost made = { λ c pair. both_of c.limit pair };

    fn input(&self) -> &() {
        &self.any
    }

    fn output(&self) -> &u64 {
        &self.limit
    }

    fn convert(&self, alloc: Global, rec: (u64, u64)) -> Result<Vec<u64>, ConvertFault> {
        let (first, second) = rec;
        if second < first || self.limit < second {
            return Err(ConvertFault::Bad);
        }
        let mut made = Vec::new(alloc);
        if first != second {
            made.push(first)?;
            made.push(second)?;
        }
        Ok(made)
    }

    ghost keeps = { λ c pair _. both_of-fits c.limit pair };
}

// The divisors of a number but itself. Zero is bad, and the number refused.
#[derive(Drop)]
struct Divisors {
    limit: u64,
    refused: u64,
}

impl Convert for Divisors {
    type Shape = u64;

    type OutShape = u64;

    type Rec = u64;

    type Out = u64;

    ghost shape = { λ c. c.limit };

    ghost out_shape = { λ c. c.limit };

    ghost fits = { λ limit n. nat_le n limit };

    ghost out_fits = { λ limit n. nat_le n limit };

    ghost made = { λ c n. divisors_but c.refused n };

    fn input(&self) -> &u64 {
        &self.limit
    }

    fn output(&self) -> &u64 {
        &self.limit
    }

    fn convert(&self, alloc: Global, rec: u64) -> Result<Vec<u64>, ConvertFault> {
        if rec == 0 || rec == self.refused {
            return Err(ConvertFault::Bad);
        }
        let mut made = Vec::new(alloc);
        for k in 1..rec {
            if rec % k == 0 {
                made.push(k)?;
            }
        }
        Ok(made)
    }

    ghost keeps = { λ c n fits. divisors_but-fits c.limit c.refused n fits };
}

// Any converter, through its bound.
fn made_by<C: Convert>(
    converter: &C,
    alloc: Global,
    rec: C::Rec,
) -> Result<Vec<C::Out>, ConvertFault>
    requires { C.fits (C.shape converter.now) rec ≡ true }
    ensures ok { IfOk result (λ v. C.made converter.now rec ≡ Some v.items) }
{
    let made = converter.convert(alloc, rec)?;
    Ok(made)
}

// The folder of even numbers, and no folder for the others.
#[derive(Drop)]
struct EvenApart;

impl Placer for EvenApart {
    type Rec = u64;

    ghost place = { λ _ n. cond (nat_eq (n % 2) 0) (codes "even/") [] };

    fn push_place(&self, rec: &u64, into: &mut Vec<u8>) -> Result<(), AllocError> {
        if *rec % 2 == 0 {
            into.extend_from_slice(b"even/")?;
        }
        Ok(())
    }

    ghost ends = { λ _ n. cond_both (nat_eq (n % 2) 0) (codes "even/") []
        (λ text. (text ≡ []) ⊎ ((front : List ℕ) × (text ≡ front ++ 47 ∷ [])))
        (λ even. inr (codes "even", refl)) (λ odd. inl refl) };
}

fn placed_by<P: Placer>(placer: &P, rec: &P::Rec, into: &mut Vec<u8>) -> Result<(), AllocError> {
    placer.push_place(rec, into)?;
    Ok(())
}

// Four converters of one kind, of which the last one refuses a number.
fn four(alloc: Global, limit: u64, refused: u64) -> Result<Many<Divisors>, AllocError>
    ensures { IfOk result (λ m. ⟦<Many<Divisors> as Convert>⟧.shape m ≡ limit) }
{
    let list = vec![in alloc;
        Divisors { limit, refused: 0 },
        Divisors { limit, refused: 0 },
        Divisors { limit, refused: 0 },
        Divisors { limit, refused },
    ]?;
    Ok(Many::new(list, limit))
}

const LIMIT: u64 = 100;

/// A pair, and what is made of it, as it is printed.
const BY_A_CHAIN: [((u64, u64), &str); 7] = [
    ((5, 5), "Ok([])"),
    ((1, 7), "Ok([1])"),
    ((6, 8), "Ok([1, 2, 3, 1, 2, 4])"),
    ((3, 2), "Err(Bad)"),
    ((6, 101), "Err(Bad)"),
    ((0, 6), "Err(Bad)"),
    ((6, 9), "Err(Bad)"),
];

const BY_FOUR: [(u64, &str); 5] = [
    (1, "Ok([])"),
    (16, "Ok([1])"),
    (32, "Ok([1, 1, 1, 1, 2])"),
    (0, "Err(Bad)"),
    (24, "Err(Bad)"),
];

const BY_A_CHAIN_OF_FOUR: [((u64, u64), &str); 5] = [
    ((5, 5), "Ok([])"),
    ((1, 16), "Ok([1])"),
    ((16, 32), "Ok([1, 1, 1, 1, 1, 2])"),
    ((3, 2), "Err(Bad)"),
    ((16, 24), "Err(Bad)"),
];

fn printed(alloc: Global, made: &Result<Vec<u64>, ConvertFault>) -> Result<String, AllocError> {
    format!(in alloc; "{made:?}")
}

fn rising_pairs() -> Pairs
    ensures { result.limit ≡ LIMIT }
{
    Pairs {
        any: (),
        limit: LIMIT,
    }
}

#[test]
fn a_chain_makes_the_composition(rt: HostRuntime) -> Result<(), Fail> {
    let last = Divisors {
        limit: LIMIT,
        refused: 9,
    };
    let chain = Chain::new(rising_pairs(), last);
    for (pair, wanted) in BY_A_CHAIN {
        let made = made_by(&chain, rt.alloc(), pair);
        same_text(&rt, printed(rt.alloc(), &made)?.as_str(), wanted);
    }
    Ok(())
}

#[test]
fn four_of_one_kind_make_the_composition(rt: HostRuntime) -> Result<(), Fail> {
    let many = four(rt.alloc(), LIMIT, 3)?;
    for (number, wanted) in BY_FOUR {
        assert!(rt; number <= LIMIT);
        let made = made_by(&many, rt.alloc(), number);
        same_text(&rt, printed(rt.alloc(), &made)?.as_str(), wanted);
    }
    Ok(())
}

#[test]
fn no_converter_gives_the_record_as_it_is(rt: HostRuntime) -> Result<(), Fail> {
    let none: Many<Divisors> = Many::new(Vec::new(rt.alloc()), LIMIT);
    let made = made_by(&none, rt.alloc(), 12);
    same_text(&rt, printed(rt.alloc(), &made)?.as_str(), "Ok([12])");
    Ok(())
}

#[test]
fn a_chain_ends_in_many(rt: HostRuntime) -> Result<(), Fail> {
    let chain = Chain::new(rising_pairs(), four(rt.alloc(), LIMIT, 3)?);
    for (pair, wanted) in BY_A_CHAIN_OF_FOUR {
        let made = made_by(&chain, rt.alloc(), pair);
        same_text(&rt, printed(rt.alloc(), &made)?.as_str(), wanted);
    }
    Ok(())
}

#[test]
fn a_placer_appends_a_folder(rt: HostRuntime) -> Result<(), Fail> {
    let mut name = b"out/".to_vec(rt.alloc())?;
    placed_by(&EvenApart, &3, &mut name)?;
    placed_by(&EvenApart, &4, &mut name)?;
    same_bytes(&rt, &name, b"out/even/");
    Ok(())
}
