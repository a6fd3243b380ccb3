//! Units that are cut into pieces in each way.

use crate::bench::Bench;
use std::alloc::{AllocError, Global};
use std::process::Abort;
use std::test::Fail;

/// The bytes of a unit, what they send, and what they count or why they stop. `~` stands for a byte that no text has.
pub(crate) type Case = (&'static str, &'static str, &'static str);

/// Where pieces end.
#[derive(Clone, Copy)]
enum Cut {
    Nowhere,
    Bytes,
    /// Behind each byte, and pieces without bytes stand between.
    EmptyPieces,
    Lines,
    CarriageReturns,
    /// Each 997 bytes long.
    Long,
    /// Behind the byte at this place.
    Behind(usize),
}

const CUTS: [Cut; 6] = [
    Cut::Nowhere,
    Cut::Bytes,
    Cut::EmptyPieces,
    Cut::Lines,
    Cut::CarriageReturns,
    Cut::Long,
];

impl Cut {
    fn ends(self, at: usize, byte: u8) -> bool {
        match self {
            Cut::Nowhere => false,
            Cut::Bytes | Cut::EmptyPieces => true,
            Cut::Lines => byte == b'\n',
            Cut::CarriageReturns => byte == b'\r',
            Cut::Long => at % 997 == 996,
            Cut::Behind(place) => at == place,
        }
    }
}

pub(crate) fn same_bytes(rt: &impl Abort, found: &[u8], wanted: &[u8]) {
    assert_eq!(rt; found, wanted);
}

fn feed_cut(rt: &impl Abort, bench: &mut Bench, bytes: &[u8], cut: Cut) -> Result<(), Fail> {
    let mut piece = Vec::new(bench.alloc());
    for (at, byte) in bytes.iter().enumerate() {
        if let Cut::EmptyPieces = cut {
            bench.feed(rt, b"")?;
        }
        piece.push(*byte)?;
        if cut.ends(at, *byte) {
            bench.feed(rt, piece.as_slice())?;
            piece.clear();
        }
    }
    bench.feed(rt, piece.as_slice())
}

/// A unit: where it begins, its bytes, what they send, and what they count or why they stop.
#[derive(Drop)]
pub(crate) struct Unit {
    pub(crate) lo: u64,
    pub(crate) bytes: Vec<u8>,
    pub(crate) sent: Vec<u8>,
    pub(crate) end: &'static str,
}

fn bytes_of(alloc: Global, text: &str) -> Result<Vec<u8>, AllocError> {
    let mut bytes = Vec::new(alloc);
    for byte in text.as_bytes() {
        bytes.push(if *byte == b'~' { 0xff } else { *byte })?;
    }
    Ok(bytes)
}

fn unit_of(alloc: Global, lo: u64, case: &Case) -> Result<Unit, AllocError> {
    let bytes = bytes_of(alloc, case.0)?;
    let sent = bytes_of(alloc, case.1)?;
    Ok(Unit {
        lo,
        bytes,
        sent,
        end: case.2,
    })
}

fn is_so(rt: &impl Abort, bench: &mut Bench, unit: &Unit, cut: Cut) -> Result<(), Fail> {
    bench.start(unit.lo)?;
    feed_cut(rt, bench, unit.bytes.as_slice(), cut)?;
    same_bytes(rt, bench.sent()?.as_slice(), unit.sent.as_slice());
    same_bytes(rt, bench.end()?.as_slice(), unit.end.as_bytes());
    assert!(rt; bench.seen() == unit.bytes.len() as u64);
    Ok(())
}

// The unit comes to what it says, whole and in pieces of each kind.
fn is_so_in_each_cut(rt: &impl Abort, bench: &mut Bench, unit: &Unit) -> Result<(), Fail> {
    for cut in CUTS {
        is_so(rt, bench, unit, cut)?;
    }
    Ok(())
}

// Also in two pieces that are parted behind any byte.
fn is_always_so(rt: &impl Abort, bench: &mut Bench, unit: &Unit) -> Result<(), Fail> {
    is_so_in_each_cut(rt, bench, unit)?;
    for at in 0..unit.bytes.len() {
        is_so(rt, bench, unit, Cut::Behind(at))?;
    }
    Ok(())
}

fn each_on(
    rt: &impl Abort,
    bench: &mut Bench,
    lo: u64,
    cases: &[Case],
    unit: Option<&Unit>,
) -> Result<(), Fail> {
    for case in cases {
        let unit = unit_of(bench.alloc(), lo, case)?;
        is_always_so(rt, bench, &unit)?;
    }
    match unit {
        Some(unit) => is_so_in_each_cut(rt, bench, unit),
        None => Ok(()),
    }
}

// The one function that owns a bench.
fn on_a_bench(
    rt: &impl Abort,
    alloc: Global,
    job: &str,
    lo: u64,
    cases: &[Case],
    unit: Option<&Unit>,
) -> Result<(), Fail> {
    let mut bench = Bench::new(alloc, job)?;
    each_on(rt, &mut bench, lo, cases, unit)
}

/// Each unit of the job that begins here comes to what its case says, whatever pieces it is cut into.
pub(crate) fn each_is_so(
    rt: &impl Abort,
    alloc: Global,
    job: &str,
    lo: u64,
    cases: &[Case],
) -> Result<(), Fail> {
    on_a_bench(rt, alloc, job, lo, cases, None)
}

/// A long unit of the job comes to what it says, whole and in pieces of each kind.
pub(crate) fn long_is_so(
    rt: &impl Abort,
    alloc: Global,
    job: &str,
    unit: &Unit,
) -> Result<(), Fail> {
    on_a_bench(rt, alloc, job, unit.lo, &[], Some(unit))
}
