//! Ranges of a partition's bytes.

use std::marker::Model;

/// The bytes of a partition from `lo` on, below `hi`. Contracts see a `Span`.
#[derive(Clone, Copy, PartialEq, Eq)]
pub struct Range {
    pub lo: u64,
    pub hi: u64,
}

impl Model for Range {
    ghost use Rattle.gob_ledger.specs.Marks.{Span};

    ghost Value = { Span };

    ghost view = { λ r. record { lo = r.lo; hi = r.hi } };

    ghost inverse = { λ s. record { lo = s.lo; hi = s.hi } };
}

/// A range that is done, and the index of the pipeline that made it. Contracts see a `Done` of the ledger.
#[derive(Clone, Copy, PartialEq, Eq)]
pub struct Done {
    pub range: Range,
    pub pipeline: u64,
}

impl Model for Done {
    ghost use Rattle.gob_ledger.specs.Marks as marks;

    ghost Value = { marks.Done };

    ghost view = { λ d. record { span = d.range; pipeline = d.pipeline } };

    ghost inverse = { λ d. record { range = d.span; pipeline = d.pipeline } };
}
