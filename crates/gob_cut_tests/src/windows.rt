//! Lines that are longer than what one look sees.

use crate::helpers::{answer, grow, limits, marks, same_text, source};
use gob_io::MemSource;
use gob_plan::NoMemory;
use std::alloc::Global;
use std::process::Abort;
use std::test::Fail;

/// The lengths of lines with their line feeds, the limit of bytes, and the units.
struct Case {
    lines: &'static [usize],
    max_bytes: u64,
    wanted: &'static str,
}

const CASES: [Case; 8] = [
    Case {
        lines: &[65536, 2],
        max_bytes: 65536,
        wanted: "a 0-65536 new;a 65536-65538 new;",
    },
    Case {
        lines: &[65537, 2],
        max_bytes: 65536,
        wanted: "a 0-65537 new;a 65537-65539 new;",
    },
    Case {
        lines: &[70001, 2],
        max_bytes: 1,
        wanted: "a 0-70001 new;a 70001-70003 new;",
    },
    Case {
        lines: &[70001, 2],
        max_bytes: 70002,
        wanted: "a 0-70001 new;a 70001-70003 new;",
    },
    Case {
        lines: &[70001, 2],
        max_bytes: 70003,
        wanted: "a 0-70003 new;",
    },
    Case {
        lines: &[2, 70001],
        max_bytes: 70002,
        wanted: "a 0-2 new;a 2-70003 new;",
    },
    Case {
        lines: &[2, 140000, 3],
        max_bytes: 140001,
        wanted: "a 0-2 new;a 2-140002 new;a 140002-140005 new;",
    },
    Case {
        lines: &[2, 140000, 3],
        max_bytes: 3,
        wanted: "a 0-2 new;a 2-140002 new;a 140002-140005 new;",
    },
];

/// Adds a line of so many bytes.
fn add_line(alloc: Global, source: &mut MemSource, len: usize) -> Result<(), NoMemory> {
    if len > 0 {
        let before = vec![in alloc; b'x'; len - 1]?;
        grow(source, "a", before.as_slice())?;
        grow(source, "a", b"\n")?;
    }
    Ok(())
}

fn check(rt: &impl Abort, alloc: Global, case: &Case) -> Result<(), Fail> {
    let mut source = source(alloc, &[], &[], &[])?;
    for len in case.lines {
        add_line(alloc, &mut source, *len)?;
    }
    let marks = marks(alloc, &[])?;
    let limits = limits(alloc, "", case.max_bytes, 100)?;
    let found = answer(alloc, &mut source, &marks, &limits)?;
    same_text(rt, found.as_str(), case.wanted);
    Ok(())
}

#[test]
fn lines_may_be_longer_than_a_look(rt: HostRuntime) -> Result<(), Fail> {
    for case in &CASES {
        check(&rt, rt.alloc(), case)?;
    }
    Ok(())
}
