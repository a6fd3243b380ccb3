//! Calls of the source that fail, and how many looks a cut costs.

use crate::helpers::{Taken, answer, limits, marks, same_text, source};
use std::alloc::Global;
use std::process::Abort;
use std::test::Fail;

/// Two partitions of two lines, calls that fail, what was taken, the limit of bytes, and what is answered.
struct Case {
    fail_lists: &'static [u64],
    fail_looks: &'static [u64],
    taken: &'static [Taken],
    max_bytes: u64,
    wanted: &'static str,
}

const BOTH: &str = "a 0-4 new;b 0-4 new;";

const CASES: [Case; 8] = [
    Case {
        fail_lists: &[0],
        fail_looks: &[],
        taken: &[],
        max_bytes: 100,
        wanted: "failed",
    },
    Case {
        fail_lists: &[1],
        fail_looks: &[],
        taken: &[],
        max_bytes: 100,
        wanted: BOTH,
    },
    Case {
        fail_lists: &[],
        fail_looks: &[0],
        taken: &[],
        max_bytes: 100,
        wanted: "failed",
    },
    Case {
        fail_lists: &[],
        fail_looks: &[1],
        taken: &[],
        max_bytes: 100,
        wanted: "failed",
    },
    // Each cut costs one look.
    Case {
        fail_lists: &[],
        fail_looks: &[2],
        taken: &[],
        max_bytes: 100,
        wanted: BOTH,
    },
    // A partition that didn't grow costs none.
    Case {
        fail_lists: &[],
        fail_looks: &[1],
        taken: &[("a", 4, true)],
        max_bytes: 100,
        wanted: "b 0-4 new;",
    },
    // A line that is longer than the limit costs a look more.
    Case {
        fail_lists: &[],
        fail_looks: &[1],
        taken: &[("a", 4, true)],
        max_bytes: 1,
        wanted: "failed",
    },
    // What is open doesn't come without the list.
    Case {
        fail_lists: &[0],
        fail_looks: &[],
        taken: &[("a", 2, false)],
        max_bytes: 100,
        wanted: "failed",
    },
];

fn check(rt: &impl Abort, alloc: Global, case: &Case) -> Result<(), Fail> {
    let mut source = source(
        alloc,
        &[("a", "1\n2\n"), ("b", "1\n2\n")],
        case.fail_lists,
        case.fail_looks,
    )?;
    let marks = marks(alloc, case.taken)?;
    let limits = limits(alloc, "", case.max_bytes, 100)?;
    let found = answer(alloc, &mut source, &marks, &limits)?;
    same_text(rt, found.as_str(), case.wanted);
    Ok(())
}

#[test]
fn a_call_that_fails_is_answered(rt: HostRuntime) -> Result<(), Fail> {
    for case in &CASES {
        check(&rt, rt.alloc(), case)?;
    }
    Ok(())
}
