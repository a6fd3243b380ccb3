//! The turns of units, as the source is asked for their bytes.

use crate::calls::{Case, Fails, NO_FAILS, Pull, check};
use crate::files::File;
use crate::plain::{
    BEFORE_POLICIES, BEHIND_POLICIES, FIRST_RUN, LINES, NO_K, NO_K_POLICIES, NO_POLICIES,
};
use std::alloc::Global;
use std::process::Abort;
use std::test::Fail;

const TWO_SLOTS: File = (
    "jobs/j1.pull",
    &[
        LINES,
        "task.slots=2\ntask.schedule=1,0\ntask.piece.bytes=3\n",
    ],
);

const RUN: &[&str] = &["run", "j1"];

const TURNS_TOLD: &[&str] = &[
    "job j1 policy full
unit a 0 8 committed records 4 bad 0 rows 4 unrouted 0
branch 0 written 4 errors 0 optional 0
unit b 0 8 committed records 4 bad 0 rows 4 unrouted 0
branch 0 written 4 errors 0 optional 0
mark a 8 8
mark b 8 8
total records 8 bad 0 rows 8 unrouted 0
total branch 0 written 8 errors 0 optional 0
runs 1
status 0
",
];

const IN_TURNS: &[Pull] = &[
    ("b", 0, 3),
    ("a", 0, 3),
    ("b", 3, 3),
    ("a", 3, 3),
    ("b", 6, 2),
    ("a", 6, 2),
];

/// The second pull of `b` fails. In its next turn `b` begins anew; the turns go on as before.
const ONE_FAILS: &[Pull] = &[
    ("b", 0, 3),
    ("a", 0, 3),
    ("a", 3, 3),
    ("b", 0, 3),
    ("a", 6, 2),
    ("b", 3, 3),
    ("b", 6, 2),
];

const TURNS_LEFT: &[File] = &[
    (
        "j1/out/0/a@00000000000000000000-00000000000000000008.txt",
        &["1\n2\n3\n4\n"],
    ),
    (
        "j1/out/0/b@00000000000000000000-00000000000000000008.txt",
        &["5\n6\n7\n8\n"],
    ),
    (
        "j1/state",
        &[
            FIRST_RUN,
            BEFORE_POLICIES,
            NO_POLICIES,
            BEHIND_POLICIES,
            "totals 8 0 8 0
branch 0 8 0 0
partition a 8
done 0 8 0
partition b 8
done 0 8 0
end
",
        ],
    ),
    TWO_SLOTS,
];

/// Two units at a time, the second one first, in pieces that end in the middle of a line.
fn check_turns(
    rt: &impl Abort,
    alloc: Global,
    fails: Fails<'static>,
    pulls: &'static [Pull],
) -> Result<(), Fail> {
    let case = Case {
        words: RUN,
        parts: &[("a", "1\n2\n3\n4\n"), ("b", "5\n6\n7\n8\n")],
        files: &[TWO_SLOTS],
        fails,
        status: 0,
        text: TURNS_TOLD,
        pulls,
        left: TURNS_LEFT,
    };
    check(rt, alloc, &case)
}

const WITH_A_KILL: File = (
    "jobs/j1.pull",
    &[
        LINES,
        NO_K,
        "job.commit.policy=successful\ntask.slots=2\ntask.schedule=1\ntask.piece.bytes=2\n",
    ],
);

/// A unit that waits takes the slot of one that has ended, behind the units before it. The last unit in its turn is
/// killed by its first line, and the second one isn't pulled.
const ONE_WAITS: Case = Case {
    words: RUN,
    parts: &[("a", "K\nb\n"), ("b", "5\n6\n"), ("c", "7\n")],
    files: &[WITH_A_KILL],
    fails: NO_FAILS,
    status: 1,
    text: &[
        "job j1 policy successful
unit a 0 4 failed kill 0 0 0
unit b 0 4 committed records 2 bad 0 rows 2 unrouted 0
branch 0 written 2 errors 0 optional 0
unit c 0 2 committed records 1 bad 0 rows 1 unrouted 0
branch 0 written 1 errors 0 optional 0
mark a 0 4
mark b 4 4
mark c 2 2
total records 3 bad 0 rows 3 unrouted 0
total branch 0 written 3 errors 0 optional 0
runs 1
status 1
",
    ],
    pulls: &[("b", 0, 2), ("b", 2, 2), ("c", 0, 2), ("a", 0, 2)],
    left: &[
        (
            "j1/out/0/b@00000000000000000000-00000000000000000004.txt",
            &["5\n6\n"],
        ),
        (
            "j1/out/0/c@00000000000000000000-00000000000000000002.txt",
            &["7\n"],
        ),
        (
            "j1/state",
            &[
                FIRST_RUN,
                BEFORE_POLICIES,
                NO_K_POLICIES,
                BEHIND_POLICIES,
                "totals 3 0 3 0
branch 0 3 0 0
partition a 4
open 0 4
partition b 4
done 0 4 0
partition c 2
done 0 2 0
end
",
            ],
        ),
        WITH_A_KILL,
    ],
};

const ONE_RETRY: File = (
    "jobs/j17.pull",
    &[LINES, "task.maxretries=1\njob.commit.policy=successful\n"],
);

const A: File = (
    "j17/out/0/a@00000000000000000000-00000000000000000002.txt",
    &["x\n"],
);

const B: File = (
    "j17/out/0/b@00000000000000000000-00000000000000000002.txt",
    &["x\n"],
);

/// The first pull fails and is made again.
const TRIED_AGAIN: Case = Case {
    words: &["run", "j17"],
    parts: &[("a", "x\n"), ("b", "x\n")],
    files: &[ONE_RETRY],
    fails: Fails {
        pulls: &[0],
        ..NO_FAILS
    },
    status: 0,
    text: &[
        "job j17 policy successful
unit a 0 2 committed records 1 bad 0 rows 1 unrouted 0
branch 0 written 1 errors 0 optional 0
unit b 0 2 committed records 1 bad 0 rows 1 unrouted 0
branch 0 written 1 errors 0 optional 0
mark a 2 2
mark b 2 2
total records 2 bad 0 rows 2 unrouted 0
total branch 0 written 2 errors 0 optional 0
runs 1
status 0
",
    ],
    pulls: &[("a", 0, 2), ("b", 0, 2)],
    left: &[
        A,
        B,
        (
            "j17/state",
            &[
                FIRST_RUN,
                BEFORE_POLICIES,
                NO_POLICIES,
                BEHIND_POLICIES,
                "totals 2 0 2 0
branch 0 2 0 0
partition a 2
done 0 2 0
partition b 2
done 0 2 0
end
",
            ],
        ),
        ONE_RETRY,
    ],
};

/// It fails twice, and its unit is given up.
const GIVEN_UP: Case = Case {
    words: &["run", "j17"],
    parts: &[("a", "x\n"), ("b", "x\n")],
    files: &[ONE_RETRY],
    fails: Fails {
        pulls: &[0, 1],
        ..NO_FAILS
    },
    status: 1,
    text: &[
        "job j17 policy successful
unit a 0 2 failed fault
unit b 0 2 committed records 1 bad 0 rows 1 unrouted 0
branch 0 written 1 errors 0 optional 0
mark a 0 2
mark b 2 2
total records 1 bad 0 rows 1 unrouted 0
total branch 0 written 1 errors 0 optional 0
runs 1
status 1
",
    ],
    pulls: &[("b", 0, 2)],
    left: &[
        B,
        (
            "j17/state",
            &[
                FIRST_RUN,
                BEFORE_POLICIES,
                NO_POLICIES,
                BEHIND_POLICIES,
                "totals 1 0 1 0
branch 0 1 0 0
partition a 2
open 0 2
partition b 2
done 0 2 0
end
",
            ],
        ),
        ONE_RETRY,
    ],
};

const ONE_PULL_FAILS: Fails<'static> = Fails {
    pulls: &[2],
    ..NO_FAILS
};

/// The source is asked as the schedule says, and whatever its order the files are the same.
#[test]
fn pulls_come_by_the_schedule(rt: HostRuntime) -> Result<(), Fail> {
    check_turns(&rt, rt.alloc(), NO_FAILS, IN_TURNS)?;
    check_turns(&rt, rt.alloc(), ONE_PULL_FAILS, ONE_FAILS)
}

#[test]
fn a_unit_that_waits_takes_a_slot_that_is_free(rt: HostRuntime) -> Result<(), Fail> {
    check(&rt, rt.alloc(), &ONE_WAITS)
}

#[test]
fn a_unit_is_tried_again_or_given_up(rt: HostRuntime) -> Result<(), Fail> {
    for case in &[TRIED_AGAIN, GIVEN_UP] {
        check(&rt, rt.alloc(), case)?;
    }
    Ok(())
}
