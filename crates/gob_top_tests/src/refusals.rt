//! Refusals in their order, and what each leaves. Where one is due, what would be refused later is wrong as well.

use crate::calls::{Case, Fails, NO_FAILS, Part, check};
use crate::files::File;
use crate::plain::{BEFORE_POLICIES, BEHIND_POLICIES, FIRST_RUN, LINES, NO_POLICIES};
use std::alloc::Global;
use std::process::Abort;
use std::test::Fail;

const JOB: File = ("jobs/j1.pull", &[LINES]);

const PUBLISHED: File = (
    "j1/out/0/a.log@00000000000000000000-00000000000000000004.txt",
    &["x\ny\n"],
);

const STAGED: File = (
    "j1/stage/0-0/out/0/a.log@00000000000000000000-00000000000000000004.txt",
    &["x\ny\n"],
);

/// What a run left that was stopped.
const LEFT_OVER: File = ("j1/stage/9-0/out/0/a", &["left"]);

/// A state of the first version, as a run would have it after two lines, but for its last line.
const FIRST_LINES: &str = "gobblin-state 1\nrun 1\n";

const LAST_LINES: &str = "totals 2 0 2 0\nbranch 0 2 0 0\npartition a.log 4\ndone 0 4\n";

const WHOLE_STATE: &[&str] = &[
    FIRST_LINES,
    BEFORE_POLICIES,
    NO_POLICIES,
    BEHIND_POLICIES,
    LAST_LINES,
    "end\n",
];

const STATE: File = ("j1/state", WHOLE_STATE);

const STAGED_STATE: File = ("j1/stage/state", WHOLE_STATE);

const DAMAGED_STATE: File = (
    "j1/state",
    &[
        FIRST_LINES,
        BEFORE_POLICIES,
        NO_POLICIES,
        BEHIND_POLICIES,
        LAST_LINES,
        "enx\n",
    ],
);

/// It tells two steps and has none.
const DAMAGED_SEQUENCE: File = ("j1/seq", &["gobblin-sequence 1\nend 2\n"]);

const FILE_MOVE: &str = "gobblin-sequence 1
move j1/stage/0-0/out/0/a.log@00000000000000000000-00000000000000000004.txt ";

const FILE_MOVED: &str = "j1/out/0/a.log@00000000000000000000-00000000000000000004.txt\n";

/// It moves the published file.
const SEQUENCE: File = ("j1/seq", &[FILE_MOVE, FILE_MOVED, "end 1\n"]);

/// It moves the published file and the state.
const FULL_SEQUENCE: File = (
    "j1/seq",
    &[
        FILE_MOVE,
        FILE_MOVED,
        "move j1/stage/state j1/state\nend 2\n",
    ],
);

/// The source must not be asked for its partitions: it would fail.
const UNASKED: Fails<'static> = Fails {
    lists: &[0],
    ..NO_FAILS
};

/// A call that doesn't ask for the source: what it finds, and what it is to answer and to leave.
struct Call {
    words: &'static [&'static str],
    files: &'static [File],
    status: u8,
    text: &'static [&'static str],
    left: &'static [File],
}

fn check_call(rt: &impl Abort, alloc: Global, call: &Call) -> Result<(), Fail> {
    let case = Case {
        words: call.words,
        parts: &[("a.log", "x\ny\n")],
        files: call.files,
        fails: UNASKED,
        status: call.status,
        text: call.text,
        pulls: &[],
        left: call.left,
    };
    check(rt, alloc, &case)
}

const RUN: &[&str] = &["run", "j1"];

/// A job file that is refused twice over.
const BAD_JOB: File = ("jobs/j1.pull", &["writer.format=lines\nx=\\u00zz\n"]);

const UNSOUND: &[File] = &[DAMAGED_SEQUENCE, LEFT_OVER, DAMAGED_STATE, BAD_JOB];

const USAGE: Call = Call {
    words: &["run", "j1", "j1"],
    files: UNSOUND,
    status: 2,
    text: &[
        "usage: run JOB, recover JOB, report JOB, check JOB, drill N, drill N stops
status 2
",
    ],
    left: UNSOUND,
};

const WITHOUT_JOB: &[File] = &[DAMAGED_SEQUENCE, LEFT_OVER, DAMAGED_STATE];

const NO_JOB: Call = Call {
    words: RUN,
    files: WITHOUT_JOB,
    status: 3,
    text: &["refused no-job\nstatus 3\n"],
    left: WITHOUT_JOB,
};

/// The text is read before its keys.
const BAD_ESCAPE: Call = Call {
    words: RUN,
    files: UNSOUND,
    status: 3,
    text: &["refused bad-escape 2\nstatus 3\n"],
    left: UNSOUND,
};

const BAD_KEY_JOB: File = (
    "jobs/j1.pull",
    &["writer.format=lines\nsource.class=jdbc\n"],
);

const WITH_BAD_KEY: &[File] = &[DAMAGED_SEQUENCE, LEFT_OVER, DAMAGED_STATE, BAD_KEY_JOB];

const BAD_KEY_TOLD: &[&str] = &["refused bad-value source.class\nstatus 3\n"];

/// The class is read before the format, which is missing.
const BAD_KEY: Call = Call {
    words: RUN,
    files: WITH_BAD_KEY,
    status: 3,
    text: BAD_KEY_TOLD,
    left: WITH_BAD_KEY,
};

const SEQUENCE_IS_DAMAGED: &[File] = &[DAMAGED_SEQUENCE, LEFT_OVER, DAMAGED_STATE, JOB];

const BAD_SEQUENCE_TOLD: &[&str] = &["refused damaged j1/seq\nstatus 4\n"];

const BAD_SEQUENCE: Call = Call {
    words: RUN,
    files: SEQUENCE_IS_DAMAGED,
    status: 4,
    text: BAD_SEQUENCE_TOLD,
    left: SEQUENCE_IS_DAMAGED,
};

const SOURCE_IS_LOST: &[File] = &[SEQUENCE, LEFT_OVER, DAMAGED_STATE, JOB];

/// Neither name of the move is there.
const LOST: Call = Call {
    words: RUN,
    files: SOURCE_IS_LOST,
    status: 4,
    text: &[
        "refused damaged j1/stage/0-0/out/0/a.log@00000000000000000000-00000000000000000004.txt
status 4
",
    ],
    left: SOURCE_IS_LOST,
};

const BAD_STATE_TOLD: &[&str] = &["refused damaged j1/state\nstatus 4\n"];

/// The sequence is done first.
const BAD_STATE: Call = Call {
    words: RUN,
    files: &[SEQUENCE, STAGED, LEFT_OVER, DAMAGED_STATE, JOB],
    status: 4,
    text: BAD_STATE_TOLD,
    left: &[PUBLISHED, DAMAGED_STATE, JOB],
};

const BASE: File = (
    "j1/state",
    &[
        FIRST_RUN,
        BEFORE_POLICIES,
        NO_POLICIES,
        BEHIND_POLICIES,
        "totals 1 0 1 0\nbranch 0 1 0 0\npartition a.log 2\ndone 0 2 0\nend\n",
    ],
);

const DAMAGED_CHANGE: File = (
    "j1/delta/00000000000000000002",
    &[
        "gobblin-delta 2
run 2
pipelines 0
totals 2 0 2 0
branch 0 2 0 0
partition a.log 4
done 2 4 0
enx
",
    ],
);

const BAD_CHANGE: Call = Call {
    words: RUN,
    files: &[DAMAGED_CHANGE, LEFT_OVER, BASE, JOB],
    status: 4,
    text: &["refused damaged j1/delta/00000000000000000002\nstatus 4\n"],
    left: &[DAMAGED_CHANGE, BASE, JOB],
};

/// The words, and the job's file.
const ASKED: [Call; 4] = [USAGE, NO_JOB, BAD_ESCAPE, BAD_KEY];

/// What the job's folder holds.
const KEPT: [Call; 4] = [BAD_SEQUENCE, LOST, BAD_STATE, BAD_CHANGE];

// Of several causes the first is told, and each leaves the files as they were or as settling leaves them.

#[test]
fn a_run_is_refused_for_its_words_or_its_job(rt: HostRuntime) -> Result<(), Fail> {
    for call in &ASKED {
        check_call(&rt, rt.alloc(), call)?;
    }
    Ok(())
}

#[test]
fn a_run_is_refused_for_files_that_cannot_be_read(rt: HostRuntime) -> Result<(), Fail> {
    for call in &KEPT {
        check_call(&rt, rt.alloc(), call)?;
    }
    Ok(())
}

// What the source holds, and devices that fail

const STOPPED: &[File] = &[FULL_SEQUENCE, STAGED, LEFT_OVER, STAGED_STATE, JOB];

const SETTLED: &[File] = &[PUBLISHED, STATE, JOB];

const GROWN: &[Part] = &[("a.log", "x\ny\nz\n")];

/// A run that settles what a stopped one left before it asks for the source.
fn check_settled(
    rt: &impl Abort,
    alloc: Global,
    parts: &'static [Part],
    fails: Fails<'static>,
    status: u8,
    text: &'static [&'static str],
) -> Result<(), Fail> {
    let case = Case {
        words: RUN,
        parts,
        files: STOPPED,
        fails,
        status,
        text,
        pulls: &[],
        left: SETTLED,
    };
    check(rt, alloc, &case)
}

/// The state that the sequence stores has taken four bytes.
#[test]
fn a_run_is_refused_for_a_source_that_shrank(rt: HostRuntime) -> Result<(), Fail> {
    let text = &["refused shrunk a.log 4 2\nstatus 4\n"];
    check_settled(&rt, rt.alloc(), &[("a.log", "x\n")], NO_FAILS, 4, text)
}

const NO_LOOK: Fails<'static> = Fails {
    looks: &[0],
    ..NO_FAILS
};

/// The source tells neither its partitions nor what one holds.
#[test]
fn a_run_is_refused_for_a_source_that_fails(rt: HostRuntime) -> Result<(), Fail> {
    for fails in [UNASKED, NO_LOOK] {
        let text = &["refused source-fault\nstatus 5\n"];
        check_settled(&rt, rt.alloc(), GROWN, fails, 5, text)?;
    }
    Ok(())
}

const NO_READ: Fails<'static> = Fails {
    volume: &[0],
    ..NO_FAILS
};

/// The first call of the volume fails.
fn check_no_read(
    rt: &impl Abort,
    alloc: Global,
    words: &'static [&'static str],
) -> Result<(), Fail> {
    let case = Case {
        words,
        parts: GROWN,
        files: STOPPED,
        fails: NO_READ,
        status: 6,
        text: &["refused volume-fault\nstatus 6\n"],
        pulls: &[],
        left: STOPPED,
    };
    check(rt, alloc, &case)
}

#[test]
fn each_command_is_refused_for_a_volume_that_fails(rt: HostRuntime) -> Result<(), Fail> {
    for words in [RUN, RECOVER, REPORT, CHECK] {
        check_no_read(&rt, rt.alloc(), words)?;
    }
    Ok(())
}

// The other commands ask neither for the source nor, but for a check, for the job's file.

const RECOVER: &[&str] = &["recover", "j1"];

const REPORT: &[&str] = &["report", "j1"];

const CHECK: &[&str] = &["check", "j1"];

const RECOVER_BAD_SEQUENCE: Call = Call {
    words: RECOVER,
    files: UNSOUND,
    status: 4,
    text: BAD_SEQUENCE_TOLD,
    left: UNSOUND,
};

/// A recovery reads no state.
const RECOVER_BAD_STATE: Call = Call {
    words: RECOVER,
    files: &[LEFT_OVER, DAMAGED_STATE, BAD_JOB],
    status: 0,
    text: &["recovered j1 sequence none\nstatus 0\n"],
    left: &[DAMAGED_STATE, BAD_JOB],
};

const RECOVER_STOPPED: Call = Call {
    words: RECOVER,
    files: STOPPED,
    status: 0,
    text: &["recovered j1 sequence open\nstatus 0\n"],
    left: SETTLED,
};

const REPORT_BAD_STATE: Call = Call {
    words: REPORT,
    files: &[LEFT_OVER, DAMAGED_STATE, BAD_JOB],
    status: 4,
    text: BAD_STATE_TOLD,
    left: &[DAMAGED_STATE, BAD_JOB],
};

const REPORT_STOPPED: Call = Call {
    words: REPORT,
    files: STOPPED,
    status: 0,
    text: &[
        "job j1
mark a.log 4 4
pipeline 0 ranges 1
total records 2 bad 0 rows 2 unrouted 0
total branch 0 written 2 errors 0 optional 0
runs 1
status 0
",
    ],
    left: SETTLED,
};

const REPORT_NOTHING: Call = Call {
    words: REPORT,
    files: &[LEFT_OVER],
    status: 0,
    text: &[
        "job j1
total records 0 bad 0 rows 0 unrouted 0
runs 0
status 0
",
    ],
    left: &[],
};

/// A check settles nothing.
const CHECK_UNSETTLED: Call = Call {
    words: CHECK,
    files: SEQUENCE_IS_DAMAGED,
    status: 0,
    text: &["job j1 ok\nbranch 0 lines line:text\nstatus 0\n"],
    left: SEQUENCE_IS_DAMAGED,
};

const CHECK_BAD_KEY: Call = Call {
    words: CHECK,
    files: WITH_BAD_KEY,
    status: 3,
    text: BAD_KEY_TOLD,
    left: WITH_BAD_KEY,
};

const RECOVERIES: [Call; 3] = [RECOVER_BAD_SEQUENCE, RECOVER_BAD_STATE, RECOVER_STOPPED];

const REPORTS: [Call; 3] = [REPORT_BAD_STATE, REPORT_STOPPED, REPORT_NOTHING];

const CHECKS: [Call; 2] = [CHECK_UNSETTLED, CHECK_BAD_KEY];

#[test]
fn a_recovery_settles_or_changes_nothing(rt: HostRuntime) -> Result<(), Fail> {
    for call in &RECOVERIES {
        check_call(&rt, rt.alloc(), call)?;
    }
    Ok(())
}

#[test]
fn a_report_settles_or_changes_nothing(rt: HostRuntime) -> Result<(), Fail> {
    for call in &REPORTS {
        check_call(&rt, rt.alloc(), call)?;
    }
    Ok(())
}

#[test]
fn a_check_changes_nothing(rt: HostRuntime) -> Result<(), Fail> {
    for call in &CHECKS {
        check_call(&rt, rt.alloc(), call)?;
    }
    Ok(())
}
