//! A job of two branches: one writes CSV, sets rows aside and kills units, and one writes JSON.

use crate::calls::{Case, NO_FAILS};
use crate::files::File;

const JOB: File = (
    "jobs/two.pull",
    &[
        "source.format=csv
source.columns=id:int,name:text
fork.branches=2
qualitychecker.row.policies.0=not eq name bad; not eq name K
qualitychecker.row.policy.types.0=ERR_FILE,FAIL
writer.format.0=csv
writer.format.1=json
task.skip.error.records=1
task.maxretries=1
job.commit.policy=successful
",
    ],
);

const STATE: File = (
    "two/state",
    &[
        "gobblin-state 2
run 1
pipelines 1
pipeline 18
source.format=csv
source.columns=id%3Aint%2Cname%3Atext
source.skip.header=false
converter.classes=
fork.operator.class=all
fork.branches=2
fork.test.0=
converter.classes.0=
qualitychecker.row.policies.0=not%20eq%20name%20bad%3B%20not%20eq%20name%20K
qualitychecker.row.policy.types.0=ERR_FILE%2CFAIL
writer.format.0=csv
writer.placer.0=plain
fork.test.1=
converter.classes.1=
qualitychecker.row.policies.1=
qualitychecker.row.policy.types.1=
writer.format.1=json
writer.placer.1=plain
totals 4 1 3 0
branch 0 2 1 0
branch 1 3 0 0
partition a 10
done 0 10 0
partition b 4
open 0 4
partition c 6
done 0 6 0
end
",
    ],
);

/// Three units: one with a row for the error file, one that is killed, and one with a bad line.
pub(crate) const TWO: Case = Case {
    words: &["run", "two"],
    parts: &[("a", "1,x\n2,bad\n"), ("b", "3,K\n"), ("c", "z\n4,y\n")],
    files: &[JOB],
    fails: NO_FAILS,
    status: 1,
    text: &[
        "job two policy successful
unit a 0 10 committed records 2 bad 0 rows 2 unrouted 0
branch 0 written 1 errors 1 optional 0
branch 1 written 2 errors 0 optional 0
unit b 0 4 failed kill 0 1 0
unit c 0 6 committed records 2 bad 1 rows 1 unrouted 0
branch 0 written 1 errors 0 optional 0
branch 1 written 1 errors 0 optional 0
mark a 10 10
mark b 0 4
mark c 6 6
total records 4 bad 1 rows 3 unrouted 0
total branch 0 written 2 errors 1 optional 0
total branch 1 written 3 errors 0 optional 0
runs 1
status 1
",
    ],
    pulls: &[("a", 0, 10), ("b", 0, 4), ("c", 0, 6)],
    left: &[
        JOB,
        (
            "two/err/0/a@00000000000000000000-00000000000000000010.csv",
            &["2,bad\n"],
        ),
        (
            "two/err/line/c@00000000000000000000-00000000000000000006.raw",
            &["z\n"],
        ),
        (
            "two/out/0/a@00000000000000000000-00000000000000000010.csv",
            &["1,x\n"],
        ),
        (
            "two/out/0/c@00000000000000000000-00000000000000000006.csv",
            &["4,y\n"],
        ),
        (
            "two/out/1/a@00000000000000000000-00000000000000000010.json",
            &[
                "{\"id\":1,\"name\":\"x\"}\n",
                "{\"id\":2,\"name\":\"bad\"}\n",
            ],
        ),
        (
            "two/out/1/c@00000000000000000000-00000000000000000006.json",
            &["{\"id\":4,\"name\":\"y\"}\n"],
        ),
        STATE,
    ],
};
