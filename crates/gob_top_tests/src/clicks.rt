//! The job of a web tier: rows of failures go to one branch, which writes CSV, and all others to one that writes JSON.

use crate::calls::{Case, NO_FAILS, Part, Pull};
use crate::files::File;

const JOB_TEXT: &str = "# Clicks of the web tier
job.name=clicks
source.class=files
source.format=json
source.columns=ip:text, path:text, \\
    status:int
! two branches
fork.operator.class = first
fork.branches : 2
fork.test.0=ge status 400
fork.test.1=not null status
converter.classes.0=keep status path
writer.format.0=csv
writer.format.1=json
qualitychecker.row.policies.0=lt status 500
qualitychecker.row.policy.types.0=OPTIONAL
qualitychecker.task.policies=range records 1 1000
qualitychecker.task.policy.types=FAIL
job.commit.policy=successful
data.publisher.final.dir=${env:OUT}
";

const JOB: File = ("jobs/clicks.pull", &[JOB_TEXT]);

const JOB_BY_DATASET: File = (
    "jobs/clicks.pull",
    &[JOB_TEXT, "job.commit.scope=dataset\n"],
);

/// The lines of each partition: every fourth one is of a failure.
const LINES: &str = "{\"ip\":\"10.0.0.00\",\"path\":\"/p/00\",\"status\":200,\"took\":0.25}
{\"ip\":\"10.0.0.01\",\"path\":\"/p/01\",\"status\":200,\"took\":0.25}
{\"ip\":\"10.0.0.02\",\"path\":\"/p/02\",\"status\":200,\"took\":0.25}
{\"ip\":\"10.0.0.03\",\"path\":\"/p/03\",\"status\":404,\"took\":0.25}
{\"ip\":\"10.0.0.04\",\"path\":\"/p/04\",\"status\":200,\"took\":0.25}
{\"ip\":\"10.0.0.05\",\"path\":\"/p/05\",\"status\":200,\"took\":0.25}
{\"ip\":\"10.0.0.06\",\"path\":\"/p/06\",\"status\":200,\"took\":0.25}
{\"ip\":\"10.0.0.07\",\"path\":\"/p/07\",\"status\":500,\"took\":0.25}
{\"ip\":\"10.0.0.08\",\"path\":\"/p/08\",\"status\":200,\"took\":0.25}
{\"ip\":\"10.0.0.09\",\"path\":\"/p/09\",\"status\":200,\"took\":0.25}
{\"ip\":\"10.0.0.10\",\"path\":\"/p/10\",\"status\":200,\"took\":0.25}
{\"ip\":\"10.0.0.11\",\"path\":\"/p/11\",\"status\":404,\"took\":0.25}
{\"ip\":\"10.0.0.12\",\"path\":\"/p/12\",\"status\":200,\"took\":0.25}
{\"ip\":\"10.0.0.13\",\"path\":\"/p/13\",\"status\":200,\"took\":0.25}
{\"ip\":\"10.0.0.14\",\"path\":\"/p/14\",\"status\":200,\"took\":0.25}
{\"ip\":\"10.0.0.15\",\"path\":\"/p/15\",\"status\":500,\"took\":0.25}
{\"ip\":\"10.0.0.16\",\"path\":\"/p/16\",\"status\":200,\"took\":0.25}
{\"ip\":\"10.0.0.17\",\"path\":\"/p/17\",\"status\":200,\"took\":0.25}
{\"ip\":\"10.0.0.18\",\"path\":\"/p/18\",\"status\":200,\"took\":0.25}
{\"ip\":\"10.0.0.19\",\"path\":\"/p/19\",\"status\":404,\"took\":0.25}
{\"ip\":\"10.0.0.20\",\"path\":\"/p/20\",\"status\":200,\"took\":0.25}
{\"ip\":\"10.0.0.21\",\"path\":\"/p/21\",\"status\":200,\"took\":0.25}
{\"ip\":\"10.0.0.22\",\"path\":\"/p/22\",\"status\":200,\"took\":0.25}
{\"ip\":\"10.0.0.23\",\"path\":\"/p/23\",\"status\":500,\"took\":0.25}
{\"ip\":\"10.0.0.24\",\"path\":\"/p/24\",\"status\":200,\"took\":0.25}
{\"ip\":\"10.0.0.25\",\"path\":\"/p/25\",\"status\":200,\"took\":0.25}
{\"ip\":\"10.0.0.26\",\"path\":\"/p/26\",\"status\":200,\"took\":0.25}
{\"ip\":\"10.0.0.27\",\"path\":\"/p/27\",\"status\":404,\"took\":0.25}
{\"ip\":\"10.0.0.28\",\"path\":\"/p/28\",\"status\":200,\"took\":0.25}
{\"ip\":\"10.0.0.29\",\"path\":\"/p/29\",\"status\":200,\"took\":0.25}
{\"ip\":\"10.0.0.30\",\"path\":\"/p/30\",\"status\":200,\"took\":0.25}
{\"ip\":\"10.0.0.31\",\"path\":\"/p/31\",\"status\":500,\"took\":0.25}
{\"ip\":\"10.0.0.32\",\"path\":\"/p/32\",\"status\":200,\"took\":0.25}
{\"ip\":\"10.0.0.33\",\"path\":\"/p/33\",\"status\":200,\"took\":0.25}
{\"ip\":\"10.0.0.34\",\"path\":\"/p/34\",\"status\":200,\"took\":0.25}
{\"ip\":\"10.0.0.35\",\"path\":\"/p/35\",\"status\":404,\"took\":0.25}
{\"ip\":\"10.0.0.36\",\"path\":\"/p/36\",\"status\":200,\"took\":0.25}
{\"ip\":\"10.0.0.37\",\"path\":\"/p/37\",\"status\":200,\"took\":0.25}
{\"ip\":\"10.0.0.38\",\"path\":\"/p/38\",\"status\":200,\"took\":0.25}
{\"ip\":\"10.0.0.39\",\"path\":\"/p/39\",\"status\":500,\"took\":0.25}
";

/// What the first branch writes of them.
const FAILURES: &str = "404,/p/03
500,/p/07
404,/p/11
500,/p/15
404,/p/19
500,/p/23
404,/p/27
500,/p/31
404,/p/35
500,/p/39
";

/// What the second branch writes of them.
const OTHERS: &str = "{\"ip\":\"10.0.0.00\",\"path\":\"/p/00\",\"status\":200}
{\"ip\":\"10.0.0.01\",\"path\":\"/p/01\",\"status\":200}
{\"ip\":\"10.0.0.02\",\"path\":\"/p/02\",\"status\":200}
{\"ip\":\"10.0.0.04\",\"path\":\"/p/04\",\"status\":200}
{\"ip\":\"10.0.0.05\",\"path\":\"/p/05\",\"status\":200}
{\"ip\":\"10.0.0.06\",\"path\":\"/p/06\",\"status\":200}
{\"ip\":\"10.0.0.08\",\"path\":\"/p/08\",\"status\":200}
{\"ip\":\"10.0.0.09\",\"path\":\"/p/09\",\"status\":200}
{\"ip\":\"10.0.0.10\",\"path\":\"/p/10\",\"status\":200}
{\"ip\":\"10.0.0.12\",\"path\":\"/p/12\",\"status\":200}
{\"ip\":\"10.0.0.13\",\"path\":\"/p/13\",\"status\":200}
{\"ip\":\"10.0.0.14\",\"path\":\"/p/14\",\"status\":200}
{\"ip\":\"10.0.0.16\",\"path\":\"/p/16\",\"status\":200}
{\"ip\":\"10.0.0.17\",\"path\":\"/p/17\",\"status\":200}
{\"ip\":\"10.0.0.18\",\"path\":\"/p/18\",\"status\":200}
{\"ip\":\"10.0.0.20\",\"path\":\"/p/20\",\"status\":200}
{\"ip\":\"10.0.0.21\",\"path\":\"/p/21\",\"status\":200}
{\"ip\":\"10.0.0.22\",\"path\":\"/p/22\",\"status\":200}
{\"ip\":\"10.0.0.24\",\"path\":\"/p/24\",\"status\":200}
{\"ip\":\"10.0.0.25\",\"path\":\"/p/25\",\"status\":200}
{\"ip\":\"10.0.0.26\",\"path\":\"/p/26\",\"status\":200}
{\"ip\":\"10.0.0.28\",\"path\":\"/p/28\",\"status\":200}
{\"ip\":\"10.0.0.29\",\"path\":\"/p/29\",\"status\":200}
{\"ip\":\"10.0.0.30\",\"path\":\"/p/30\",\"status\":200}
{\"ip\":\"10.0.0.32\",\"path\":\"/p/32\",\"status\":200}
{\"ip\":\"10.0.0.33\",\"path\":\"/p/33\",\"status\":200}
{\"ip\":\"10.0.0.34\",\"path\":\"/p/34\",\"status\":200}
{\"ip\":\"10.0.0.36\",\"path\":\"/p/36\",\"status\":200}
{\"ip\":\"10.0.0.37\",\"path\":\"/p/37\",\"status\":200}
{\"ip\":\"10.0.0.38\",\"path\":\"/p/38\",\"status\":200}
";

const FAILURES_1: File = (
    "clicks/out/0/web1%2Fclicks.log@00000000000000000000-00000000000000002360.csv",
    &[FAILURES],
);

const OTHERS_1: File = (
    "clicks/out/1/web1%2Fclicks.log@00000000000000000000-00000000000000002360.json",
    &[OTHERS],
);

const FAILURES_2: File = (
    "clicks/out/0/web2%2Fclicks.log@00000000000000000000-00000000000000002360.csv",
    &[FAILURES],
);

const OTHERS_2: File = (
    "clicks/out/1/web2%2Fclicks.log@00000000000000000000-00000000000000002360.json",
    &[OTHERS],
);

const FAILURES_3: File = (
    "clicks/out/0/web3%2Fclicks.log@00000000000000000000-00000000000000002360.csv",
    &[FAILURES],
);

const OTHERS_3: File = (
    "clicks/out/1/web3%2Fclicks.log@00000000000000000000-00000000000000002360.json",
    &[OTHERS],
);

const PIPELINE: &str = "pipelines 1
pipeline 18
source.format=json
source.columns=ip%3Atext%2C%20path%3Atext%2C%20status%3Aint
source.skip.header=false
converter.classes=
fork.operator.class=first
fork.branches=2
fork.test.0=ge%20status%20400
converter.classes.0=keep%20status%20path
qualitychecker.row.policies.0=lt%20status%20500
qualitychecker.row.policy.types.0=OPTIONAL
writer.format.0=csv
writer.placer.0=plain
fork.test.1=not%20null%20status
converter.classes.1=
qualitychecker.row.policies.1=
qualitychecker.row.policy.types.1=
writer.format.1=json
writer.placer.1=plain
";

const STATE: File = (
    "clicks/state",
    &[
        "gobblin-state 2\nrun 1\n",
        PIPELINE,
        "totals 120 0 120 0
branch 0 30 0 15
branch 1 90 0 0
partition web1%2Fclicks.log 2360
done 0 2360 0
partition web2%2Fclicks.log 2360
done 0 2360 0
partition web3%2Fclicks.log 2360
done 0 2360 0
end
",
    ],
);

const STATE_1: File = (
    "clicks/state",
    &[
        "gobblin-state 2\nrun 1\n",
        PIPELINE,
        "totals 40 0 40 0
branch 0 10 0 5
branch 1 30 0 0
partition web1%2Fclicks.log 2360
done 0 2360 0
end
",
    ],
);

const CHANGE_2: File = (
    "clicks/delta/00000000000000000002",
    &[
        "gobblin-delta 2
run 2
pipelines 0
totals 80 0 80 0
branch 0 20 0 10
branch 1 60 0 0
partition web2%2Fclicks.log 2360
done 0 2360 0
end
",
    ],
);

const CHANGE_3: File = (
    "clicks/delta/00000000000000000003",
    &[
        "gobblin-delta 2
run 3
pipelines 0
totals 120 0 120 0
branch 0 30 0 15
branch 1 90 0 0
partition web3%2Fclicks.log 2360
done 0 2360 0
end
",
    ],
);

const PARTS: &[Part] = &[
    ("web1/clicks.log", LINES),
    ("web2/clicks.log", LINES),
    ("web3/clicks.log", LINES),
];

const PULLS: &[Pull] = &[
    ("web1/clicks.log", 0, 2360),
    ("web2/clicks.log", 0, 2360),
    ("web3/clicks.log", 0, 2360),
];

/// What a run tells before the number of its commits.
const TOLD: &str = "job clicks policy successful
unit web1%2Fclicks.log 0 2360 committed records 40 bad 0 rows 40 unrouted 0
branch 0 written 10 errors 0 optional 5
branch 1 written 30 errors 0 optional 0
unit web2%2Fclicks.log 0 2360 committed records 40 bad 0 rows 40 unrouted 0
branch 0 written 10 errors 0 optional 5
branch 1 written 30 errors 0 optional 0
unit web3%2Fclicks.log 0 2360 committed records 40 bad 0 rows 40 unrouted 0
branch 0 written 10 errors 0 optional 5
branch 1 written 30 errors 0 optional 0
mark web1%2Fclicks.log 2360 2360
mark web2%2Fclicks.log 2360 2360
mark web3%2Fclicks.log 2360 2360
total records 120 bad 0 rows 120 unrouted 0
total branch 0 written 30 errors 0 optional 15
total branch 1 written 90 errors 0 optional 0
";

/// All is committed at once.
pub(crate) const CLICKS: Case = Case {
    words: &["run", "clicks"],
    parts: PARTS,
    files: &[JOB],
    fails: NO_FAILS,
    status: 0,
    text: &[TOLD, "runs 1\nstatus 0\n"],
    pulls: PULLS,
    left: &[
        FAILURES_1, FAILURES_2, FAILURES_3, OTHERS_1, OTHERS_2, OTHERS_3, STATE, JOB,
    ],
};

/// Each partition has a commit of its own.
pub(crate) const CLICKS_BY_DATASET: Case = Case {
    words: &["run", "clicks"],
    parts: PARTS,
    files: &[JOB_BY_DATASET],
    fails: NO_FAILS,
    status: 0,
    text: &[TOLD, "runs 3\nstatus 0\n"],
    pulls: PULLS,
    left: &[
        CHANGE_2,
        CHANGE_3,
        FAILURES_1,
        FAILURES_2,
        FAILURES_3,
        OTHERS_1,
        OTHERS_2,
        OTHERS_3,
        STATE_1,
        JOB_BY_DATASET,
    ],
};

/// What stands of it behind the second commit.
pub(crate) const TWO_DATASETS: &[File] = &[
    CHANGE_2,
    FAILURES_1,
    FAILURES_2,
    OTHERS_1,
    OTHERS_2,
    STATE_1,
    JOB_BY_DATASET,
];
