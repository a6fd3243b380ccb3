//! The keys of a job file, as a table: a row for each key, with the value that it takes where it is absent and what its
//! value sets.
ghost use Rattle.std.specs.Prelude.{◌≡◌};
ghost use Rattle.gob_jobs.specs.KeyTable as spec;
ghost use Rattle.gob_job.specs.Rows.{row_from, rows_from};

use crate::draft::PlanField;
use crate::run_rules::RulesField;

/// Whether a key stands once, or once for each branch behind a dot and the branch's number, and then maybe for all
/// branches that have none of their own.
#[derive(Clone, Copy)]
pub(crate) enum Standing {
    Once,
    ForEachBranch,
    ForEachBranchOrAll,
}

/// Whether a key may be absent, and the value that it then has.
#[derive(Clone, Copy)]
pub(crate) enum Need {
    Needed,
    ElseIs(&'static str),
    NeededUnlessLines,
    NeededUnlessAll,
}

/// What the value of a key sets.
#[derive(Clone, Copy)]
pub(crate) enum Field {
    /// The pipeline text tells it.
    Plan(PlanField),
    Rules(RulesField),
}

#[derive(Clone, Copy)]
pub(crate) struct Row {
    pub(crate) key: &'static str,
    pub(crate) standing: Standing,
    pub(crate) need: Need,
    pub(crate) field: Field,
}

impl Row {
    /// Whether the pipeline text has a line for the key.
    pub(crate) fn tells_plan(&self) -> bool
        ensures { result ≡ spec.tells_plan (row_from self.now) }
    {
        match self.field {
            Field::Plan(_) => true,
            Field::Rules(_) => false,
        }
    }
}

static FIRST_ROWS: [Row; 12] = [
    Row {
        key: "job.name",
        standing: Standing::Once,
        need: Need::ElseIs(""),
        field: Field::Rules(RulesField::JobName),
    },
    Row {
        key: "source.class",
        standing: Standing::Once,
        need: Need::ElseIs("files"),
        field: Field::Rules(RulesField::SourceClass),
    },
    Row {
        key: "source.prefix",
        standing: Standing::Once,
        need: Need::ElseIs(""),
        field: Field::Rules(RulesField::Prefix),
    },
    Row {
        key: "source.format",
        standing: Standing::Once,
        need: Need::Needed,
        field: Field::Plan(PlanField::Format),
    },
    Row {
        key: "source.columns",
        standing: Standing::Once,
        need: Need::NeededUnlessLines,
        field: Field::Plan(PlanField::Columns),
    },
    Row {
        key: "source.skip.header",
        standing: Standing::Once,
        need: Need::ElseIs("false"),
        field: Field::Plan(PlanField::SkipHeader),
    },
    Row {
        key: "source.max.bytes.per.unit",
        standing: Standing::Once,
        need: Need::ElseIs("1048576"),
        field: Field::Rules(RulesField::MaxBytes),
    },
    Row {
        key: "source.max.new.units",
        standing: Standing::Once,
        need: Need::ElseIs("1000"),
        field: Field::Rules(RulesField::MaxNewUnits),
    },
    Row {
        key: "converter.classes",
        standing: Standing::Once,
        need: Need::ElseIs(""),
        field: Field::Plan(PlanField::Steps),
    },
    Row {
        key: "task.skip.error.records",
        standing: Standing::Once,
        need: Need::ElseIs("0"),
        field: Field::Rules(RulesField::SkipErrors),
    },
    Row {
        key: "fork.operator.class",
        standing: Standing::Once,
        need: Need::ElseIs("all"),
        field: Field::Plan(PlanField::ForkHow),
    },
    Row {
        key: "fork.branches",
        standing: Standing::Once,
        need: Need::ElseIs("1"),
        field: Field::Plan(PlanField::Branches),
    },
];

static BRANCH_ROWS: [Row; 6] = [
    Row {
        key: "fork.test",
        standing: Standing::ForEachBranch,
        need: Need::NeededUnlessAll,
        field: Field::Plan(PlanField::ForkTest),
    },
    Row {
        key: "converter.classes",
        standing: Standing::ForEachBranch,
        need: Need::ElseIs(""),
        field: Field::Plan(PlanField::BranchSteps),
    },
    Row {
        key: "qualitychecker.row.policies",
        standing: Standing::ForEachBranchOrAll,
        need: Need::ElseIs(""),
        field: Field::Plan(PlanField::Policies),
    },
    Row {
        key: "qualitychecker.row.policy.types",
        standing: Standing::ForEachBranchOrAll,
        need: Need::ElseIs(""),
        field: Field::Plan(PlanField::PolicyModes),
    },
    Row {
        key: "writer.format",
        standing: Standing::ForEachBranchOrAll,
        need: Need::Needed,
        field: Field::Plan(PlanField::BranchFormat),
    },
    Row {
        key: "writer.placer",
        standing: Standing::ForEachBranchOrAll,
        need: Need::ElseIs("plain"),
        field: Field::Plan(PlanField::Place),
    },
];

static LAST_ROWS: [Row; 8] = [
    Row {
        key: "qualitychecker.task.policies",
        standing: Standing::Once,
        need: Need::ElseIs(""),
        field: Field::Rules(RulesField::TaskRules),
    },
    Row {
        key: "qualitychecker.task.policy.types",
        standing: Standing::Once,
        need: Need::ElseIs(""),
        field: Field::Rules(RulesField::TaskModes),
    },
    Row {
        key: "job.commit.policy",
        standing: Standing::Once,
        need: Need::ElseIs("full"),
        field: Field::Rules(RulesField::Policy),
    },
    Row {
        key: "task.maxretries",
        standing: Standing::Once,
        need: Need::ElseIs("5"),
        field: Field::Rules(RulesField::MaxRetries),
    },
    Row {
        key: "task.slots",
        standing: Standing::Once,
        need: Need::ElseIs("1"),
        field: Field::Rules(RulesField::Slots),
    },
    Row {
        key: "task.piece.bytes",
        standing: Standing::Once,
        need: Need::ElseIs("65536"),
        field: Field::Rules(RulesField::Piece),
    },
    Row {
        key: "task.schedule",
        standing: Standing::Once,
        need: Need::ElseIs("0"),
        field: Field::Rules(RulesField::Schedule),
    },
    Row {
        key: "job.commit.scope",
        standing: Standing::Once,
        need: Need::ElseIs("job"),
        field: Field::Rules(RulesField::Scope),
    },
];

/// The keys that are read first.
#[tactic(auto, unfolding(gob_jobs::specs::KeyTable::first_rows))]
pub(crate) fn first_rows() -> &'static [Row]
    ensures { rows_from result.now ≡ spec.first_rows }
{
    &FIRST_ROWS
}

/// Those that are then read whole for each branch.
#[tactic(auto, unfolding(gob_jobs::specs::KeyTable::branch_rows))]
pub(crate) fn branch_rows() -> &'static [Row]
    ensures { rows_from result.now ≡ spec.branch_rows }
{
    &BRANCH_ROWS
}

/// Those that are read last.
#[tactic(auto, unfolding(gob_jobs::specs::KeyTable::last_rows))]
pub(crate) fn last_rows() -> &'static [Row]
    ensures { rows_from result.now ≡ spec.last_rows }
{
    &LAST_ROWS
}
