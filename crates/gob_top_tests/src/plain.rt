//! Jobs of plain lines, and what their state files have in common.

/// The text of a job of plain lines.
pub(crate) const LINES: &str = "source.format=lines\nwriter.format=lines\n";

/// Of the pipeline text of such a job, what stands before and behind its row policies.
pub(crate) const BEFORE_POLICIES: &str = "pipeline 12
source.format=lines
source.columns=
source.skip.header=false
converter.classes=
fork.operator.class=all
fork.branches=1
fork.test.0=
converter.classes.0=
";

pub(crate) const BEHIND_POLICIES: &str = "writer.format.0=lines
writer.placer.0=plain
";

pub(crate) const NO_POLICIES: &str = "qualitychecker.row.policies.0=
qualitychecker.row.policy.types.0=
";

/// A line `K` kills its unit.
pub(crate) const NO_K: &str = "qualitychecker.row.policies=not eq line K
qualitychecker.row.policy.types=FAIL
";

pub(crate) const NO_K_POLICIES: &str = "qualitychecker.row.policies.0=not%20eq%20line%20K
qualitychecker.row.policy.types.0=FAIL
";

/// How the state of a first run begins.
pub(crate) const FIRST_RUN: &str = "gobblin-state 2
run 1
pipelines 1
";
