//! The words of values, in tables that one loop goes through.
ghost use Rattle.std.specs.Prelude.{◌≡◌, map};
ghost use Rattle.gob_bytes.specs.Tables.{at_name};
ghost use Rattle.gob_jobs.specs.Elements as elements;
ghost use Rattle.gob_jobs.specs.KeyTable as keys;
ghost use Rattle.gob_job.specs.Names.{word_and_value};

use gob_plan::{CommitPolicy, CommitScope, ForkHow, Format, Kind, Mode};

/// A value and the word for it.
pub(crate) struct Named<T> {
    pub(crate) name: &'static str,
    pub(crate) value: T,
}

/// The value that the word stands for.
pub(crate) fn at_name<T: Copy>(table: &[Named<T>], word: &[u8]) -> Option<T>
    ensures { result ≡ at_name (map word_and_value table.now) word.now }
{
    for entry in table {
        if word == entry.name.as_bytes() {
            return Some(entry.value);
        }
    }
    None
}

const FORMATS: [Named<Format>; 3] = [
    Named {
        name: "lines",
        value: Format::Lines,
    },
    Named {
        name: "csv",
        value: Format::Csv,
    },
    Named {
        name: "json",
        value: Format::Json,
    },
];

pub(crate) fn format_of(word: &[u8]) -> Option<Format>
    ensures { result ≡ at_name keys.formats word.now }
{
    at_name(&FORMATS, word)
}

const KINDS: [Named<Kind>; 3] = [
    Named {
        name: "bool",
        value: Kind::Bool,
    },
    Named {
        name: "int",
        value: Kind::Int,
    },
    Named {
        name: "text",
        value: Kind::Text,
    },
];

pub(crate) fn kind_of_word(word: &[u8]) -> Option<Kind>
    ensures { result ≡ at_name elements.kinds word.now }
{
    at_name(&KINDS, word)
}

const TRUTHS: [Named<bool>; 2] = [
    Named {
        name: "true",
        value: true,
    },
    Named {
        name: "false",
        value: false,
    },
];

pub(crate) fn truth_of(word: &[u8]) -> Option<bool>
    ensures { result ≡ at_name keys.truths word.now }
{
    at_name(&TRUTHS, word)
}

const FORKS: [Named<ForkHow>; 3] = [
    Named {
        name: "all",
        value: ForkHow::All,
    },
    Named {
        name: "each",
        value: ForkHow::Each,
    },
    Named {
        name: "first",
        value: ForkHow::First,
    },
];

pub(crate) fn fork_of(word: &[u8]) -> Option<ForkHow>
    ensures { result ≡ at_name keys.forks word.now }
{
    at_name(&FORKS, word)
}

pub(crate) const ROW_MODES: [Named<Mode>; 3] = [
    Named {
        name: "FAIL",
        value: Mode::Fail,
    },
    Named {
        name: "ERR_FILE",
        value: Mode::ErrFile,
    },
    Named {
        name: "OPTIONAL",
        value: Mode::Optional,
    },
];

/// Whether a failing task policy fails its unit.
pub(crate) const TASK_MODES: [Named<bool>; 2] = [
    Named {
        name: "FAIL",
        value: true,
    },
    Named {
        name: "OPTIONAL",
        value: false,
    },
];

const COMMIT_POLICIES: [Named<CommitPolicy>; 2] = [
    Named {
        name: "full",
        value: CommitPolicy::Full,
    },
    Named {
        name: "successful",
        value: CommitPolicy::Successful,
    },
];

pub(crate) fn commit_policy_of(word: &[u8]) -> Option<CommitPolicy>
    ensures { result ≡ at_name keys.commit_policies word.now }
{
    at_name(&COMMIT_POLICIES, word)
}

const COMMIT_SCOPES: [Named<CommitScope>; 2] = [
    Named {
        name: "job",
        value: CommitScope::Job,
    },
    Named {
        name: "dataset",
        value: CommitScope::Dataset,
    },
];

pub(crate) fn commit_scope_of(word: &[u8]) -> Option<CommitScope>
    ensures { result ≡ at_name keys.commit_scopes word.now }
{
    at_name(&COMMIT_SCOPES, word)
}

/// The only source is a folder of files.
const SOURCES: [Named<()>; 1] = [Named {
    name: "files",
    value: (),
}];

pub(crate) fn source_of(word: &[u8]) -> Option<()>
    ensures { result ≡ at_name keys.sources word.now }
{
    at_name(&SOURCES, word)
}
