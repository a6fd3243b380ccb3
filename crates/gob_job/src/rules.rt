//! Task rules as they are worded.
ghost use Rattle.std.specs.Prelude.{◌≡◌, IfOk};
ghost use Rattle.gob_jobs.specs.Elements as spec;
ghost use Rattle.gob_jobs.specs.Words.{each_read, pieces};
ghost use Rattle.gob_jobs.specs.KeyTable.{rules_listed, strict_rule};
ghost use Rattle.std.specs.Prelude.{nat_eq, map, option_map};
ghost use Rattle.gob_job.specs.Cuts.{texts_of};

use crate::cuts::{few_elements, number_within, split_piece, words_of};
use crate::tables::{Named, at_name};
use gob_plan::{Counter, List, NoMemory, TaskPolicy, TaskRule};
use gob_text::read_u64;
use std::alloc::{AllocError, Global};

/// The most task rules of a job.
const MOST_RULES: usize = 16;

const UNIT_COUNTERS: [Named<Counter>; 4] = [
    Named {
        name: "records",
        value: Counter::Records,
    },
    Named {
        name: "bad",
        value: Counter::Bad,
    },
    Named {
        name: "rows",
        value: Counter::Rows,
    },
    Named {
        name: "unrouted",
        value: Counter::Unrouted,
    },
];

/// A count of a branch.
#[derive(Clone, Copy)]
pub(crate) enum BranchCount {
    Written,
    Errors,
    Optional,
}

const BRANCH_COUNTERS: [Named<BranchCount>; 3] = [
    Named {
        name: "written",
        value: BranchCount::Written,
    },
    Named {
        name: "errors",
        value: BranchCount::Errors,
    },
    Named {
        name: "optional",
        value: BranchCount::Optional,
    },
];

// A branch's counter: its word, a dot, and the number of a branch.
#[tactic(auto, using(crate::proofs::Formed::counted))]
fn branch_counter(branches: u32, word: &[u8]) -> Option<Counter>
    ensures { result ≡ spec.branch_counter branches (pieces (nat_eq 46) word.now) }
{
    let (name, rest) = split_piece(b'.', word);
    let Some(rest) = rest else {
        return None;
    };
    let (number, more) = split_piece(b'.', rest);
    if more.is_some() {
        return None;
    }
    let count = at_name(&BRANCH_COUNTERS, name)?;
    let branch = read_u64(number)?;
    if branch >= u64::from(branches) {
        return None;
    }
    match count {
        BranchCount::Written => Some(Counter::Written(branch as u32)),
        BranchCount::Errors => Some(Counter::Errors(branch as u32)),
        BranchCount::Optional => Some(Counter::Optional(branch as u32)),
    }
}

#[tactic(auto, unfolding(gob_jobs::specs::Elements::counter_read))]
fn read_counter(branches: u32, word: &[u8]) -> Option<Counter>
    ensures { result ≡ spec.counter_read branches word.now }
{
    match at_name(&UNIT_COUNTERS, word) {
        Some(counter) => Some(counter),
        None => branch_counter(branches, word),
    }
}

// A counter, a least and a greatest number; the least isn't above the greatest.
fn range(branches: u32, words: &[&[u8]]) -> Option<TaskRule>
    ensures { result ≡ spec.range_words branches (texts_of words.now) }
{
    let [counter, low, high] = words else {
        return None;
    };
    Some(TaskRule::Range {
        counter: read_counter(branches, counter)?,
        low: read_u64(low)?,
        high: read_u64(high)?,
    })
}

// Two counters and a number of thousandths.
fn share(branches: u32, words: &[&[u8]]) -> Option<TaskRule>
    ensures { result ≡ spec.share_words branches (texts_of words.now) }
{
    let [counter, of, permille] = words else {
        return None;
    };
    Some(TaskRule::Share {
        counter: read_counter(branches, counter)?,
        of: read_counter(branches, of)?,
        permille: number_within(0, 1000, permille)?,
    })
}

/// What a task rule asks, by its first word.
#[derive(Clone, Copy)]
pub(crate) enum RuleWord {
    Range,
    Share,
}

const RULE_WORDS: [Named<RuleWord>; 2] = [
    Named {
        name: "range",
        value: RuleWord::Range,
    },
    Named {
        name: "share",
        value: RuleWord::Share,
    },
];

#[tactic(auto, using(crate::proofs::Formed::rule_formed))]
fn worded_rule(branches: u32, words: &[&[u8]]) -> Option<TaskRule>
    ensures { result ≡ spec.form_in (spec.rule_forms branches) (texts_of words.now) }
{
    let [first, more @ ..] = words else {
        return None;
    };
    match at_name(&RULE_WORDS, first)? {
        RuleWord::Range => range(branches, more),
        RuleWord::Share => share(branches, more),
    }
}

fn rule_is_right(rule: TaskRule) -> bool
    ensures { result ≡ spec.rule_is_right rule }
{
    match rule {
        TaskRule::Range {
            counter: _,
            low,
            high,
        } => low <= high,
        TaskRule::Share {
            counter: _,
            of: _,
            permille: _,
        } => true,
    }
}

#[tactic(auto, unfolding(gob_jobs::specs::Elements::rule_read))]
fn read_rule(alloc: Global, branches: u32, element: &[u8]) -> Result<Option<TaskRule>, AllocError>
    ensures { IfOk result (λ found. found ≡ spec.rule_read branches element.now) }
{
    let words = words_of(alloc, element)?;
    match worded_rule(branches, words.as_slice()) {
        Some(rule) if rule_is_right(rule) => Ok(Some(rule)),
        _ => Ok(None),
    }
}

/// The task policies of the rules that a list is, where there are so many branches; until their modes are read they
/// fail their unit.
#[tactic(auto, unfolding(gob_jobs::specs::KeyTable::rules_listed))]
pub(crate) fn read_rules(
    alloc: Global,
    branches: u32,
    value: &[u8],
) -> Result<Option<List<TaskPolicy>>, NoMemory>
    ensures { IfOk result (λ found. found ≡ option_map (map strict_rule) (rules_listed branches value.now)) }
{
    let Some(elements) = few_elements(alloc, MOST_RULES, b';', value)? else {
        return Ok(None);
    };
    Ok(policies_of(alloc, branches, elements.as_slice())?)
}

fn policies_of(
    alloc: Global,
    branches: u32,
    elements: &[&[u8]],
) -> Result<Option<List<TaskPolicy>>, NoMemory>
    ensures { IfOk result (λ found. found
        ≡ option_map (map strict_rule) (each_read (spec.rule_read branches) (texts_of elements.now))) }
{
    let mut policies = List::new(alloc);
    for element in elements {
        let Some(rule) = read_rule(alloc, branches, element)? else {
            return Ok(None);
        };
        policies.push(TaskPolicy { rule, fails: true })?;
    }
    Ok(Some(policies))
}
