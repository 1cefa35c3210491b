//! Which rule a file breaks where the reading of its records halts.
ghost use Rattle.std.specs.Prelude.{◌≡◌};
ghost use Rattle.file_check.specs.Halting.{failed_at, lacks_magic, told_cut};
ghost use Rattle.file_check.specs.HaltFlaws.{told_flaw};

use mcap_model::Rule;

/// How many bytes the last magic has.
const MAGIC_SIZE: u64 = 8;

/// How many bytes stand before a content, and the last magic with them.
const HEAD_AND_MAGIC: u64 = 17;

/// A rule, and the offset at which it fails.
#[derive(Clone, Copy)]
pub(crate) struct FailedRule {
    pub rule: Rule,
    pub offset: u64,
}

// What is told of a record at that offset that breaks that rule.
fn broken_rule(offset: u64, rule: Rule) -> FailedRule
    ensures { result ≡ failed_at offset rule }
{
    if offset == 8 && (rule.is(Rule::V7) || rule.is(Rule::V8)) {
        return FailedRule {
            rule: Rule::V3,
            offset: 8,
        };
    }
    FailedRule { rule, offset }
}

/// What is told of a file whose records are read up to `end`, where its last magic begins, and whose reading halts at that
/// offset for that rule.
pub(crate) fn failed_rule(end: u64, offset: u64, rule: Rule) -> FailedRule
    ensures { result ≡ told_flaw end offset rule }
{
    if rule.is(Rule::V4) && offset == end {
        return FailedRule {
            rule: Rule::V17,
            offset: end.saturating_sub(29),
        };
    }
    broken_rule(offset, rule)
}

/// What is told of a file of that length that doesn't end with the magic.
pub(crate) fn magic_lacks(len: u64) -> FailedRule
    ensures { result ≡ lacks_magic len }
{
    FailedRule {
        rule: Rule::V2,
        offset: len.saturating_sub(MAGIC_SIZE),
    }
}

/// What is told of a file of that length that doesn't end with the magic, whose reading halts at that offset for that rule:
/// this rule, unless no more bytes stand there than a last magic takes besides.
pub(crate) fn cut_rule(len: u64, offset: u64, rule: Rule) -> FailedRule
    ensures { result ≡ told_cut len offset rule }
{
    let left = len.saturating_sub(offset);
    if rule.is(Rule::V4) && left <= MAGIC_SIZE {
        return magic_lacks(len);
    }
    if rule.is(Rule::V5) && left < HEAD_AND_MAGIC {
        return magic_lacks(len);
    }
    broken_rule(offset, rule)
}
