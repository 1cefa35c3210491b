//! The line of a verdict on a file.
ghost use Rattle.std.specs.Prelude.{◌≡◌, ◌+◌, ◌≤◌, ◌++◌, length};
ghost use Rattle.command_read.specs.Check.{named_number, counts_line, flaw_line, verdict_line};

use mcap_model::{Counts, Rule, Verdict};
use text_line::{LINE_ROOM, Line};

// Puts a number behind its name, behind the line.
#[tactic(auto, unfolding(crate::specs::Check::named_number))]
fn push_named(line: &mut Line, name: &str, number: u64)
    requires { length line.old + length name.now + 20 ≤ LINE_ROOM }
    ensures text { line.new ≡ line.old ++ named_number name.now number }
    ensures len { length line.new ≤ length line.old + length name.now + 20 }
{
    line.push_text(name);
    line.push_number(number);
}

// The line of a file that keeps all rules, with the numbers of its records.
#[tactic(auto, unfolding(crate::specs::Check::counts_line))]
fn line_of_counts(kind: &str, counts: Counts) -> Line
    requires { length kind.now ≤ 10 }
    ensures { result ≡ counts_line kind.now counts }
{
    let mut line = Line::new();
    line.push_text(kind);
    push_named(&mut line, " messages=", counts.messages);
    push_named(&mut line, " channels=", counts.channels);
    push_named(&mut line, " schemas=", counts.schemas);
    push_named(&mut line, " chunks=", counts.chunks);
    push_named(&mut line, " attachments=", counts.attachments);
    push_named(&mut line, " metadata=", counts.metadata);
    line.push_text("\n");
    line
}

// The line of a rule that fails at an offset.
#[tactic(auto, unfolding(crate::specs::Check::flaw_line))]
fn line_of_flaw(rule: Rule, offset: u64) -> Line
    ensures { result ≡ flaw_line rule offset }
{
    let mut line = Line::new();
    line.push_text("flaw V");
    line.push_number(rule.number() as u64);
    line.push_text(" at ");
    line.push_number(offset);
    line.push_text("\n");
    line
}

/// The line of a verdict. It takes no memory.
pub(crate) fn line_of_verdict(verdict: Verdict) -> Line
    ensures { result ≡ verdict_line verdict }
{
    match verdict {
        Verdict::Indexed { counts } => line_of_counts("ok indexed", counts),
        Verdict::Plain { counts } => line_of_counts("ok plain", counts),
        Verdict::Flawed { rule, offset } => line_of_flaw(rule, offset),
    }
}
