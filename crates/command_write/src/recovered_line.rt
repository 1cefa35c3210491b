//! The line of what was recovered.
ghost use Rattle.std.specs.Prelude.{◌≡◌, ◌+◌, ◌≤◌, ◌++◌, length};
ghost use Rattle.command_write.specs.Recover.{number_after_name, recovered_line, why_text};

use mcap_recover::{Recovered, Why};
use text_line::{LINE_ROOM, Line};

/// Puts a number behind its name, behind the line.
#[tactic(auto, unfolding(crate::specs::Recover::number_after_name))]
pub(crate) fn push_named(line: &mut Line, name: &str, number: u64)
    requires { length line.old + length name.now + 20 ≤ LINE_ROOM }
    ensures text { line.new ≡ line.old ++ number_after_name name.now number }
    ensures len { length line.new ≤ length line.old + length name.now + 20 }
{
    line.push_text(name);
    line.push_number(number);
}

// The word for why a reading stopped.
fn word_of(why: Why) -> &'static str
    ensures word { result.now ≡ why_text why }
    ensures short { length result.now ≤ 10 }
{
    match why {
        Why::Complete => "complete",
        Why::Short => "short",
        Why::Grammar => "grammar",
        Why::Compressed => "compressed",
        Why::Limit => "limit",
    }
}

/// The line of what was recovered. It takes no memory.
#[tactic(auto, unfolding(crate::specs::Recover::recovered_line))]
pub(crate) fn line_of_recovered(recovered: Recovered) -> Line
    ensures { result ≡ recovered_line recovered }
{
    let mut line = Line::new();
    push_named(&mut line, "recovered messages=", recovered.messages);
    push_named(&mut line, " records=", recovered.records);
    push_named(&mut line, " extras=", recovered.extras);
    push_named(&mut line, " at=", recovered.at);
    line.push_text(" ");
    line.push_text(word_of(recovered.why));
    line.push_text("\n");
    line
}
