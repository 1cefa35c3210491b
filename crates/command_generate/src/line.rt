//! The line of what was read back.
ghost use Rattle.std.specs.Prelude.{◌≡◌, ◌+◌, ◌≤◌, ◌++◌, length};
ghost use Rattle.command_generate.specs.Lines.{number_text, sums_line};

use crate::Sums;
use text_line::{LINE_ROOM, Line};

// Puts a number behind its name, behind the line.
#[tactic(auto, unfolding(crate::specs::Lines::number_text))]
fn push_named(line: &mut Line, name: &str, number: u64)
    requires { length line.old + length name.now + 20 ≤ LINE_ROOM }
    ensures text { line.new ≡ line.old ++ number_text name.now number }
    ensures len { length line.new ≤ length line.old + length name.now + 20 }
{
    line.push_text(name);
    line.push_number(number);
}

/// The line of so many feeds, of whose messages these sums were read. It takes no memory.
#[tactic(auto, unfolding(crate::specs::Lines::sums_line))]
pub(crate) fn line_of_sums(feeds: u64, sums: Sums) -> Line
    ensures { result ≡ sums_line feeds sums }
{
    let mut line = Line::new();
    push_named(&mut line, "gen feeds=", feeds);
    push_named(&mut line, " messages=", sums.messages);
    push_named(&mut line, " data=", sums.bytes);
    push_named(&mut line, " sum=", sums.total);
    line.push_text("\n");
    line
}
