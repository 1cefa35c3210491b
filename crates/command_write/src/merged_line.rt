//! The line of what was merged.
ghost use Rattle.std.specs.Prelude.{◌≡◌};
ghost use Rattle.command_write.specs.Merge.{merged_line};

use crate::recovered_line::push_named;
use mcap_merge::Merged;
use text_line::Line;

/// The line of so many inputs that were merged. It takes no memory.
#[tactic(auto, unfolding(crate::specs::Merge::merged_line))]
pub(crate) fn line_of_merged(inputs: u64, merged: Merged) -> Line
    ensures { result ≡ merged_line inputs merged }
{
    let mut line = Line::new();
    push_named(&mut line, "merged inputs=", inputs);
    push_named(&mut line, " messages=", merged.messages);
    push_named(&mut line, " records=", merged.records);
    line.push_text("\n");
    line
}
