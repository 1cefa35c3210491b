//! The line of what was sorted.
ghost use Rattle.std.specs.Prelude.{◌≡◌};
ghost use Rattle.command_write.specs.Sort.{sorted_line};

use crate::recovered_line::push_named;
use mcap_sort::SortCounts;
use text_line::Line;

/// The line of what was sorted. It takes no memory.
#[tactic(auto, unfolding(crate::specs::Sort::sorted_line))]
pub(crate) fn line_of_sorted(counts: SortCounts) -> Line
    ensures { result ≡ sorted_line counts }
{
    let mut line = Line::new();
    push_named(&mut line, "sorted messages=", counts.messages);
    push_named(&mut line, " records=", counts.records);
    line.push_text("\n");
    line
}
