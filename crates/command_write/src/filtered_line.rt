//! The line of what was filtered.
ghost use Rattle.std.specs.Prelude.{◌≡◌};
ghost use Rattle.command_write.specs.Filter.{filtered_line};

use crate::recovered_line::push_named;
use mcap_filter::Picked;
use text_line::Line;

/// The line of what was filtered. It takes no memory.
#[tactic(auto, unfolding(crate::specs::Filter::filtered_line))]
pub(crate) fn line_of_filtered(picked: Picked) -> Line
    ensures { result ≡ filtered_line picked }
{
    let mut line = Line::new();
    push_named(&mut line, "filtered messages=", picked.messages);
    push_named(&mut line, " records=", picked.records);
    line.push_text("\n");
    line
}
