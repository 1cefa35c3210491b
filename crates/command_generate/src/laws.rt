//! A law of generations, as the contract of a function that does nothing.
ghost use Rattle.command_generate.specs.Laws.{GeneratedSumsAreTold};

use crate::generated_feeds_are_read;

/// Where all was done the line that is printed is that of the sums of all messages that the numbers say: what was recorded and
/// read back is what was made.
pub fn generated_sums_are_told()
    ensures { GeneratedSumsAreTold }
{
    generated_feeds_are_read();
}
