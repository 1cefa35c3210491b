//! Laws of filterings, each as the contract of a function that does nothing.
ghost use Rattle.mcap_app.specs.FilterRuns.{FiltersAreSound, FiltersArePrinted, FiltersPrintTheSame};
ghost use Rattle.mcap_app.specs.FilteredFiles.{FilteredAreAsked, AllAreKept, FilteredReplaysAreOne, FilteredTwiceAreOnce};

use mcap_filter::{
    filtered_histories_stand, filtered_twice_is_once, messages_are_those_picked, picked_are_asked,
};
use mcap_laws::{files_are_repaired, repairs_keep_messages};

/// What is filtered, where all was done, is a valid and fully indexed file, where the input has fewer than 2^32 Attachments and
/// fewer than 2^32 Metadata.
pub fn filters_are_sound()
    ensures { FiltersAreSound }
{
    filtered_histories_stand();
}

/// What is filtered, where all was done, is printed, unless a count rises or memory lacks.
pub fn filters_are_printed()
    ensures { FiltersArePrinted }
{
    filtered_histories_stand();
}

/// It has those messages of the input that a printing with the same options asks for, in the input's order.
pub fn filtered_are_asked()
    ensures { FilteredAreAsked }
{
    filtered_histories_stand();
    picked_are_asked();
    messages_are_those_picked();
    repairs_keep_messages();
}

/// Without options it has all of them.
pub fn all_are_kept()
    ensures { AllAreKept }
{
    filtered_are_asked();
}

/// A printing of all of it shows what one of the input shows with the same options.
pub fn filtered_replays_are_one()
    ensures { FilteredReplaysAreOne }
{
    filtered_are_asked();
}

/// So both print one text.
pub fn filters_print_the_same()
    ensures { FiltersPrintTheSame }
{
    filtered_histories_stand();
    filtered_replays_are_one();
}

/// To filter what was filtered is to filter once, for what both ask for.
pub fn filtered_twice_are_once()
    ensures { FilteredTwiceAreOnce }
{
    filtered_histories_stand();
    filtered_twice_is_once();
    files_are_repaired();
}
