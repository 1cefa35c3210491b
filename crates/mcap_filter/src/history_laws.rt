//! What holds of what is written of the history that repairing makes of good records.
ghost use Rattle.mcap_filter.specs.FilteredHistories.{FilteredHistoriesStand, PickedAreAsked, FilteredTwiceIsOnce, AskingsMeet};

/// A file can be written of what is written, as it is.
pub fn filtered_histories_stand()
    ensures { FilteredHistoriesStand }
{}

/// The messages that are picked are those of the scan that are asked for.
pub fn picked_are_asked()
    ensures { PickedAreAsked }
{}

/// To filter what was filtered is to filter once, for what both ask for.
pub fn filtered_twice_is_once()
    ensures { FilteredTwiceIsOnce }
{}

/// Of two ranges, with one topic or with none of one of them, there is what both ask for.
pub fn askings_meet()
    ensures { AskingsMeet }
{}
