//! Laws of lanes.
ghost use Rattle.feed_lane.specs.Laws.{PlacesAreGiven, ChannelsAreKnown};

/// The places that the lists of a lane give are those that its pass got, each once.
pub fn places_are_given()
    ensures { PlacesAreGiven }
{}

/// No call of a lane on its pass was refused since its channel has no id.
pub fn channels_are_known()
    ensures { ChannelsAreKnown }
{}
