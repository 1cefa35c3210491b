//! What holds of the definitions, as the contract of a function that does nothing.
ghost use Rattle.buffer_swap.specs.Laws.{PlacesAreKnown};

/// Each place of a history that passes know is that of one pair of one of them.
pub fn places_are_known()
    ensures { PlacesAreKnown }
{}
