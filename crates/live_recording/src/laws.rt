//! Laws of recordings that are watched, each as the contract of a function that does nothing.
ghost use Rattle.live_recording.specs.WatchedSteps.{WatchFilesAreTold};

use mcap_io::Extent;

/// What watchers write of a recording that was sealed is what its file holds up to each of their fronts.
pub fn watch_files_are_told<X: Extent>()
    ensures { WatchFilesAreTold X.tells }
{}
