//! Messages by their log times alone.
ghost use Rattle.std.specs.Prelude.{◌≡◌, ◌<◌, length, slice_index};

use mcap_model::Replayed;
use time_player::TimedLines;

/// Messages, of which a player looks at the log times.
pub trait Timeline {
    ghost use Rattle.std.specs.Prelude.{List, ℕ};

    ghost times: { Self → List ℕ };

    /// How many messages there are.
    fn count(&self) -> usize
        ensures { result ≡ length (times self.now) };

    /// The log time of the message at that place.
    fn log_time(&self, place: usize) -> u64
        requires { place < length (times self.now) }
        ensures { result ≡ slice_index (times self.now) place };
}

impl Timeline for Replayed {
    ghost use Rattle.play_clock.specs.Times.{times_of};

    ghost times = { λ r. times_of r.shown.items };

    fn count(&self) -> usize {
        self.shown.len()
    }

    fn log_time(&self, place: usize) -> u64 {
        self.shown[place].log_time
    }
}

impl Timeline for TimedLines {
    ghost use Rattle.std.specs.Prelude.{map};
    ghost use Rattle.time_player.specs.Stretches.{TimedLine};

    ghost times = { λ lines. map (λ (l : TimedLine). l.time) lines };

    fn count(&self) -> usize {
        self.len()
    }

    fn log_time(&self, place: usize) -> u64 {
        TimedLines::log_time(self, place)
    }
}
