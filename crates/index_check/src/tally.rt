//! Statistics.
ghost use Rattle.std.specs.Prelude.{◌≡◌, ◌↔◌, ◌||◌, ◌&&◌, ◌==◌, not, List, IsTrue};
ghost use Rattle.rec_index.specs.Parsed.{statistics_fields};
ghost use Rattle.mcap_model.specs.Places.{Has};
ghost use Rattle.mcap_model.specs.Tops.{Top};
ghost use Rattle.mcap_model.specs.Whole.{StatisticsAreRight};
ghost use Rattle.index_check.specs.Tally.{HasChannelCount, IsCountOf, AreCounts, AreKeys, CountsTallied, HasTallied, TallyOf};

use mcap_wire::CountsRef;
use rec_index::Statistics;

/// How many ids of one kind there are, in the data section and in the whole file.
#[derive(Clone, Copy)]
pub struct IdCounts {
    pub in_section: u64,
    pub in_file: u64,
}

/// What was counted of a data section: its Messages, those in chunks too, Attachments, Metadata records and chunks; the
/// least and the greatest log time in nanoseconds, where there are any; for each channel with a Message their number; and
/// the ids of schemas and of channels.
#[derive(Drop)]
pub struct Tally {
    pub messages: u64,
    pub attachments: u64,
    pub metadata: u64,
    pub chunks: u64,
    pub any: bool,
    pub least: u64,
    pub greatest: u64,
    pub counts: Vec<(u16, u64)>,
    pub schemas: IdCounts,
    pub channels: IdCounts,
}

// Whether a list gives a channel that number. The guess is looked at first.
fn has_count(counts: &[(u16, u64)], guess: usize, channel: u16, count: u64) -> bool
    ensures { IsTrue result ↔ Has counts.now (channel, count) }
{
    if guess < counts.len() {
        if counts[guess] == (channel, count) {
            return true;
        }
    }
    'counts: for i in 0..counts.len() {
        let (key, value) = counts[i];
        if key == channel && value == count {
            return true;
        }
    }
    return false;
}

// Whether a list gives a channel some number.
fn has_key(counts: &[(u16, u64)], channel: u16) -> bool
    ensures { IsTrue result ↔ HasChannelCount counts.now channel }
{
    'counts: for i in 0..counts.len() {
        let (key, _) = counts[i];
        if key == channel {
            return true;
        }
    }
    return false;
}

// Whether a map gives a channel some number. The guess is looked at first.
fn maps_key(map: &CountsRef<'_>, guess: usize, channel: u16) -> bool
    ensures { IsTrue result ↔ HasChannelCount map.now channel }
{
    if guess < map.count() {
        let (key, _) = map.item(guess);
        if key == channel {
            return true;
        }
    }
    'counts: for i in 0..map.count() {
        let (key, _) = map.item(i);
        if key == channel {
            return true;
        }
    }
    return false;
}

// Whether that is the number that was counted for a channel: 0, where none was.
fn is_count_of(counts: &[(u16, u64)], guess: usize, channel: u16, count: u64) -> bool
    ensures { IsTrue result ↔ IsCountOf counts.now channel count }
{
    if has_count(counts, guess, channel, count) {
        return true;
    }
    if count != 0 {
        return false;
    }
    return !has_key(counts, channel);
}

// Whether a map gives each of its channels the number that was counted. One in the order of the counts costs one pass.
fn are_counts(map: &CountsRef<'_>, counts: &[(u16, u64)]) -> bool
    ensures { IsTrue result ↔ AreCounts map.now counts.now }
{
    'counts: for i in 0..map.count() {
        let (channel, count) = map.item(i);
        if !is_count_of(counts, i, channel, count) {
            return false;
        }
    }
    return true;
}

// Whether a map gives the channel of an entry some number.
fn maps_entry(map: &CountsRef<'_>, guess: usize, entry: &(u16, u64)) -> bool
    ensures { IsTrue result ↔ HasChannelCount map.now entry.now.0 }
{
    maps_key(map, guess, entry.0)
}

// Whether a map has each channel that was counted.
fn are_keys(map: &CountsRef<'_>, counts: &[(u16, u64)]) -> bool
    ensures { IsTrue result ↔ AreKeys map.now counts.now }
{
    'counts: for i in 0..counts.len() {
        if !maps_entry(map, i, &counts[i]) {
            return false;
        }
    }
    return true;
}

// Whether a map is empty, or gives each channel that was counted its number, and others 0.
fn are_tallied(map: &CountsRef<'_>, counts: &[(u16, u64)]) -> bool
    ensures { IsTrue result ↔ CountsTallied map.now counts.now }
{
    if map.count() == 0 {
        return true;
    }
    if !are_counts(map, counts) {
        return false;
    }
    return are_keys(map, counts);
}

impl Tally {
    // Whether Statistics have the numbers of records that were counted, and numbers of ids that lie between those in the
    // section and those in the file.
    fn has_numbers(&self, statistics: &Statistics<'_>) -> bool
        ensures { IsTrue result ↔ HasTallied self.now (statistics_fields statistics.now) }
    {
        statistics.message_count == self.messages
            && statistics.attachment_count as u64 == self.attachments
            && statistics.metadata_count as u64 == self.metadata
            && statistics.chunk_count as u64 == self.chunks
            && self.schemas.in_section <= statistics.schema_count as u64
            && statistics.schema_count as u64 <= self.schemas.in_file
            && self.channels.in_section <= statistics.channel_count as u64
            && statistics.channel_count as u64 <= self.channels.in_file
    }

    // Whether these are the least and the greatest log time, where there are any.
    fn has_times(&self, start: u64, end: u64) -> bool
        ensures { result ≡ (not self.now.any || ((self.now.least == start) && (self.now.greatest == end))) }
    {
        !self.any || (self.least == start && self.greatest == end)
    }

    /// Whether Statistics count the data section right.
    pub fn is_right(&self, statistics: &Statistics<'_>) -> bool
        ensures { (tops section : List Top) → TallyOf tops section self.now
            → IsTrue result ↔ StatisticsAreRight tops (statistics_fields statistics.now) }
    {
        if !self.has_numbers(statistics) {
            return false;
        }
        if !self.has_times(statistics.message_start_time, statistics.message_end_time) {
            return false;
        }
        return are_tallied(&statistics.channel_message_counts, &self.counts);
    }
}
