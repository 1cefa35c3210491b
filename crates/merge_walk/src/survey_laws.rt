//! What spans say of messages, each law as the contract of a function that does nothing.
ghost use Rattle.merge_walk.specs.SurveyLaws.{SpansTellTimes, SilentRecordsHaveNone};

/// The span of a record stands at its offset; its times are the least and the greatest of the messages that the record is or
/// holds, and it says whether one of them was logged before one in front of it.
pub fn spans_tell_times()
    ensures { SpansTellTimes }
{}

/// A record without a span is and holds no Message whose content meets its layout.
pub fn silent_records_have_none()
    ensures { SilentRecordsHaveNone }
{}
