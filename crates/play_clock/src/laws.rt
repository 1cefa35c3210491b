//! What holds of scripts and replays, whatever the code does.
ghost use Rattle.play_clock.specs.Laws.{ValuesAreOne, LinesHaveValues, ShownWhenDue, ShownOnce, ScriptsGoOn, ReplaysRise, ScriptsHaveNoBadLine};

/// A line of a script has no two values.
pub fn values_are_one()
    ensures { ValuesAreOne }
{}

/// Each line of a script has a value.
pub fn lines_have_values()
    ensures { LinesHaveValues }
{}

/// Where no line seeks, a message is shown at the first line at which it is due, and at no other.
pub fn messages_are_shown_when_due()
    ensures { ShownWhenDue }
{}

/// Where no line seeks, no message is shown twice, and none after one with a later log time.
pub fn due_messages_are_shown_once()
    ensures { ShownOnce }
{}

/// Where no line seeks, a script shows each message at most once, in the order of the replay.
pub fn scripts_go_on()
    ensures { ScriptsGoOn }
{}

/// The log times of a replay rise, as a player asks of them.
pub fn replays_rise()
    ensures { ReplaysRise }
{}

/// Bytes that are a script have no bad line.
pub fn scripts_have_no_bad_line()
    ensures { ScriptsHaveNoBadLine }
{}
