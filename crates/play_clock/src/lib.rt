//! Playing a replay by a script of moments: which messages are due at each line, by their places in the replay. No clock is
//! read: whoever plays hands the moments in.
#![tactic(auto)]

mod laws;
mod line;
mod numbers;
mod player;
mod playing;
mod script;
mod searching;
mod timeline;

pub use laws::{
    due_messages_are_shown_once, lines_have_values, messages_are_shown_when_due, replays_rise,
    scripts_go_on, scripts_have_no_bad_line, values_are_one,
};
pub use line::{Kind, Line};
pub use player::{Due, Player};
pub use playing::play;
pub use script::{ScriptRefused, read_script};
pub use timeline::Timeline;
