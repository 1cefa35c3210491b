//! Which messages are asked for.
ghost use Rattle.std.specs.Prelude.{◌≡◌, List, ℕ};
ghost use Rattle.mcap_model.specs.Tops.{Top};
ghost use Rattle.mcap_model.specs.Scan.{HasTopic};
ghost use Rattle.mcap_model.specs.Plain.{asked_topic};
ghost use Rattle.time_player.specs.Asking.{is_topic, Knows};

use mcap_model::Tables;
use mcap_wire::Text;

/// Whether the channel of that id has the topic that is asked for, if one is.
pub(crate) fn is_on_topic(tables: &Tables, channel: u16, topic: Option<&Text>) -> bool
    ensures { (records : List Top) (named : List ℕ) → Knows records tables.now → HasTopic records channel named
        → result ≡ is_topic (asked_topic topic.entry) named }
{
    let asked = match topic {
        Some(asked) => asked,
        None => return true,
    };
    match tables.channels.view(channel) {
        Some(found) => return asked.is(found.topic),
        None => return false,
    }
}
