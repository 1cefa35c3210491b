//! The sinks of a recording's watchers, as they are opened under their names and kept.
ghost use Rattle.std.specs.Prelude.{◌≡◌, ◌≤◌, ◌<◌, [], length, map, vec_len, vec_capacity, IfErr, OnOk, OnErr};
ghost use Rattle.command_record.specs.SinkSteps.{SinksOpened, SinkRefused, OneSinkKept, SinksKept, ViewsLetGo};

use command_base::has_failed;
use mcap_io::{LiveStore, OutsideRefused, Sink, World};
use mcap_wire::Text;

/// Opens a sink under each name, in their order, up to one that is refused.
pub(crate) fn open_sinks<W: World>(
    world: &mut W,
    names: &[Text],
    sinks: &mut Vec<W::Sink>,
) -> Result<(), OutsideRefused>
    requires none { sinks.old.items ≡ [] }
    requires room { length names.now ≤ vec_capacity sinks.old }
    ensures all { OnOk result (SinksOpened (W.state world.old) (W.state world.new) names.now
        (map W.Sink.state sinks.new.items)) }
    ensures many { OnOk result (vec_len sinks.new ≡ length names.now) }
    ensures fewer { OnErr result (vec_len sinks.new < length names.now) }
    ensures some { IfErr result (SinkRefused (W.state world.old) (W.state world.new) names.now
        (map W.Sink.state sinks.new.items)) }
{
    'names: for name in names {
        match world.sink(name.as_str()) {
            Ok(sink) => sinks.push_reserved(sink),
            Err(why) => return Err(why),
        }
    }
    return Ok(());
}

// Keeps the sink of a watcher, and says whether it or that failed.
fn keep_sink<W: World>(world: &mut W, name: &str, sink: W::Sink) -> bool
    ensures { OneSinkKept (W.state world.old) (W.state world.new) name.now (W.Sink.state sink) result }
{
    let faults = sink.faults();
    let kept = world.keep_sink(name, sink);
    has_failed(faults, kept)
}

/// Keeps the sinks of watchers in the reverse order of their opening, as feeds are kept, and says which of them failed.
pub(crate) fn keep_sinks<W: World>(
    world: &mut W,
    names: &[Text],
    sinks: Vec<W::Sink>,
    failed: &mut Vec<bool>,
)
    requires many { vec_len sinks ≡ length names.now }
    requires none { failed.old.items ≡ [] }
    requires room { vec_len sinks ≤ vec_capacity failed.old }
    ensures kept { SinksKept (W.state world.old) (W.state world.new) names.now (map W.Sink.state sinks.items)
        failed.new.items }
    ensures count { vec_len failed.new ≡ vec_len sinks }
    ensures room { vec_capacity failed.new ≡ vec_capacity failed.old }
{
    let mut sinks = sinks;
    'sinks: while let Some(sink) = sinks.pop() {
        let sink_failed = keep_sink(world, names[sinks.len()].as_str(), sink);
        failed.push_reserved(sink_failed);
    }
    failed.reverse();
}

/// Lets the views of watchers go.
pub(crate) fn keep_views<W: World>(world: &mut W, views: Vec<<W::Live as LiveStore>::View>)
    ensures { ViewsLetGo (W.state world.old) (W.state world.new) (map (λ v. W.Live.View.failures v) views.items) }
{
    let mut views = views;
    'views: while let Some(view) = views.pop() {
        world.keep_view(view);
    }
}
