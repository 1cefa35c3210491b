//! A feed whose lane rouses the writer where it may have to wait.
ghost use Rattle.std.proofs.Common.{◌∙◌};
ghost use Rattle.std.specs.Prelude.{refl, ◌≡◌, ℕ};
ghost use Rattle.feed_lane.specs.Pass.{PassState};
ghost use Rattle.feed_lane.specs.PassCalls.{no_calls};
ghost use Rattle.feed_lane.specs.Feeds.{Reports};
ghost use Rattle.feed_lane.specs.Steps.{ListsMessages};

use buffer_swap::Rouser;
use feed_lane::{FeedReport, Pass, publish_feed};
use mcap_io::{Failed, Source};
use std::alloc::Global;

// A source over one that is lent to it. A read may wait for bytes, so the writer is roused before: what was accepted isn't held
// back meanwhile.
#[derive(Drop)]
struct Rousing<'a, 't, S> {
    source: &'a mut S,
    rouser: Rouser<'t>,
}

impl<'a, 't, S: Source> Source for Rousing<'a, 't, S> {
    ghost state = { λ s. S.state s.source.now };

    /// It is lent the same source, which stays itself.
    ghost stays = { λ s t. (t.source.ghost_name ≡ s.source.ghost_name) × S.stays s.source.now t.source.now };

    ghost stays_so = { λ s. (refl, S.stays_so s.source.now) };

    ghost stays_on = { λ s t u first second. (second.0 ∙ first.0, S.stays_on s.source.now t.source.now u.source.now first.1 second.1) };

    fn read(&mut self, out: &mut [u8]) -> Result<usize, Failed> {
        let rouser = self.rouser;
        rouser.rouse();
        self.source.read(out)
    }

    fn faults(&self) -> u64 {
        self.source.faults()
    }
}

/// Reads a feed and publishes it, as `publish_feed` does, and rouses the writer before each read and at the end: what came by
/// the last read isn't held back while other feeds are silent.
pub(crate) fn publish_roused<S: Source, P: Pass>(
    alloc: Global,
    source: &mut S,
    rouser: Rouser<'_>,
    pass: &mut P,
    listed: bool,
) -> FeedReport
    requires { (limit : ℕ) × P.since pass.old pass.old (no_calls limit) }
    ensures reports { (limit : ℕ) → P.since pass.old pass.old (no_calls limit)
        → (shown : PassState) × P.since pass.old pass.new shown × (shown.limit ≡ limit)
        × Reports (S.state source.old) (S.state source.new) shown result }
    ensures stays { S.stays source.old source.new }
    ensures listed { ListsMessages result listed }
{
    let mut rousing = Rousing { source, rouser };
    let report = publish_feed(alloc, &mut rousing, pass, listed);
    rouser.rouse();
    report
}
