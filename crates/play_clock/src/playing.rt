//! What a whole script shows.
ghost use Rattle.std.specs.Prelude.{◌≡◌, ◌≤◌, ◌++◌, ◌∷◌, [], List, length, IfOk};
ghost use Rattle.mcap_model.specs.Places.{Each};
ghost use Rattle.time_player.specs.Stretches.{LiesWithin};
ghost use Rattle.play_clock.specs.declared.line.Line.{Line as Step};
ghost use Rattle.play_clock.specs.Times.{TimesRise};
ghost use Rattle.play_clock.specs.Script.{MomentsRise};
ghost use Rattle.play_clock.specs.Played.{RateFits, Plays, PlaysScript};
ghost use Rattle.play_clock.specs.Playing.{Stands, last_moment};

use crate::line::Line;
use crate::player::Player;
use crate::timeline::Timeline;
use mcap_wire::Memory;
use std::alloc::Global;
use time_player::Stretch;

// The messages that are shown at the next line, with its moment.
fn show<M: Timeline>(player: &mut Player, list: &M, line: &Line) -> Stretch
    requires rise { TimesRise (M.times list.now) }
    requires later { last_moment player.old ≤ line.now.moment }
    requires fits { RateFits line.now.kind }
    ensures shows { (lines : List Step) → Stands (M.times list.now) lines player.old
        → Plays (M.times list.now) lines line.now result.from result.to }
    ensures stands { (lines : List Step) → Stands (M.times list.now) lines player.old
        → Stands (M.times list.now) (lines ++ line.now ∷ []) player.new }
    ensures last { last_moment player.new ≡ line.now.moment }
    ensures moment { result.moment ≡ line.now.moment }
{
    let due = player.step(list, line);
    Stretch {
        moment: line.moment,
        from: due.from as usize,
        to: due.to as usize,
    }
}

/// The messages that are shown at each line of a script, with its moment.
pub fn play<M: Timeline>(alloc: Global, list: &M, lines: &[Line]) -> Result<Vec<Stretch>, Memory>
    requires rise { TimesRise (M.times list.now) }
    requires moments { MomentsRise lines.now }
    requires fit { Each (λ (l : Step). RateFits l.kind) lines.now }
    ensures plays { IfOk result (λ stretches. PlaysScript (M.times list.now) lines.now stretches.items) }
    ensures within { IfOk result (λ stretches. Each (LiesWithin (length (M.times list.now))) stretches.items) }
{
    let mut stretches = Vec::new(alloc);
    let mut player = Player::new(list);
    'lines: for line in lines {
        let stretch = show(&mut player, list, line);
        match stretches.push(stretch) {
            Ok(()) => {}
            Err(_) => return Err(Memory),
        }
    }
    return Ok(stretches);
}
