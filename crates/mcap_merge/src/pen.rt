//! What writes the file of a merge.
ghost use Rattle.std.specs.Prelude.{◌≡◌, ◌++◌, ◌∷◌, ℕ, List, Result, [], IfErr, OnOk};
ghost use Rattle.rec_data.specs.declared.owned.Rec.{Rec};
ghost use Rattle.mcap_model.specs.declared.ends.Stop.{Stop as Why};
ghost use Rattle.mcap_model.specs.declared.ends.Stop.TheVariants as stops;
ghost use Rattle.mcap_model.specs.Tops.{Top};
ghost use Rattle.mcap_model.specs.Made.{top};
ghost use Rattle.mcap_model.specs.ReadBack.{IsExtra};
ghost use Rattle.chunk_build.specs.Chunker.{AreInner};
ghost use Rattle.chunk_writer.specs.declared.phase.Phase.{Phase as PenPhase};
ghost use Rattle.chunk_writer.specs.declared.phase.Phase.TheVariants as phases;
ghost use Rattle.chunk_writer.specs.Stops.{Cause};

use mcap_model::Stop;

/// What takes the extras and the records of a file, and ends it. A pen stands for extras with a history; what it wrote of
/// them is said by relations of its values. Once it has stopped it stands for all that would have come.
pub(crate) trait Pen {
    /// The second is the first, later: of whatever extras and history the first stands, the second stands for these with
    /// those extras and those records behind them.
    ghost adds: { Self → Self → List Top → List Rec → Type 0 };

    /// The second is the first with the end of its file, which came to this.
    ghost ends: { Self → Self → Result Unit Why → Type 0 };

    ghost phase: { Self → PenPhase };

    ghost failures: { Self → ℕ };

    ghost adds_none: { (p : Self) → adds p p [] [] };

    ghost adds_on: { (p q r : Self) (extras others : List Top) (records behind : List Rec) → adds p q extras records
        → adds q r others behind → adds p r (extras ++ others) (records ++ behind) };

    ghost adds_all: { (p : Self) (stop : Why) (extras : List Top) (records : List Rec) → phase p ≡ phases.Stopped stop
        → adds p p extras records };

    /// Puts a framed record that is no extra behind the history.
    fn put(&mut self, framed: &[u8]) -> Result<(), Stop>
        requires framed { (r : Rec) × AreInner framed.now r }
        requires going { phase self.old ≡ phases.Going }
        ensures adds { (r : Rec) → AreInner framed.now r → adds self.old self.new [] (r ∷ []) }
        ensures goes_on { OnOk result (phase self.new ≡ phases.Going) }
        ensures stopped { IfErr result (λ stop. phase self.new ≡ phases.Stopped stop) }
        ensures cause { Cause (failures self.old) (failures self.new) result };

    /// Adds an Attachment, a Metadata or a record of an application, which waits for the end of the file. Only memory may lack
    /// for it.
    fn add_extra(&mut self, op: u8, content: &[u8]) -> Result<(), Stop>
        requires extra { IsExtra (top op content.now) }
        requires going { phase self.old ≡ phases.Going }
        ensures adds { adds self.old self.new (top op content.now ∷ []) [] }
        ensures goes_on { OnOk result (phase self.new ≡ phases.Going) }
        ensures stopped { IfErr result (λ stop. phase self.new ≡ phases.Stopped stop) }
        ensures cause { Cause (failures self.old) (failures self.new) result };

    /// Stops where memory lacks for what would come next, and stands for all of it.
    fn lack(&mut self) -> Stop
        requires going { phase self.old ≡ phases.Going }
        ensures why { result ≡ stops.Memory }
        ensures adds { (extras : List Top) (records : List Rec) → adds self.old self.new extras records }
        ensures stopped { phase self.new ≡ phases.Stopped result }
        ensures still { failures self.new ≡ failures self.old };

    /// Writes what ends the file.
    fn finish(&mut self) -> Result<(), Stop>
        requires going { phase self.old ≡ phases.Going }
        ensures ends { ends self.old self.new result }
        ensures cause { Cause (failures self.old) (failures self.new) result };
}
