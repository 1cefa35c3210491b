//! The traits of the outside, and the answers of their calls.
ghost use Rattle.std.specs.Prelude.{◌≡◌, ◌+◌, ◌≤◌, ◌<◌, ℕ, List, Option, Some, length, Ok, IfOk, IfErr, OnOk};
ghost use Rattle.std.specs.List.{concat};
ghost use Rattle.mcap_io.specs.Appending.{EachLeaves, EachCause};
ghost use Rattle.mcap_io.specs.Stores.{IsUnused, TellsStore};
ghost use Rattle.mcap_io.specs.StoreAnswers.{KeepsStore, GivesPart};
ghost use Rattle.mcap_io.specs.Outside.{SourceState, SinkState, LiveState, WorldState, Adds, TellsName, added};
ghost use Rattle.mcap_io.specs.OutsideCalls.{HasCause, OpenCause, AppendCause, ReadGives, Writes, AppendLeaves, Opens, CountsStand, KeepsSource, KeepsSink, KeepsLive, LetsViewGo, TookNothingYet, TellsNothingYet};

use crate::pieces::{Pieces, piece_at};
use crate::store::Store;

/// The outside failed: the count of the object has risen in that call.
#[derive(Clone, Copy, PartialEq, Eq)]
pub struct Failed;

/// What a world opens.
#[derive(Clone, Copy, PartialEq, Eq)]
pub enum ObjectKind {
    Source,
    Store,
    Sink,
    Live,
}

/// Why nothing was opened, or a stretch not read: the outside failed, or memory lacked.
#[derive(Clone, Copy, PartialEq, Eq)]
pub enum OutsideRefused {
    Failed,
    Memory,
}

/// Why a piece was not appended: the store failed and took the first `taken` bytes of it, or memory lacked
/// and it took none.
#[derive(Clone, Copy, PartialEq, Eq)]
pub enum AppendRefused {
    Failed { taken: u64 },
    Memory,
}

/// Why not all pieces were appended: those before the byte `whole` were, and the one that begins there was not.
#[derive(Clone, Copy, PartialEq, Eq)]
pub struct EachRefused {
    pub whole: u64,
    pub why: AppendRefused,
}

/// A sink failed before it took all of a piece. At least the first `taken` bytes were taken.
#[derive(Clone, Copy, PartialEq, Eq)]
pub struct Short {
    pub taken: usize,
}

/// A stream of bytes that is read once, from its front.
pub trait Source {
    /// What it has left, where it tells that, and how often it has failed.
    ghost state: { Self → SourceState };

    /// The second is the first, later.
    ghost stays: { Self → Self → Type 0 };

    /// A source stays itself where nothing is called, and over several calls.
    ghost stays_so: { (s : Self) → stays s s };

    ghost stays_on: { (s t u : Self) → stays s t → stays t u → stays s u };

    /// Reads into the front of `out`. 0 means the end of the input, or no room in `out`.
    fn read(&mut self, out: &mut [u8]) -> Result<usize, Failed>
        ensures bound { IfOk result (λ n. n ≤ length out.new) }
        ensures gives { ReadGives (state self.old).left (state self.new).left out.new result }
        ensures no_room { length out.new ≡ 0 → (result ≡ Ok 0) × (state self.new ≡ state self.old) }
        ensures cause { HasCause (state self.old).faults (state self.new).faults result }
        ensures stays { stays self.old self.new };

    fn faults(&self) -> u64
        ensures { result ≡ (state self.now).faults };
}

/// What takes a stream of bytes.
pub trait Sink {
    /// What it took, where it tells that, and how often it has failed.
    ghost state: { Self → SinkState };

    /// Takes some first bytes of the piece, at least one where there is one.
    fn write(&mut self, bytes: &[u8]) -> Result<usize, Failed>
        ensures bound { IfOk result (λ n. n ≤ length bytes.now) }
        ensures goes_on { IfOk result (λ n. 0 < length bytes.now → 0 < n) }
        ensures takes { Writes (state self.old).took (state self.new).took bytes.now result }
        ensures cause { HasCause (state self.old).faults (state self.new).faults result };

    fn faults(&self) -> u64
        ensures { result ≡ (state self.now).faults };
}

/// The place of what one append took.
pub trait Extent: Drop {
    /// The bytes of that append, for good, where the store tells them.
    ghost tells: { Self → Option (List ℕ) };

    /// Their number.
    ghost size: { Self → ℕ };

    /// A copy. It takes no memory.
    fn same(&self) -> Self
        ensures { result ≡ self.now };

    fn len(&self) -> u64
        ensures { result ≡ size self.now };

    /// The bytes that are told are as many as the size says.
    ghost sized: { (e : Self) (bytes : List ℕ) → tells e ≡ Some bytes → length bytes ≡ size e };
}

/// Reads what a live store holds, while that goes on.
pub trait LiveView<X: Extent> {
    /// How often it has failed.
    ghost failures: { Self → ℕ };

    /// Fills `out` with the bytes of the extent that stand from `from` on.
    fn read_part(&mut self, extent: &X, from: u64, out: &mut [u8]) -> Result<(), Failed>
        requires { from + length out.old ≤ X.size extent.now }
        ensures gives { GivesPart (X.tells extent.now) from out.new result }
        ensures cause { HasCause (failures self.old) (failures self.new) result };

    fn faults(&self) -> u64
        ensures { result ≡ failures self.now };
}

/// A store that is written by appending, and may be read meanwhile.
pub trait LiveStore {
    type Extent: Extent;

    type View: LiveView<Self::Extent>;

    /// What it holds, where it tells that, how often it has failed, and how many bytes wait in it.
    ghost state: { Self → LiveState };

    /// Puts the piece behind what it holds. The store may keep it back for a while before it is with the system.
    fn append(&mut self, bytes: &[u8]) -> Result<Self::Extent, AppendRefused>
        ensures adds { IfOk result (λ e. Adds (state self.old).held (state self.new).held bytes.now) }
        ensures extent { IfOk result (λ e. (Self.Extent.size e ≡ length bytes.now)
            × ((before : List ℕ) → (state self.old).held ≡ Some before → Self.Extent.tells e ≡ Some bytes.now)) }
        // Whether the store tells or not, an extent tells nothing else.
        ensures names { IfOk result (λ e. (told : List ℕ) → Self.Extent.tells e ≡ Some told → told ≡ bytes.now) }
        ensures leaves { IfErr result (AppendLeaves (state self.old).held (state self.new).held bytes.now) }
        ensures waits { (state self.new).waiting ≤ (state self.old).waiting + length bytes.now }
        ensures cause { AppendCause (state self.old).faults (state self.new).faults result };

    /// Does the same; after an Ok all that was appended is with the system.
    fn append_through(&mut self, bytes: &[u8]) -> Result<Self::Extent, AppendRefused>
        ensures adds { IfOk result (λ e. Adds (state self.old).held (state self.new).held bytes.now) }
        ensures extent { IfOk result (λ e. (Self.Extent.size e ≡ length bytes.now)
            × ((before : List ℕ) → (state self.old).held ≡ Some before → Self.Extent.tells e ≡ Some bytes.now)) }
        // Whether the store tells or not, an extent tells nothing else.
        ensures names { IfOk result (λ e. (told : List ℕ) → Self.Extent.tells e ≡ Some told → told ≡ bytes.now) }
        ensures leaves { IfErr result (AppendLeaves (state self.old).held (state self.new).held bytes.now) }
        ensures waits { (state self.new).waiting ≤ (state self.old).waiting + length bytes.now }
        ensures through { OnOk result ((state self.new).waiting ≡ 0) }
        ensures cause { AppendCause (state self.old).faults (state self.new).faults result };

    /// Appends the pieces in their order, each as `append` does, until one is refused.
    fn append_each<P: Pieces>(&mut self, pieces: &P) -> Result<(), EachRefused>
        ensures adds { OnOk result (Adds (state self.old).held (state self.new).held (concat (P.list pieces.now))) }
        ensures leaves { IfErr result (EachLeaves (state self.old).held (state self.new).held (P.list pieces.now)) }
        ensures cause { EachCause (state self.old).faults (state self.new).faults result }
        ensures waits { (state self.new).waiting ≤ (state self.old).waiting + length (concat (P.list pieces.now)) }
    {
        let len = pieces.bytes().len();
        let mut at = 0;
        'pieces: while at < len {
            let piece = piece_at(pieces, at);
            match self.append(piece.bytes) {
                Ok(_) => at = piece.end,
                Err(why) => {
                    return Err(EachRefused {
                        whole: at as u64,
                        why,
                    });
                }
            }
        }
        return Ok(());
    }

    /// Makes a view of it, which reads what is with the system.
    fn view(&mut self) -> Result<Self::View, Failed>
        ensures held { (state self.new).held ≡ (state self.old).held }
        ensures waits { (state self.new).waiting ≤ (state self.old).waiting }
        ensures unused { IfOk result (λ it. Self.View.failures it ≡ 0) }
        ensures cause { HasCause (state self.old).faults (state self.new).faults result };

    fn faults(&self) -> u64
        ensures { result ≡ (state self.now).faults };
}

/// The names that the program reads and writes. Each object that it opens comes back by a keep call.
pub trait World {
    type Source: Source + Send + Drop;

    type Store: Store + Send;

    type Sink: Sink + Send + Drop;

    type Live: LiveStore<Extent: Send + Sync, View: Send + Drop> + Send + Drop;

    /// What it tells of its names and openings, how often an opening or a keeping has failed, and the faults of what was
    /// taken back.
    ghost state: { Self → WorldState };

    /// Opens what stands under the name. A name that isn't there is a fault.
    fn source(&mut self, name: &str) -> Result<Self::Source, OutsideRefused>
        ensures opens { Opens (state self.old) (state self.new) ObjectKind.Source name.now result }
        ensures tells { IfOk result (λ it. TellsName (state self.old) name.now (Self.Source.state it)) }
        ensures unused { IfOk result (λ it. (Self.Source.state it).faults ≡ 0) }
        ensures counts { CountsStand (state self.old) (state self.new) }
        ensures cause { OpenCause (state self.old).faults (state self.new).faults result };

    /// Opens what stands under the name, to be read at any place. A name that isn't there is a fault.
    fn store(&mut self, name: &str) -> Result<Self::Store, OutsideRefused>
        ensures opens { Opens (state self.old) (state self.new) ObjectKind.Store name.now result }
        ensures tells { IfOk result (λ it. TellsStore (state self.old) name.now (Self.Store.state it)) }
        ensures unused { IfOk result (λ it. IsUnused (Self.Store.state it)) }
        ensures counts { CountsStand (state self.old) (state self.new) }
        ensures cause { OpenCause (state self.old).faults (state self.new).faults result };

    /// Makes an empty sink, whose bytes are to stand under the name.
    fn sink(&mut self, name: &str) -> Result<Self::Sink, OutsideRefused>
        ensures opens { Opens (state self.old) (state self.new) ObjectKind.Sink name.now result }
        ensures tells { IfOk result (λ it. TookNothingYet (state self.old) (Self.Sink.state it)) }
        ensures unused { IfOk result (λ it. (Self.Sink.state it).faults ≡ 0) }
        ensures counts { CountsStand (state self.old) (state self.new) }
        ensures cause { OpenCause (state self.old).faults (state self.new).faults result };

    /// Makes an empty live store that is to stand under the name.
    fn live(&mut self, name: &str) -> Result<Self::Live, OutsideRefused>
        ensures opens { Opens (state self.old) (state self.new) ObjectKind.Live name.now result }
        ensures tells { IfOk result (λ it. TellsNothingYet (state self.old) (Self.Live.state it)) }
        ensures unused { IfOk result (λ it. (Self.Live.state it).faults ≡ 0) }
        ensures counts { CountsStand (state self.old) (state self.new) }
        ensures cause { OpenCause (state self.old).faults (state self.new).faults result };

    /// Takes a source back, after a failure too.
    fn keep_source(&mut self, name: &str, it: Self::Source) -> Result<(), Failed>
        ensures keeps { KeepsSource (state self.old) (state self.new) name.now (Self.Source.state it) result }
        ensures input_faults { (state self.new).input_faults
            ≡ added (state self.old).input_faults (Self.Source.state it).faults }
        ensures output_faults { (state self.new).output_faults ≡ (state self.old).output_faults }
        ensures watch_faults { (state self.new).watch_faults ≡ (state self.old).watch_faults }
        ensures cause { HasCause (state self.old).faults (state self.new).faults result };

    /// Takes a store back, after a failure too.
    fn keep_store(&mut self, name: &str, it: Self::Store) -> Result<(), Failed>
        ensures keeps { KeepsStore (state self.old) (state self.new) name.now (Self.Store.state it) result }
        ensures input_faults { (state self.new).input_faults
            ≡ added (state self.old).input_faults (Self.Store.state it).faults }
        ensures output_faults { (state self.new).output_faults ≡ (state self.old).output_faults }
        ensures watch_faults { (state self.new).watch_faults ≡ (state self.old).watch_faults }
        ensures cause { HasCause (state self.old).faults (state self.new).faults result };

    /// Takes a sink back, and puts what it took under the name.
    fn keep_sink(&mut self, name: &str, it: Self::Sink) -> Result<(), Failed>
        ensures keeps { KeepsSink (state self.old) (state self.new) name.now (Self.Sink.state it) result }
        ensures input_faults { (state self.new).input_faults ≡ (state self.old).input_faults }
        ensures output_faults { (state self.new).output_faults ≡ (state self.old).output_faults }
        ensures watch_faults { (state self.new).watch_faults
            ≡ added (state self.old).watch_faults (Self.Sink.state it).faults }
        ensures cause { HasCause (state self.old).faults (state self.new).faults result };

    /// Takes a live store back, and puts what it holds under the name.
    fn keep_live(&mut self, name: &str, it: Self::Live) -> Result<(), Failed>
        ensures keeps { KeepsLive (state self.old) (state self.new) name.now (Self.Live.state it) result }
        ensures input_faults { (state self.new).input_faults ≡ (state self.old).input_faults }
        ensures output_faults { (state self.new).output_faults
            ≡ added (state self.old).output_faults (Self.Live.state it).faults }
        ensures watch_faults { (state self.new).watch_faults ≡ (state self.old).watch_faults }
        ensures cause { HasCause (state self.old).faults (state self.new).faults result };

    /// Takes a view back. It can't be refused, and changes nothing but the count.
    fn keep_view(&mut self, it: <Self::Live as LiveStore>::View)
        ensures { LetsViewGo (state self.old) (state self.new) (Self.Live.View.failures it) };

    fn faults(&self) -> u64
        ensures { result ≡ (state self.now).faults };

    fn input_faults(&self) -> u64
        ensures { result ≡ (state self.now).input_faults };

    fn output_faults(&self) -> u64
        ensures { result ≡ (state self.now).output_faults };

    fn watch_faults(&self) -> u64
        ensures { result ≡ (state self.now).watch_faults };
}
