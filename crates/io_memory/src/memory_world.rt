//! A world in memory: its names stand in a map.
ghost use Rattle.std.specs.Prelude.{◌≡◌, ◌↔◌, Some, None, [], map, Contains, IfOk, OnOk, OnErr, IsErr, IsTrue};
ghost use Rattle.std.specs.Option.{option_copied, option_map};
ghost use Rattle.mcap_io.specs.Outside.{TellsName, added};
ghost use Rattle.mcap_io.specs.OutsideCalls.{OthersSame, KeepsName, OpenCause, HasCause, TookNothingYet, TellsNothingYet, Opens, CountsStand, KeepsSource, KeepsSink, KeepsLive, LetsViewGo};
ghost use Rattle.mcap_io.specs.Stores.{IsUnused, TellsStore};
ghost use Rattle.mcap_io.specs.StoreAnswers.{KeepsStore};
ghost use Rattle.io_memory.specs.Planned.{next_call, OpensAsPlanned};
ghost use Rattle.io_memory.specs.Standing.{standing, shown, seen};

use crate::memory::{Calls, FailingWrite, MemoryLive, MemorySink, MemorySource, MemoryView};
use crate::openings::{Kept, Opened, list, make_room, note};
use crate::store_memory::MemoryStore;
use mcap_io::{
    Failed, LiveStore, LiveView, ObjectKind, OutsideRefused, Sink, Source, Store, World,
};
use std::alloc::{AllocError, Global};
use std::collections::BTreeMap;

/// Which calls on a world in memory are to fail, by their numbers from 0.
#[derive(Drop)]
pub struct Plan {
    /// The openings, of all objects in one count.
    pub openings: Vec<u64>,
    /// The keepings, of all objects in one count, views aside. Those of sinks and live stores put nothing under the name.
    pub keepings: Vec<u64>,
    /// The reads of each source that it opens; of each store the questions for its length and the reads, in one count.
    pub reads: Vec<u64>,
    /// The writes of each sink that it opens.
    pub writes: Vec<FailingWrite>,
    /// The appends of each live store that it opens.
    pub appends: Vec<FailingWrite>,
}

/// A world in memory, which fails where it is told to. A name that isn't there, and a keeping that lacks memory,
/// are faults too.
#[derive(Drop)]
pub struct MemoryWorld {
    alloc: Global,
    entries: BTreeMap<String, Vec<u8>>,
    openings: Calls,
    keepings: Calls,
    reads: Vec<u64>,
    writes: Vec<FailingWrite>,
    appends: Vec<FailingWrite>,
    faults: u64,
    input_faults: u64,
    output_faults: u64,
    watch_faults: u64,
    log: Vec<Opened>,
}

impl MemoryWorld {
    /// A world with no names.
    pub fn new(alloc: Global, plan: Plan) -> Self
        ensures tells { ⟦<MemoryWorld as World>⟧.state result
            ≡ record {
              told = Some (record {
                names = λ name. None;
                log = [];
              });
              faults = 0;
              input_faults = 0;
              output_faults = 0;
              watch_faults = 0;
            } }
        ensures openings { (result.openings.failing ≡ plan.openings) × (result.openings.made ≡ 0) }
        ensures keepings { (result.keepings.failing ≡ plan.keepings) × (result.keepings.made ≡ 0) }
        ensures reads { result.reads ≡ plan.reads }
        ensures writes { result.writes ≡ plan.writes }
        ensures appends { result.appends ≡ plan.appends }
    {
        let Plan {
            openings,
            keepings,
            reads,
            writes,
            appends,
        } = plan;
        MemoryWorld {
            alloc,
            entries: BTreeMap::new(alloc),
            openings: Calls::new(openings),
            keepings: Calls::new(keepings),
            reads,
            writes,
            appends,
            faults: 0,
            input_faults: 0,
            output_faults: 0,
            watch_faults: 0,
            log: Vec::new(alloc),
        }
    }

    /// Puts a copy of the bytes under the name.
    pub fn put(&mut self, name: &str, bytes: &[u8]) -> Result<(), AllocError>
        ensures placed { OnOk result (standing self.new.entries name.now ≡ Some bytes.now) }
        ensures others { OthersSame (standing self.old.entries) (standing self.new.entries) name.now }
        ensures refused { OnErr result (standing self.new.entries name.now ≡ standing self.old.entries name.now) }
        ensures rest { self.new ≡ record self.old { entries = self.new.entries } }
    {
        let copy = Vec::from_slice(self.alloc, bytes)?;
        place(self.alloc, &mut self.entries, name, copy)
    }

    /// What stands under the name.
    pub fn bytes(&self, name: &str) -> Option<&[u8]>
        ensures { option_copied result ≡ standing self.now.entries name.now }
    {
        match self.entries.get(name) {
            Some(bytes) => Some(bytes.as_slice()),
            None => None,
        }
    }

    // A copy of what stands under the name, and one of the plan of reads.
    fn copy_under(&mut self, name: &str, fails: bool) -> Result<(Vec<u8>, Vec<u64>), OutsideRefused>
        ensures bytes { IfOk result (λ copies. standing self.old.entries name.now ≡ Some copies.0.items) }
        ensures reads { IfOk result (λ copies. copies.1.items ≡ self.old.reads.items) }
        ensures cause { OpenCause self.old.faults self.new.faults result }
        ensures planned { OpensAsPlanned (IsTrue fails) (standing self.old.entries name.now ≡ None) result }
        ensures rest { self.new ≡ record self.old { faults = self.new.faults } }
    {
        let Some(bytes) = self.entries.get(name) else {
            self.faults = self.faults.saturating_add(1);
            return Err(OutsideRefused::Failed);
        };
        if fails {
            self.faults = self.faults.saturating_add(1);
            return Err(OutsideRefused::Failed);
        }
        let Ok(copy) = Vec::from_slice(self.alloc, bytes) else {
            return Err(OutsideRefused::Memory);
        };
        let Ok(reads) = Vec::from_slice(self.alloc, &self.reads) else {
            return Err(OutsideRefused::Memory);
        };
        Ok((copy, reads))
    }

    // A source of a copy of what stands under the name, with a plan of its own.
    fn open_source(&mut self, name: &str, fails: bool) -> Result<MemorySource, OutsideRefused>
        ensures tells { IfOk result (λ it. Some (⟦<MemorySource as Source>⟧.state it).left
            ≡ option_map Some (standing self.old.entries name.now)) }
        ensures unused { IfOk result (λ it. ((⟦<MemorySource as Source>⟧.state it).faults ≡ 0)
            × (it.reads.failing.items ≡ self.old.reads.items) × (it.reads.made ≡ 0)) }
        ensures cause { OpenCause self.old.faults self.new.faults result }
        ensures planned { OpensAsPlanned (IsTrue fails) (standing self.old.entries name.now ≡ None) result }
        ensures rest { self.new ≡ record self.old { faults = self.new.faults } }
    {
        match self.copy_under(name, fails) {
            Ok((bytes, reads)) => return Ok(MemorySource::new(bytes, reads)),
            Err(why) => return Err(why),
        }
    }

    // A store of a copy of what stands under the name, with a plan of its own.
    fn open_store(&mut self, name: &str, fails: bool) -> Result<MemoryStore, OutsideRefused>
        ensures tells { IfOk result (λ it. Some (⟦<MemoryStore as Store>⟧.state it).bytes
            ≡ option_map Some (standing self.old.entries name.now)) }
        ensures unused { IfOk result (λ it. IsUnused (⟦<MemoryStore as Store>⟧.state it)
            × (it.calls.failing.items ≡ self.old.reads.items) × (it.calls.made ≡ 0)) }
        ensures cause { OpenCause self.old.faults self.new.faults result }
        ensures planned { OpensAsPlanned (IsTrue fails) (standing self.old.entries name.now ≡ None) result }
        ensures rest { self.new ≡ record self.old { faults = self.new.faults } }
    {
        match self.copy_under(name, fails) {
            Ok((bytes, reads)) => return Ok(MemoryStore::new(bytes, reads)),
            Err(why) => return Err(why),
        }
    }

    // An empty sink, with a plan of its own.
    fn open_sink(&mut self, fails: bool) -> Result<MemorySink, OutsideRefused>
        ensures tells { IfOk result (λ it. ⟦<MemorySink as Sink>⟧.state it ≡ record { took = Some []; faults = 0 }) }
        ensures unused { IfOk result (λ it. (it.writes.failing.items ≡ self.old.writes.items) × (it.writes.made ≡ 0)) }
        ensures cause { OpenCause self.old.faults self.new.faults result }
        ensures planned { OpensAsPlanned (IsTrue fails) ⊥ result }
        ensures rest { self.new ≡ record self.old { faults = self.new.faults } }
    {
        if fails {
            self.faults = self.faults.saturating_add(1);
            return Err(OutsideRefused::Failed);
        }
        let Ok(writes) = Vec::from_slice(self.alloc, &self.writes) else {
            return Err(OutsideRefused::Memory);
        };
        Ok(MemorySink::new(self.alloc, writes))
    }

    // An empty live store, with a plan of its own.
    fn open_live(&mut self, fails: bool) -> Result<MemoryLive, OutsideRefused>
        ensures tells { IfOk result (λ it. ⟦<MemoryLive as LiveStore>⟧.state it
            ≡ record { held = Some []; faults = 0; waiting = 0 }) }
        ensures unused { IfOk result (λ it. (it.appends.failing.items ≡ self.old.appends.items)
            × (it.appends.made ≡ 0)) }
        ensures cause { OpenCause self.old.faults self.new.faults result }
        ensures planned { OpensAsPlanned (IsTrue fails) ⊥ result }
        ensures rest { self.new ≡ record self.old { faults = self.new.faults } }
    {
        if fails {
            self.faults = self.faults.saturating_add(1);
            return Err(OutsideRefused::Failed);
        }
        let Ok(appends) = Vec::from_slice(self.alloc, &self.appends) else {
            return Err(OutsideRefused::Memory);
        };
        Ok(MemoryLive::new(self.alloc, appends))
    }

    // Counts a keeping, which fails where it is to.
    fn count_keeping(&mut self) -> Result<(), Failed>
        ensures planned { IsErr result ↔ Contains self.old.keepings.failing.items self.old.keepings.made }
        ensures cause { HasCause self.old.faults self.new.faults result }
        ensures rest { self.new
            ≡ record self.old {
              faults = self.new.faults;
              keepings = record {
                failing = self.old.keepings.failing;
                made = next_call self.old.keepings.made;
              };
            } }
    {
        if self.keepings.next_fails() {
            self.faults = self.faults.saturating_add(1);
            return Err(Failed);
        }
        Ok(())
    }

    // Puts what a store held under the name. It fails where the keeping is to, and where memory lacks for the name.
    fn put_back(&mut self, name: &str, bytes: Vec<u8>) -> Result<(), Failed>
        ensures keeps { KeepsName (standing self.old.entries) (standing self.new.entries) name.now (Some bytes.items)
            result }
        ensures planned { Contains self.old.keepings.failing.items self.old.keepings.made
            → IsErr result × (self.new.entries ≡ self.old.entries) }
        ensures cause { HasCause self.old.faults self.new.faults result }
        ensures rest { self.new
            ≡ record self.old {
              entries = self.new.entries;
              faults = self.new.faults;
              keepings = record {
                failing = self.old.keepings.failing;
                made = next_call self.old.keepings.made;
              };
            } }
    {
        match self.count_keeping() {
            Ok(()) => {}
            Err(Failed) => return Err(Failed),
        }
        match place(self.alloc, &mut self.entries, name, bytes) {
            Ok(()) => return Ok(()),
            Err(AllocError) => {
                self.faults = self.faults.saturating_add(1);
                return Err(Failed);
            }
        }
    }

    /// The openings so far, in their order, each with how its object was taken back. One that memory lacked for is left
    /// out.
    pub fn log(&self) -> &[Opened]
        ensures { (⟦<MemoryWorld as World>⟧.state self.now).told
            ≡ Some (record { names = standing self.now.entries; log = map shown result.now }) }
    {
        &self.log
    }

    /// How many openings there were.
    pub fn openings(&self) -> u64
        ensures { result ≡ self.now.openings.made }
    {
        self.openings.made()
    }

    /// How many keepings there were.
    pub fn keepings(&self) -> u64
        ensures { result ≡ self.now.keepings.made }
    {
        self.keepings.made()
    }
}

// Puts the bytes under the name, in place of what stood there.
fn place(
    alloc: Global,
    entries: &mut BTreeMap<String, Vec<u8>>,
    name: &str,
    bytes: Vec<u8>,
) -> Result<(), AllocError>
    ensures placed { OnOk result (standing entries.new name.now ≡ Some bytes.items) }
    ensures others { OthersSame (standing entries.old) (standing entries.new) name.now }
    ensures refused { OnErr result (standing entries.new name.now ≡ standing entries.old name.now) }
{
    let key = String::from_str(alloc, name)?;
    entries.insert(key, bytes)?;
    Ok(())
}

impl World for MemoryWorld {
    type Source = MemorySource;

    type Store = MemoryStore;

    type Sink = MemorySink;

    type Live = MemoryLive;

    ghost state = { λ w. seen w };

    fn source(&mut self, name: &str) -> Result<MemorySource, OutsideRefused>
        ensures opens { Opens (seen self.old) (seen self.new) ObjectKind.Source name.now result }
        ensures tells { IfOk result (λ it. TellsName (seen self.old) name.now (⟦<MemorySource as Source>⟧.state it)) }
        ensures unused { IfOk result (λ it. (⟦<MemorySource as Source>⟧.state it).faults ≡ 0) }
        ensures counts { CountsStand (seen self.old) (seen self.new) }
        ensures cause { OpenCause self.old.faults self.new.faults result }
        ensures planned { OpensAsPlanned (Contains self.old.openings.failing.items self.old.openings.made)
            (standing self.old.entries name.now ≡ None) result }
        ensures plan { IfOk result (λ it. (it.reads.failing.items ≡ self.old.reads.items) × (it.reads.made ≡ 0)) }
        ensures rest { self.new
            ≡ record self.old {
              log = self.new.log;
              faults = self.new.faults;
              openings = record {
                failing = self.old.openings.failing;
                made = next_call self.old.openings.made;
              };
            } }
    {
        let fails = self.openings.next_fails();
        let Ok(copy) = make_room(self.alloc, &mut self.log, name) else {
            return Err(OutsideRefused::Memory);
        };
        match self.open_source(name, fails) {
            Ok(source) => {
                list(&mut self.log, ObjectKind::Source, copy, true);
                return Ok(source);
            }
            Err(OutsideRefused::Failed) => {
                list(&mut self.log, ObjectKind::Source, copy, false);
                return Err(OutsideRefused::Failed);
            }
            Err(OutsideRefused::Memory) => return Err(OutsideRefused::Memory),
        }
    }

    fn store(&mut self, name: &str) -> Result<MemoryStore, OutsideRefused>
        ensures opens { Opens (seen self.old) (seen self.new) ObjectKind.Store name.now result }
        ensures tells { IfOk result (λ it. TellsStore (seen self.old) name.now (⟦<MemoryStore as Store>⟧.state it)) }
        ensures unused { IfOk result (λ it. IsUnused (⟦<MemoryStore as Store>⟧.state it)) }
        ensures counts { CountsStand (seen self.old) (seen self.new) }
        ensures cause { OpenCause self.old.faults self.new.faults result }
        ensures planned { OpensAsPlanned (Contains self.old.openings.failing.items self.old.openings.made)
            (standing self.old.entries name.now ≡ None) result }
        ensures plan { IfOk result (λ it. (it.calls.failing.items ≡ self.old.reads.items) × (it.calls.made ≡ 0)) }
        ensures rest { self.new
            ≡ record self.old {
              log = self.new.log;
              faults = self.new.faults;
              openings = record {
                failing = self.old.openings.failing;
                made = next_call self.old.openings.made;
              };
            } }
    {
        let fails = self.openings.next_fails();
        let Ok(copy) = make_room(self.alloc, &mut self.log, name) else {
            return Err(OutsideRefused::Memory);
        };
        match self.open_store(name, fails) {
            Ok(store) => {
                list(&mut self.log, ObjectKind::Store, copy, true);
                return Ok(store);
            }
            Err(OutsideRefused::Failed) => {
                list(&mut self.log, ObjectKind::Store, copy, false);
                return Err(OutsideRefused::Failed);
            }
            Err(OutsideRefused::Memory) => return Err(OutsideRefused::Memory),
        }
    }

    fn sink(&mut self, name: &str) -> Result<MemorySink, OutsideRefused>
        ensures opens { Opens (seen self.old) (seen self.new) ObjectKind.Sink name.now result }
        ensures tells { IfOk result (λ it. TookNothingYet (seen self.old) (⟦<MemorySink as Sink>⟧.state it)) }
        ensures unused { IfOk result (λ it. (⟦<MemorySink as Sink>⟧.state it).faults ≡ 0) }
        ensures counts { CountsStand (seen self.old) (seen self.new) }
        ensures cause { OpenCause self.old.faults self.new.faults result }
        ensures planned { OpensAsPlanned (Contains self.old.openings.failing.items self.old.openings.made) ⊥ result }
        ensures plan { IfOk result (λ it. (it.writes.failing.items ≡ self.old.writes.items) × (it.writes.made ≡ 0)) }
        ensures rest { self.new
            ≡ record self.old {
              log = self.new.log;
              faults = self.new.faults;
              openings = record {
                failing = self.old.openings.failing;
                made = next_call self.old.openings.made;
              };
            } }
    {
        let fails = self.openings.next_fails();
        let Ok(copy) = make_room(self.alloc, &mut self.log, name) else {
            return Err(OutsideRefused::Memory);
        };
        match self.open_sink(fails) {
            Ok(sink) => {
                list(&mut self.log, ObjectKind::Sink, copy, true);
                return Ok(sink);
            }
            Err(OutsideRefused::Failed) => {
                list(&mut self.log, ObjectKind::Sink, copy, false);
                return Err(OutsideRefused::Failed);
            }
            Err(OutsideRefused::Memory) => return Err(OutsideRefused::Memory),
        }
    }

    fn live(&mut self, name: &str) -> Result<MemoryLive, OutsideRefused>
        ensures opens { Opens (seen self.old) (seen self.new) ObjectKind.Live name.now result }
        ensures tells { IfOk result (λ it. TellsNothingYet (seen self.old) (⟦<MemoryLive as LiveStore>⟧.state it)) }
        ensures unused { IfOk result (λ it. (⟦<MemoryLive as LiveStore>⟧.state it).faults ≡ 0) }
        ensures counts { CountsStand (seen self.old) (seen self.new) }
        ensures cause { OpenCause self.old.faults self.new.faults result }
        ensures planned { OpensAsPlanned (Contains self.old.openings.failing.items self.old.openings.made) ⊥ result }
        ensures plan { IfOk result (λ it. (it.appends.failing.items ≡ self.old.appends.items) × (it.appends.made ≡ 0)) }
        ensures rest { self.new
            ≡ record self.old {
              log = self.new.log;
              faults = self.new.faults;
              openings = record {
                failing = self.old.openings.failing;
                made = next_call self.old.openings.made;
              };
            } }
    {
        let fails = self.openings.next_fails();
        let Ok(copy) = make_room(self.alloc, &mut self.log, name) else {
            return Err(OutsideRefused::Memory);
        };
        match self.open_live(fails) {
            Ok(live) => {
                list(&mut self.log, ObjectKind::Live, copy, true);
                return Ok(live);
            }
            Err(OutsideRefused::Failed) => {
                list(&mut self.log, ObjectKind::Live, copy, false);
                return Err(OutsideRefused::Failed);
            }
            Err(OutsideRefused::Memory) => return Err(OutsideRefused::Memory),
        }
    }

    fn keep_source(&mut self, name: &str, it: MemorySource) -> Result<(), Failed>
        ensures keeps { KeepsSource (seen self.old) (seen self.new) name.now (⟦<MemorySource as Source>⟧.state it)
            result }
        ensures input_faults { self.new.input_faults ≡ added self.old.input_faults it.faults }
        ensures output_faults { self.new.output_faults ≡ self.old.output_faults }
        ensures watch_faults { self.new.watch_faults ≡ self.old.watch_faults }
        ensures cause { HasCause self.old.faults self.new.faults result }
        ensures planned { IsErr result ↔ Contains self.old.keepings.failing.items self.old.keepings.made }
        ensures rest { self.new
            ≡ record self.old {
              log = self.new.log;
              faults = self.new.faults;
              input_faults = self.new.input_faults;
              keepings = record {
                failing = self.old.keepings.failing;
                made = next_call self.old.keepings.made;
              };
            } }
    {
        self.input_faults = self.input_faults.saturating_add(it.faults());
        let faults = it.faults();
        let rest = it.into_quiet();
        let counted = self.count_keeping();
        let kept = Kept {
            well: counted.is_ok(),
            faults,
            rest: Some(rest),
            asked: 0,
        };
        note(&mut self.log, ObjectKind::Source, name, kept);
        counted
    }

    fn keep_store(&mut self, name: &str, it: MemoryStore) -> Result<(), Failed>
        ensures keeps { KeepsStore (seen self.old) (seen self.new) name.now (⟦<MemoryStore as Store>⟧.state it) result }
        ensures input_faults { self.new.input_faults ≡ added self.old.input_faults it.faults }
        ensures output_faults { self.new.output_faults ≡ self.old.output_faults }
        ensures watch_faults { self.new.watch_faults ≡ self.old.watch_faults }
        ensures cause { HasCause self.old.faults self.new.faults result }
        ensures planned { IsErr result ↔ Contains self.old.keepings.failing.items self.old.keepings.made }
        ensures rest { self.new
            ≡ record self.old {
              log = self.new.log;
              faults = self.new.faults;
              input_faults = self.new.input_faults;
              keepings = record {
                failing = self.old.keepings.failing;
                made = next_call self.old.keepings.made;
              };
            } }
    {
        self.input_faults = self.input_faults.saturating_add(it.faults());
        let faults = it.faults();
        let asked = it.asked();
        let counted = self.count_keeping();
        let kept = Kept {
            well: counted.is_ok(),
            faults,
            rest: None,
            asked,
        };
        note(&mut self.log, ObjectKind::Store, name, kept);
        counted
    }

    fn keep_sink(&mut self, name: &str, it: MemorySink) -> Result<(), Failed>
        ensures keeps { KeepsSink (seen self.old) (seen self.new) name.now (⟦<MemorySink as Sink>⟧.state it) result }
        ensures input_faults { self.new.input_faults ≡ self.old.input_faults }
        ensures output_faults { self.new.output_faults ≡ self.old.output_faults }
        ensures watch_faults { self.new.watch_faults ≡ added self.old.watch_faults it.faults }
        ensures cause { HasCause self.old.faults self.new.faults result }
        // It fails where it is to, and where memory lacks for the name.
        ensures planned { Contains self.old.keepings.failing.items self.old.keepings.made
            → IsErr result × (self.new.entries ≡ self.old.entries) }
        ensures rest { self.new
            ≡ record self.old {
              log = self.new.log;
              faults = self.new.faults;
              watch_faults = self.new.watch_faults;
              entries = self.new.entries;
              keepings = record {
                failing = self.old.keepings.failing;
                made = next_call self.old.keepings.made;
              };
            } }
    {
        let faults = it.faults();
        self.watch_faults = self.watch_faults.saturating_add(faults);
        let put = self.put_back(name, it.into_bytes());
        let kept = Kept {
            well: put.is_ok(),
            faults,
            rest: None,
            asked: 0,
        };
        note(&mut self.log, ObjectKind::Sink, name, kept);
        put
    }

    fn keep_live(&mut self, name: &str, it: MemoryLive) -> Result<(), Failed>
        ensures keeps { KeepsLive (seen self.old) (seen self.new) name.now (⟦<MemoryLive as LiveStore>⟧.state it)
            result }
        ensures input_faults { self.new.input_faults ≡ self.old.input_faults }
        ensures output_faults { self.new.output_faults ≡ added self.old.output_faults it.faults }
        ensures watch_faults { self.new.watch_faults ≡ self.old.watch_faults }
        ensures cause { HasCause self.old.faults self.new.faults result }
        // It fails where it is to, and where memory lacks for the name.
        ensures planned { Contains self.old.keepings.failing.items self.old.keepings.made
            → IsErr result × (self.new.entries ≡ self.old.entries) }
        ensures rest { self.new
            ≡ record self.old {
              log = self.new.log;
              faults = self.new.faults;
              output_faults = self.new.output_faults;
              entries = self.new.entries;
              keepings = record {
                failing = self.old.keepings.failing;
                made = next_call self.old.keepings.made;
              };
            } }
    {
        self.output_faults = self.output_faults.saturating_add(it.faults());
        let faults = it.faults();
        let put = self.put_back(name, it.into_bytes());
        let kept = Kept {
            well: put.is_ok(),
            faults,
            rest: None,
            asked: 0,
        };
        note(&mut self.log, ObjectKind::Live, name, kept);
        put
    }

    fn keep_view(&mut self, it: MemoryView)
        ensures lets_go { LetsViewGo (seen self.old) (seen self.new) it.faults }
        ensures rest { self.new ≡ record self.old { watch_faults = self.new.watch_faults } }
    {
        self.watch_faults = self.watch_faults.saturating_add(it.faults());
    }

    fn faults(&self) -> u64 {
        self.faults
    }

    fn input_faults(&self) -> u64 {
        self.input_faults
    }

    fn output_faults(&self) -> u64 {
        self.output_faults
    }

    fn watch_faults(&self) -> u64 {
        self.watch_faults
    }
}
