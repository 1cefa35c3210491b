//! The world of files. What a file gives or keeps no clause can say, so its objects tell nothing.
ghost use Rattle.std.proofs.Common.{◌∙◌};
ghost use Rattle.std.specs.Prelude.{refl, ◌≡◌, ◌≤◌, ◌<◌, ◌+◌, ◌-◌, ◌^◌, ℕ, List, length, min, [], ◌∷◌, ◌++◌, Ok, Some, None, false, IsTrue, IsErr, IfOk, IfErr, OnOk, OnErr};
ghost use Rattle.std.specs.List.{concat};
ghost use Rattle.io_files.specs.Ahead.{ahead, AheadReads};
ghost use Rattle.io_files.specs.Files.{nothing, PlacedAs, IsWritten};
ghost use Rattle.mcap_io.specs.Appending.{EachLeaves, EachCause};
ghost use Rattle.io_files.specs.Gathered.{Stores, StoresEach};
ghost use Rattle.io_files.specs.Inputs.{LetsGo};
ghost use Rattle.mcap_io.specs.Stores.{IsUnused};
ghost use Rattle.mcap_io.specs.StoreAnswers.{GivesPart};
ghost use Rattle.mcap_io.specs.Outside.{Adds, RisesOnce, added};
ghost use Rattle.mcap_io.specs.OutsideCalls.{HasCause, OpenCause, ReadGives, AppendCause, AppendLeaves, LetsViewGo};

use crate::ahead::{ROOM, ReadAhead};
use crate::gather::Gather;
use crate::inputs::{FileId, holds, let_go};
use crate::store_files::FileStore;
use crate::writer::WriterSink;
use mcap_io::{
    AppendRefused, EachRefused, Extent, Failed, LiveStore, LiveView, OutsideRefused, Pieces, Short,
    Sink, Source, Store, World, refused_in,
};
use std::alloc::{AllocError, Global};
use std::fs::{Metadata, OpenFile, OpenOptions};
use std::io::{Read, Write};
use std::os::unix::fs::FileExt;
use std::rt::Files;

/// A source over a file. It reads up to 262,144 bytes ahead; a larger read goes past its buffer.
#[derive(Drop)]
pub struct FileSource<F> {
    ahead: ReadAhead<F>,
    id: FileId,
    faults: u64,
}

impl<F: Read + Drop> FileSource<F> {
    // The buffer is taken here.
    fn new(alloc: Global, file: F, id: FileId) -> Result<Self, AllocError>
        ensures unused { IfOk result (λ it. (⟦<FileSource<F> as Source>⟧.state it).faults ≡ 0) }
        ensures id { IfOk result (λ it. it.id ≡ id) }
        ensures left { IfOk result (λ it. ahead it.ahead.buffer.items it.ahead.from it.ahead.to
            (F.remaining it.ahead.file) ≡ F.remaining file) }
    {
        let ahead = ReadAhead::new(alloc, file)?;
        Ok(FileSource {
            ahead,
            id,
            faults: 0,
        })
    }

    fn close(self) {
        let FileSource {
            ahead: _,
            id: _,
            faults: _,
        } = self;
    }
}

impl<F: Read + Drop> Source for FileSource<F> {
    ghost state = { λ s. record { left = nothing; faults = s.faults } };

    /// It reads the same file.
    ghost stays = { λ s t. t.id ≡ s.id };

    ghost stays_so = { λ s. refl };

    ghost stays_on = { λ s t u first second. second ∙ first };

    fn read(&mut self, out: &mut [u8]) -> Result<usize, Failed>
        ensures bound { IfOk result (λ n. n ≤ length out.new) }
        ensures gives { ReadGives nothing nothing out.new result }
        ensures no_room { length out.new ≡ 0 → (result ≡ Ok 0) × (self.new ≡ self.old) }
        ensures cause { HasCause self.old.faults self.new.faults result }
        ensures stays { self.new.id ≡ self.old.id }
        // Where the file tells what it has left, no byte of it is lost.
        ensures file { AheadReads
            (ahead self.old.ahead.buffer.items self.old.ahead.from self.old.ahead.to (F.remaining self.old.ahead.file))
            (ahead self.new.ahead.buffer.items self.new.ahead.from self.new.ahead.to (F.remaining self.new.ahead.file))
            out.new result }
    {
        if out.is_empty() {
            return Ok(0);
        }
        match self.ahead.read(out) {
            Ok(n) => return Ok(n),
            Err(Failed) => {
                self.faults = self.faults.saturating_add(1);
                return Err(Failed);
            }
        }
    }

    fn faults(&self) -> u64 {
        self.faults
    }
}

/// Where the bytes of one append stand in the file.
#[derive(Clone, Copy, PartialEq, Eq)]
pub struct Stretch {
    pub from: u64,
    pub len: u64,
}

impl Extent for Stretch {
    ghost tells = { λ _. nothing };

    ghost size = { λ stretch. stretch.len };

    fn same(&self) -> Self {
        *self
    }

    fn len(&self) -> u64 {
        self.len
    }

    ghost sized = { λ stretch bytes told. Prim.cc };
}

/// A view over a handle of its own to the file. It reads at offsets what is with the system.
#[derive(Drop)]
pub struct FileView<F> {
    file: F,
    faults: u64,
}

impl<F: FileExt + Drop> LiveView<Stretch> for FileView<F> {
    ghost failures = { λ view. view.faults };

    fn read_part(&mut self, extent: &Stretch, from: u64, out: &mut [u8]) -> Result<(), Failed>
        requires { from + length out.old ≤ extent.now.len }
        ensures gives { GivesPart nothing from out.new result }
        ensures cause { HasCause self.old.faults self.new.faults result }
    {
        if let Some(at) = extent.from.checked_add(from) {
            match self.file.read_exact_at(out, at) {
                Ok(()) => return Ok(()),
                Err(_) => {}
            }
        }
        self.faults = self.faults.saturating_add(1);
        return Err(Failed);
    }

    fn faults(&self) -> u64 {
        self.faults
    }
}

/// A live store over a file. Pieces wait in a buffer of 262,144 bytes until it is full or the store is kept; a
/// larger piece goes past it. Once a write has failed, each append fails. A view can be made of a file that may be read
/// too, and of no pipe or device.
#[derive(Drop)]
pub struct FileLive<F> {
    gather: Gather<WriterSink<F>>,
    // The same file, opened once more to be read.
    reader: Option<F>,
    len: u64,
    faults: u64,
}

impl<F: Write + OpenFile + FileExt + Drop> FileLive<F> {
    // The room is an empty buffer. It is taken before the file is opened, since opening empties the file.
    fn new(room: Vec<u8>, file: F, reader: Option<F>) -> Self
        requires { room.items ≡ [] }
        ensures unused { result.faults ≡ 0 }
        ensures len { result.len ≡ 0 }
        ensures written { F.contents result.gather.sink.writer ≡ F.contents file }
        ensures room { result.gather.waiting ≡ room }
        ensures broken { result.gather.broken ≡ false }
    {
        FileLive {
            gather: Gather::new(WriterSink::new(file), room),
            reader,
            len: 0,
            faults: 0,
        }
    }

    // Writes all that waits and closes the file. It goes well only where a file now holds what it held and all that waited.
    fn finish(self) -> Result<(), Failed>
        ensures written { OnOk result (IsWritten F.contents self.gather.sink.writer self.gather.waiting.items) }
        ensures broken { IsTrue self.gather.broken → IsErr result }
    {
        let FileLive {
            mut gather,
            reader: _,
            len: _,
            faults: _,
        } = self;
        match gather.flush() {
            Ok(()) => return Ok(()),
            Err(_) => return Err(Failed),
        }
    }

    // Says where the piece stands, or counts its failure.
    fn placed(&mut self, put: Result<(), Short>, len: u64) -> Result<Stretch, AppendRefused>
        ensures answer { PlacedAs put self.old.len len result }
        ensures gather { self.new.gather ≡ self.old.gather }
        ensures len { IfOk result (λ e. self.new.len ≡ min (self.old.len + len) (2 ^ 64 - 1)) }
        ensures cause { AppendCause self.old.faults self.new.faults result }
    {
        match put {
            Ok(()) => {
                let from = self.len;
                self.len = from.saturating_add(len);
                return Ok(Stretch { from, len });
            }
            Err(short) => {
                self.faults = self.faults.saturating_add(1);
                return Err(AppendRefused::Failed {
                    taken: short.taken as u64,
                });
            }
        }
    }
}

impl<F: Write + OpenFile + FileExt + Drop> LiveStore for FileLive<F> {
    type Extent = Stretch;

    type View = FileView<F>;

    ghost state = { λ s. record { held = nothing; faults = s.faults; waiting = length s.gather.waiting.items } };

    fn append(&mut self, bytes: &[u8]) -> Result<Stretch, AppendRefused>
        ensures adds { IfOk result (λ e. Adds nothing nothing bytes.now) }
        ensures extent { IfOk result (λ e. (e.len ≡ length bytes.now)
            × ((before : List ℕ) → nothing ≡ Some before → nothing ≡ Some bytes.now)) }
        ensures names { IfOk result (λ e. (told : List ℕ) → nothing ≡ Some told → told ≡ bytes.now) }
        ensures leaves { IfErr result (AppendLeaves nothing nothing bytes.now) }
        ensures cause { AppendCause self.old.faults self.new.faults result }
        ensures waits { length self.new.gather.waiting.items ≤ length self.old.gather.waiting.items + length bytes.now }
        // The pieces stand one behind the other.
        ensures place { IfOk result (λ e. (e.from ≡ self.old.len)
            × (self.new.len ≡ min (self.old.len + e.len) (2 ^ 64 - 1))) }
        // Where the file tells what it holds, that and what waits hold all pieces in their order.
        ensures file { Stores (F.contents self.old.gather.sink.writer) self.old.gather.waiting.items
            (F.contents self.new.gather.sink.writer) self.new.gather.waiting.items bytes.now result }
        // It fails only where a write has failed.
        ensures written { self.old.gather.broken ≡ false
            → OnErr result (RisesOnce self.old.gather.sink.faults self.new.gather.sink.faults) }
        ensures broken { IsTrue self.old.gather.broken
            → IsErr result × (F.contents self.new.gather.sink.writer ≡ F.contents self.old.gather.sink.writer) }
    {
        let put = self.gather.put(bytes);
        self.placed(put, bytes.len() as u64)
    }

    fn append_through(&mut self, bytes: &[u8]) -> Result<Stretch, AppendRefused>
        ensures adds { IfOk result (λ e. Adds nothing nothing bytes.now) }
        ensures extent { IfOk result (λ e. (e.len ≡ length bytes.now)
            × ((before : List ℕ) → nothing ≡ Some before → nothing ≡ Some bytes.now)) }
        ensures names { IfOk result (λ e. (told : List ℕ) → nothing ≡ Some told → told ≡ bytes.now) }
        ensures leaves { IfErr result (AppendLeaves nothing nothing bytes.now) }
        ensures cause { AppendCause self.old.faults self.new.faults result }
        ensures waits { length self.new.gather.waiting.items ≤ length self.old.gather.waiting.items + length bytes.now }
        ensures through { OnOk result (length self.new.gather.waiting.items ≡ 0) }
        // The pieces stand one behind the other.
        ensures place { IfOk result (λ e. (e.from ≡ self.old.len)
            × (self.new.len ≡ min (self.old.len + e.len) (2 ^ 64 - 1))) }
        // Where the file tells what it holds, that and what waits hold all pieces in their order.
        ensures file { Stores (F.contents self.old.gather.sink.writer) self.old.gather.waiting.items
            (F.contents self.new.gather.sink.writer) self.new.gather.waiting.items bytes.now result }
        // It fails only where a write has failed.
        ensures written { self.old.gather.broken ≡ false
            → OnErr result (RisesOnce self.old.gather.sink.faults self.new.gather.sink.faults) }
        ensures broken { IsTrue self.old.gather.broken
            → IsErr result × (F.contents self.new.gather.sink.writer ≡ F.contents self.old.gather.sink.writer) }
        ensures none_waits { OnOk result (self.new.gather.waiting.items ≡ []) }
    {
        let put = self.gather.put_through(bytes);
        self.placed(put, bytes.len() as u64)
    }

    fn append_each<P: Pieces>(&mut self, pieces: &P) -> Result<(), EachRefused>
        ensures adds { OnOk result (Adds nothing nothing (concat (P.list pieces.now))) }
        ensures leaves { IfErr result (EachLeaves nothing nothing (P.list pieces.now)) }
        ensures cause { EachCause self.old.faults self.new.faults result }
        ensures waits { length self.new.gather.waiting.items
            ≤ length self.old.gather.waiting.items + length (concat (P.list pieces.now)) }
        // What is appended next stands behind them.
        ensures place { OnOk result (self.new.len
            ≡ min (self.old.len + length (concat (P.list pieces.now))) (2 ^ 64 - 1)) }
        // Where the file tells what it holds, that and what waits hold all pieces in their order.
        ensures file { StoresEach (F.contents self.old.gather.sink.writer) self.old.gather.waiting.items
            (F.contents self.new.gather.sink.writer) self.new.gather.waiting.items (concat (P.list pieces.now)) result }
        // It fails only where a write has failed.
        ensures written { self.old.gather.broken ≡ false
            → OnErr result (RisesOnce self.old.gather.sink.faults self.new.gather.sink.faults) }
        ensures broken { IsTrue self.old.gather.broken → 0 < length (concat (P.list pieces.now))
            → IsErr result × (F.contents self.new.gather.sink.writer ≡ F.contents self.old.gather.sink.writer) }
    {
        // The length is a number of 64 bits.
        let _len = self.len;
        let bytes = pieces.bytes();
        if bytes.is_empty() {
            return Ok(());
        }
        let put = self.gather.put(bytes);
        match self.placed(put, bytes.len() as u64) {
            Ok(_) => return Ok(()),
            Err(AppendRefused::Failed { taken }) => return Err(refused_in(pieces, taken as usize)),
            Err(AppendRefused::Memory) => unreachable!(),
        }
    }

    fn view(&mut self) -> Result<FileView<F>, Failed>
        ensures held { nothing ≡ nothing }
        ensures waits { length self.new.gather.waiting.items ≤ length self.old.gather.waiting.items }
        ensures unused { IfOk result (λ it. it.faults ≡ 0) }
        ensures cause { HasCause self.old.faults self.new.faults result }
        ensures rest { self.new ≡ record self.old { faults = self.new.faults } }
    {
        match again(&self.reader) {
            Ok(file) => return Ok(FileView { file, faults: 0 }),
            Err(Failed) => {
                self.faults = self.faults.saturating_add(1);
                return Err(Failed);
            }
        }
    }

    fn faults(&self) -> u64 {
        self.faults
    }
}

// Another handle to the file, if there is one.
fn again<F: OpenFile>(file: &Option<F>) -> Result<F, Failed> {
    let Some(file) = file else {
        return Err(Failed);
    };
    match file.try_clone() {
        Ok(file) => return Ok(file),
        Err(_) => return Err(Failed),
    }
}

/// The world of files. It counts an opening or a keeping that fails, and tells nothing of what stands under a name. An
/// output that is the same file as an input which is open is refused.
#[derive(Drop)]
pub struct FileWorld<R> {
    runtime: R,
    inputs: Vec<FileId>,
    faults: u64,
    input_faults: u64,
    output_faults: u64,
    watch_faults: u64,
}

impl<R: Files + AllocGlobal> FileWorld<R>
where
    R::File: Send + FileExt,
{
    /// The files of this runtime.
    pub fn new(runtime: R) -> Self
        ensures { ⟦<FileWorld<R> as World>⟧.state result
            ≡ record { told = None; faults = 0; input_faults = 0; output_faults = 0; watch_faults = 0 } }
    {
        let inputs = Vec::new(runtime.alloc());
        FileWorld {
            runtime,
            inputs,
            faults: 0,
            input_faults: 0,
            output_faults: 0,
            watch_faults: 0,
        }
    }
}

// Opens the file and empties it. One that is read as an input is refused and stays as it was.
fn open_output<R: Files>(runtime: &R, inputs: &[FileId], name: &str) -> Result<R::File, Failed> {
    let mut options = OpenOptions::new();
    options.write(true).create(true);
    let Ok(file) = runtime.open_file(&options, name) else {
        return Err(Failed);
    };
    let Ok(metadata) = file.metadata() else {
        return Err(Failed);
    };
    if metadata.is_file() {
        if holds(inputs, FileId::of(&metadata)) {
            return Err(Failed);
        }
        // A file that was emptied is written out when it is closed, which takes time.
        if metadata.len() > 0 {
            let Ok(()) = file.set_len(0) else {
                return Err(Failed);
            };
        }
    }
    Ok(file)
}

// Opens the file to be read.
fn open_to_read<R: Files>(runtime: &R, name: &str) -> Result<(R::File, Metadata), Failed> {
    let mut options = OpenOptions::new();
    options.read(true);
    let Ok(file) = runtime.open_file(&options, name) else {
        return Err(Failed);
    };
    match file.metadata() {
        Ok(metadata) => return Ok((file, metadata)),
        Err(_) => return Err(Failed),
    }
}

// Opens an output once more, to be read by views. A pipe isn't: a reader of our own would keep one alive that nobody
// else reads any more. Nor is another file, which stands under the name by now.
fn open_to_view<R: Files>(runtime: &R, file: &R::File, name: &str) -> Option<R::File> {
    let Ok(metadata) = file.metadata() else {
        return None;
    };
    if !metadata.is_file() {
        return None;
    }
    let Ok((reader, found)) = open_to_read(runtime, name) else {
        return None;
    };
    if FileId::of(&found) == FileId::of(&metadata) {
        return Some(reader);
    }
    None
}

// Opens the file, and says which it is. A folder, which would fail at its first read alone, is refused.
fn open_input<R: Files>(runtime: &R, name: &str) -> Result<(R::File, FileId), Failed> {
    let (file, metadata) = open_to_read(runtime, name)?;
    if metadata.is_dir() {
        return Err(Failed);
    }
    Ok((file, FileId::of(&metadata)))
}

// Opens a file to be read at any place. What has no length, as a pipe or a device, is refused: its bytes stand at no place.
fn open_store<R: Files>(runtime: &R, name: &str) -> Result<(R::File, FileId), Failed> {
    let (file, metadata) = open_to_read(runtime, name)?;
    if !metadata.is_file() {
        return Err(Failed);
    }
    Ok((file, FileId::of(&metadata)))
}

impl<R: Files + AllocGlobal> World for FileWorld<R>
where
    R::File: Send + FileExt,
{
    type Source = FileSource<R::File>;

    type Store = FileStore<R::File>;

    type Sink = WriterSink<R::File>;

    type Live = FileLive<R::File>;

    ghost state = { λ w. record
        { told = None; faults = w.faults; input_faults = w.input_faults; output_faults = w.output_faults; watch_faults = w.watch_faults } };

    fn source(&mut self, name: &str) -> Result<FileSource<R::File>, OutsideRefused>
        ensures unused { IfOk result (λ it. it.faults ≡ 0) }
        ensures input_faults { self.new.input_faults ≡ self.old.input_faults }
        ensures output_faults { self.new.output_faults ≡ self.old.output_faults }
        ensures watch_faults { self.new.watch_faults ≡ self.old.watch_faults }
        ensures cause { OpenCause self.old.faults self.new.faults result }
        ensures noted { IfOk result (λ it. self.new.inputs.items ≡ self.old.inputs.items ++ it.id ∷ []) }
        ensures rest { OnErr result (self.new.inputs.items ≡ self.old.inputs.items) }
    {
        let Ok(()) = self.inputs.reserve(1) else {
            return Err(OutsideRefused::Memory);
        };
        let Ok((file, id)) = open_input(&self.runtime, name) else {
            self.faults = self.faults.saturating_add(1);
            return Err(OutsideRefused::Failed);
        };
        match FileSource::new(self.runtime.alloc(), file, id) {
            Ok(source) => {
                self.inputs.push(id).unwrap();
                return Ok(source);
            }
            Err(AllocError) => return Err(OutsideRefused::Memory),
        }
    }

    fn store(&mut self, name: &str) -> Result<FileStore<R::File>, OutsideRefused>
        ensures unused { IfOk result (λ it. IsUnused (⟦<FileStore<R::File> as Store>⟧.state it)) }
        ensures input_faults { self.new.input_faults ≡ self.old.input_faults }
        ensures output_faults { self.new.output_faults ≡ self.old.output_faults }
        ensures watch_faults { self.new.watch_faults ≡ self.old.watch_faults }
        ensures cause { OpenCause self.old.faults self.new.faults result }
        ensures noted { IfOk result (λ it. self.new.inputs.items ≡ self.old.inputs.items ++ it.id ∷ []) }
        ensures rest { OnErr result (self.new.inputs.items ≡ self.old.inputs.items) }
    {
        let Ok(()) = self.inputs.reserve(1) else {
            return Err(OutsideRefused::Memory);
        };
        let Ok((file, id)) = open_store(&self.runtime, name) else {
            self.faults = self.faults.saturating_add(1);
            return Err(OutsideRefused::Failed);
        };
        self.inputs.push(id).unwrap();
        Ok(FileStore::new(self.runtime.alloc(), file, id))
    }

    fn sink(&mut self, name: &str) -> Result<WriterSink<R::File>, OutsideRefused> {
        match open_output(&self.runtime, &self.inputs, name) {
            Ok(file) => return Ok(WriterSink::new(file)),
            Err(Failed) => {
                self.faults = self.faults.saturating_add(1);
                return Err(OutsideRefused::Failed);
            }
        }
    }

    fn live(&mut self, name: &str) -> Result<FileLive<R::File>, OutsideRefused> {
        let Ok(room) = Vec::with_capacity(self.runtime.alloc(), ROOM) else {
            return Err(OutsideRefused::Memory);
        };
        match open_output(&self.runtime, &self.inputs, name) {
            Ok(file) => {
                let reader = open_to_view(&self.runtime, &file, name);
                return Ok(FileLive::new(room, file, reader));
            }
            Err(Failed) => {
                self.faults = self.faults.saturating_add(1);
                return Err(OutsideRefused::Failed);
            }
        }
    }

    fn keep_source(&mut self, _name: &str, it: FileSource<R::File>) -> Result<(), Failed>
        ensures input_faults { self.new.input_faults ≡ added self.old.input_faults it.faults }
        ensures output_faults { self.new.output_faults ≡ self.old.output_faults }
        ensures watch_faults { self.new.watch_faults ≡ self.old.watch_faults }
        ensures cause { HasCause self.old.faults self.new.faults result }
        ensures let_go { LetsGo self.old.inputs.items self.new.inputs.items it.id }
    {
        self.input_faults = self.input_faults.saturating_add(it.faults());
        let_go(&mut self.inputs, it.id);
        it.close();
        Ok(())
    }

    fn keep_store(&mut self, _name: &str, it: FileStore<R::File>) -> Result<(), Failed>
        ensures input_faults { self.new.input_faults ≡ added self.old.input_faults it.faults }
        ensures output_faults { self.new.output_faults ≡ self.old.output_faults }
        ensures watch_faults { self.new.watch_faults ≡ self.old.watch_faults }
        ensures cause { HasCause self.old.faults self.new.faults result }
        ensures let_go { LetsGo self.old.inputs.items self.new.inputs.items it.id }
    {
        self.input_faults = self.input_faults.saturating_add(it.faults());
        let_go(&mut self.inputs, it.close());
        Ok(())
    }

    fn keep_sink(&mut self, _name: &str, it: WriterSink<R::File>) -> Result<(), Failed> {
        self.watch_faults = self.watch_faults.saturating_add(it.faults());
        drop(it);
        Ok(())
    }

    fn keep_view(&mut self, it: FileView<R::File>) {
        self.watch_faults = self.watch_faults.saturating_add(it.faults());
        drop(it);
    }

    fn keep_live(&mut self, _name: &str, it: FileLive<R::File>) -> Result<(), Failed>
        ensures input_faults { self.new.input_faults ≡ self.old.input_faults }
        ensures output_faults { self.new.output_faults ≡ added self.old.output_faults it.faults }
        ensures watch_faults { self.new.watch_faults ≡ self.old.watch_faults }
        ensures cause { HasCause self.old.faults self.new.faults result }
        ensures written { OnOk result (IsWritten R.File.contents it.gather.sink.writer it.gather.waiting.items) }
        ensures broken { IsTrue it.gather.broken → IsErr result }
    {
        self.output_faults = self.output_faults.saturating_add(it.faults());
        match it.finish() {
            Ok(()) => return Ok(()),
            Err(Failed) => {
                self.faults = self.faults.saturating_add(1);
                return Err(Failed);
            }
        }
    }

    fn faults(&self) -> u64 {
        self.faults
    }

    fn input_faults(&self) -> u64 {
        self.input_faults
    }

    fn output_faults(&self) -> u64 {
        self.output_faults
    }

    fn watch_faults(&self) -> u64 {
        self.watch_faults
    }
}
