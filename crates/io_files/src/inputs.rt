//! The files that are open as inputs, by what the system tells them apart by.
ghost use Rattle.std.specs.Prelude.{◌≡◌, ◌↔◌, Contains, IsTrue};
ghost use Rattle.io_files.specs.Inputs.{LetsGo};

use std::fs::Metadata;
use std::os::unix::fs::MetadataExt;

/// A file: its device, and its number there.
#[derive(Clone, Copy, PartialEq, Eq)]
pub(crate) struct FileId {
    device: u64,
    inode: u64,
}

impl FileId {
    // The file that these are the metadata of.
    pub(crate) fn of(metadata: &Metadata) -> FileId {
        FileId {
            device: metadata.dev(),
            inode: metadata.ino(),
        }
    }
}

// Whether the file is one of them.
pub(crate) fn holds(inputs: &[FileId], id: FileId) -> bool
    ensures { IsTrue result ↔ Contains inputs.now id }
{
    inputs.contains(&id)
}

// Takes the file out of them, once; it may be open as an input twice.
pub(crate) fn let_go(inputs: &mut Vec<FileId>, id: FileId)
    ensures { LetsGo inputs.old.items inputs.new.items id }
{
    let mut at = inputs.len();
    'walk: while 0 < at {
        at -= 1;
        if inputs[at] == id {
            let _gone = inputs.remove(at);
            return;
        }
    }
}
