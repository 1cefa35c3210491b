//! What the program is asked to do, and how its usage shows that.
ghost use Rattle.std.specs.Prelude.{◌≡◌, ◌≢◌, MatchOption};
ghost use Rattle.command_words.specs.Commands.{command_name, usage_text};
ghost use Rattle.command_words.specs.declared.command.FileCommand.{FileCommand as Named};

use mcap_model::{Range, RecordOptions};
use mcap_wire::Text;
use std::marker::Model;

/// Names, from left to right. Contracts see the list of them.
#[derive(Drop)]
pub struct Names {
    names: Vec<Text>,
}

impl Model for Names {
    ghost use Rattle.std.specs.Prelude.{List, ℕ};

    ghost Value = { List (List ℕ) };

    ghost view = { λ f. f.names.items };
}

impl Names {
    pub fn new(names: Vec<Text>) -> Names
        ensures { result ≡ names.items }
    {
        Names { names }
    }

    pub fn as_slice(&self) -> &[Text]
        ensures { result.now ≡ self.now }
    {
        self.names.as_slice()
    }
}

/// A command of one file, without options.
#[derive(Clone, Copy)]
pub enum FileCommand {
    /// Print what the file is.
    Info,
    /// Check the file by the rules of the format.
    Check,
}

/// All commands of one file without options.
pub(crate) const FILE_COMMANDS: [FileCommand; 2] = [FileCommand::Info, FileCommand::Check];

impl FileCommand {
    /// The word that calls it.
    pub fn name(self) -> &'static str
        ensures { result.now ≡ command_name self }
    {
        match self {
            FileCommand::Info => "info",
            FileCommand::Check => "check",
        }
    }

    /// The one of this name.
    pub(crate) fn named(name: &str) -> Option<FileCommand>
        ensures { MatchOption result ((what : Named) → name.now ≢ command_name what)
            (λ what. name.now ≡ command_name what) }
    {
        if name == "info" {
            return Some(FileCommand::Info);
        }
        if name == "check" {
            return Some(FileCommand::Check);
        }
        None
    }
}

/// All commands with their options, a line each.
pub fn usage() -> &'static str
    ensures { result.now ≡ usage_text }
{
    "usage: mcaprec
  record [--plain] [--lossless] [--limit N] [--chunk N] [--profile T] [--watch START:END] [--watchers N] OUT FEED...
  info FILE
  check FILE
  cat [--indexed] [--start N] [--end N] [--topic T] FILE
  recover [--chunk N] IN OUT
  merge [--chunk N] OUT IN...
  gen SEED FEEDS MESSAGES OUT
  filter [--start N] [--end N] [--topic T] [--chunk N] IN OUT
  sort [--chunk N] IN OUT
  play [--start N] [--end N] [--topic T] FILE SCRIPT
"
}

/// A recording of the feeds under the names `feeds` to the file `out`, as `options` say. So many `watchers` replay the
/// messages in `range` meanwhile, at most 16.
#[derive(Drop)]
pub struct Recording {
    pub out: Text,
    pub feeds: Names,
    pub options: RecordOptions,
    pub range: Range,
    pub watchers: u32,
}

/// A command without options, and its file.
#[derive(Drop)]
pub struct Inspection {
    pub what: FileCommand,
    pub file: Text,
}

/// A printing of the messages in the range of log times, those of one topic where it is named, by the file's indexes
/// where `indexed` says so.
#[derive(Drop)]
pub struct Printing {
    pub file: Text,
    pub indexed: bool,
    pub range: Range,
    pub topic: Option<Text>,
}

/// A new file `out` of what a reading of the file `input` keeps, in chunks of `chunk` bytes of records.
#[derive(Drop)]
pub struct FileRecovery {
    pub input: Text,
    pub out: Text,
    pub chunk: u64,
}

/// A new file `out` of the files under the names `inputs`, in chunks of `chunk` bytes of records.
#[derive(Drop)]
pub struct FileMerge {
    pub out: Text,
    pub inputs: Names,
    pub chunk: u64,
}

/// A recording of `feeds` feeds of `messages` messages each, which follow from `seed`, to the file `out`.
#[derive(Drop)]
pub struct Generation {
    pub seed: u64,
    pub feeds: u64,
    pub messages: u32,
    pub out: Text,
}

/// A new file `out` of the messages of the file `input` in the range of log times, those of one topic where it is named, in
/// chunks of `chunk` bytes of records.
#[derive(Drop)]
pub struct FileFilter {
    pub input: Text,
    pub out: Text,
    pub range: Range,
    pub topic: Option<Text>,
    pub chunk: u64,
}

/// A new file `out` of the messages of the file `input` in the order of log time, in chunks of `chunk` bytes of records.
#[derive(Drop)]
pub struct FileSort {
    pub input: Text,
    pub out: Text,
    pub chunk: u64,
}

/// A playing of the messages of `file` in the range of log times, those of one topic where it is named, at the moments of
/// the file `script`.
#[derive(Drop)]
pub struct Playing {
    pub file: Text,
    pub script: Text,
    pub range: Range,
    pub topic: Option<Text>,
}

/// What the program is to do, with what the words give.
#[derive(Drop)]
pub enum Command {
    /// Record the feeds.
    Record(Recording),
    /// Do this with the file.
    OfFile(Inspection),
    /// Print the messages.
    Cat(Printing),
    /// Write what is left of a file.
    Recover(FileRecovery),
    /// Write one file of several.
    Merge(FileMerge),
    /// Record made feeds, and read that back.
    Generate(Generation),
    /// Write some messages of a file.
    Filter(FileFilter),
    /// Write the messages of a file by log time.
    Sort(FileSort),
    /// Print messages at moments.
    Play(Playing),
}

/// Why words give no command.
#[derive(Clone, Copy)]
pub enum WordsRefused {
    /// No command has these words.
    BadWords,
    /// There is no memory for what the words give.
    Memory,
}
