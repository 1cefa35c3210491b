//! What holds of the definitions of the format, each law as the contract of a function that does nothing.
#![tactic(auto)]

ghost use Rattle.mcap_model.specs.Recovery.{RepairsCanBeWritten, FilesAreRepaired, FrontsAreRepaired, RepairsKeepMessages, RepairsGoOn, GoodRecordsAreKept};
ghost use Rattle.mcap_laws.specs.Parts.{PartsAreRepaired};
ghost use Rattle.mcap_laws.specs.Repairs.{RepairsKeepRules};
ghost use Rattle.mcap_model.specs.Laws.{GoodFromTheFront, ReadingsHaltOnce, KeptIsOne, HaltsAreLast, FrontsKeepWhole, RecordsAreFound, ChunksAreOpened, ExtrasAreIndexed, ChunksAreWritten, IndexesAreWritten, ReplaysAreOne, BlocksAreOne, PiecesStandInTurn, PiecesAreOne, PlainPiecesAreRecords, SizesRipen, GoodListsAgree, GoodListsAreScanned, NumberedIdsAgree, RepeatsMayGo, RepairsAreOne, FlawsExcludeValidity, FilesAreScanned, FilesAreValid, FilesAreIndexed, PrefixesAreKept, GoodHistoriesAgree, SmallBlocksFit, WholeFilesAreOne, PiecesMakeFiles, StopsLeavePrefixes, IndexesLeadToTheScan, LedReplaysAreScans};

/// What stands in front in a good list is a good list.
pub fn good_from_the_front()
    ensures { GoodFromTheFront }
{}

/// Bytes decide what a reading of them keeps, and where and why it halts, but for the rule where several are broken at once.
pub fn readings_halt_once()
    ensures { ReadingsHaltOnce }
{}

/// Bytes decide what is kept of them.
pub fn kept_is_one()
    ensures { KeptIsOne }
{}

/// Good records behind which the reading halts are the longest good list.
pub fn halts_are_last()
    ensures { HaltsAreLast }
{}

/// A front of bytes with good records up to the Data End keeps those of them that are whole in it.
pub fn fronts_keep_whole()
    ensures { FrontsKeepWhole }
{}

/// The records that some bytes spell are those that are found in them, up to where no whole record begins.
pub fn records_are_found()
    ensures { RecordsAreFound }
{}

/// What a chunk shows as its records are those that its content holds.
pub fn chunks_are_opened()
    ensures { ChunksAreOpened }
{}

/// The Chunk that is written of records without extras is right, and its records are theirs.
pub fn chunks_are_written()
    ensures { ChunksAreWritten }
{}

/// The Message Indexes that are written of records are those of their channels, and have their entries.
pub fn indexes_are_written()
    ensures { IndexesAreWritten }
{}

/// What is indexed of an Attachment, and of a Metadata, is what it shows.
pub fn extras_are_indexed()
    ensures { ExtrasAreIndexed }
{}

/// A replay of some messages is one list.
pub fn replays_are_one()
    ensures { ReplaysAreOne }
{}

/// A history without its extras is cut into blocks in one way, which is that of its pieces, wherever blocks that are ripe stay so.
pub fn blocks_are_one()
    ensures { BlocksAreOne }
{}

/// In front of each place of a history stand just the extras among some first pieces; its other records there are those of
/// their blocks, which are ripe, and some that wait and aren't. At its end what waits is the last piece, if there is any.
pub fn pieces_stand_in_turn()
    ensures { PiecesStandInTurn }
{}

/// No other pieces stand so at every place.
pub fn pieces_are_one()
    ensures { PiecesAreOne }
{}

/// So it is with blocks of a size, and of a span of log times.
pub fn sizes_ripen()
    ensures { SizesRipen }
{}

/// Without a chunk size each record is a piece, whatever the span.
pub fn plain_pieces_are_records()
    ensures { PlainPiecesAreRecords }
{}

/// The flat records of a good list meet their layouts, and each agrees with those before it.
pub fn good_lists_agree()
    ensures { GoodListsAgree }
{}

/// A good list has one scan.
pub fn good_lists_are_scanned()
    ensures { GoodListsAreScanned }
{}

/// The ids of a numbered history agree, and none of its Schemas has the id 0.
pub fn numbered_ids_agree()
    ensures { NumberedIdsAgree }
{}

/// A history without extras whose ids agree is such a history without what declares an id again.
pub fn repeats_may_go()
    ensures { RepeatsMayGo }
{}

/// Bytes decide what is kept of them when they are repaired.
pub fn repairs_are_one()
    ensures { RepairsAreOne }
{}

/// A file in which a rule fails isn't valid.
pub fn flaws_exclude_validity()
    ensures { FlawsExcludeValidity }
{}

/// A file is read to its Data End, and its messages are those of the history, in order.
pub fn files_are_scanned()
    ensures { FilesAreScanned }
{}

/// A file that is written is valid.
pub fn files_are_valid()
    ensures { FilesAreValid }
{}

/// With a chunk size it is fully indexed.
pub fn files_are_indexed()
    ensures { FilesAreIndexed }
{}

/// Of a first part of a file that is read to its Data End, the records up to there that are whole are kept.
pub fn prefixes_are_kept()
    ensures { PrefixesAreKept }
{}

/// The ids of a history agree where its records are a good list behind a Header.
pub fn good_histories_agree()
    ensures { GoodHistoriesAgree }
{}

/// In blocks that are cut at a size of at most 64 MiB the entries of each Message Index fit behind their length.
pub fn small_blocks_fit()
    ensures { SmallBlocksFit }
{}

/// A whole file is one list of records.
pub fn whole_files_are_one()
    ensures { WholeFilesAreOne }
{}

/// A file is its pieces, one behind the other.
pub fn pieces_make_files()
    ensures { PiecesMakeFiles }
{}

/// What stands where a writer stopped is a first part of all its pieces.
pub fn stops_leave_prefixes()
    ensures { StopsLeavePrefixes }
{}

/// On a fully indexed file the summary leads, in a range, to just the messages of the scan.
pub fn indexes_lead_to_the_scan()
    ensures { IndexesLeadToTheScan }
{}

/// There a replay of what the summary leads to is one of the scan, and the other way round.
pub fn led_replays_are_scans()
    ensures { LedReplaysAreScans }
{}

/// What is repaired has the messages of the scan, all of them, in order.
pub fn repairs_keep_messages()
    ensures { RepairsKeepMessages }
{}

/// Of the first ones of some records repairing makes first parts.
pub fn repairs_go_on()
    ensures { RepairsGoOn }
{}

/// Good records with which bytes begin are the first that are kept of them.
pub fn good_records_are_kept()
    ensures { GoodRecordsAreKept }
{}

/// A file is read to its Data End, and repairing makes of it what it was written of.
pub fn files_are_repaired()
    ensures { FilesAreRepaired }
{}

/// Of a first part of a file just what is whole there is kept, and the reading says where and why it ends.
pub fn fronts_are_repaired()
    ensures { FrontsAreRepaired }
{}

/// So it is where the file is too long to be read, but for a part that ends in a record whose end is past the limit.
pub fn parts_are_repaired()
    ensures { PartsAreRepaired }
{}

/// What repairing makes of good records keeps the rules.
pub fn repairs_keep_rules()
    ensures { RepairsKeepRules }
{}

/// Of that a file can be written.
pub fn repairs_can_be_written()
    ensures { RepairsCanBeWritten }
{}
