//! What may cross threads.
use byte_region::Region;
use chunk_build::Chunker;
use id_table::IdTable;
use record_cache::Cache;
use record_core::Desk;
use summary_write::Summary;

fn crosses<T: Send + Sync>() {}

#[test]
fn parts_of_a_recording_cross_threads() {
    crosses::<IdTable>();
    crosses::<Chunker>();
    crosses::<Summary>();
    crosses::<Region>();
    crosses::<Cache>();
    crosses::<Desk>();
}
