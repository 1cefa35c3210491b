//! How far the writing of a file has come.
use mcap_model::Stop;

/// Records may come; or the writer stopped; or the file was ended.
#[derive(Clone, Copy)]
pub enum Phase {
    Going,
    Stopped { stop: Stop },
    Ended,
}
