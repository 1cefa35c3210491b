//! What a file that is read says of a new one.
ghost use Rattle.std.specs.Prelude.{◌≡◌, [], IfOk, OnErr};
ghost use Rattle.rec_data.specs.Fields.{HeaderFields};
ghost use Rattle.rec_data.specs.Records.{ShowsHeader};

use mcap_wire::{Memory, Text};
use rec_data::Header;
use std::alloc::Global;

/// The profile of a Header. An empty one takes no memory.
pub fn profile_in(alloc: Global, content: &[u8]) -> Result<Text, Memory>
    ensures profile { (f : HeaderFields) → ShowsHeader content.now f → IfOk result (λ profile. profile ≡ f.profile) }
    ensures lacks { OnErr result ((f : HeaderFields) → ShowsHeader content.now f → f.profile ≡ [] → ⊥) }
{
    match Header::parse(content) {
        Ok(header) => {
            if header.profile.is_empty() {
                return Ok(Text::new(String::new(alloc)));
            }
            return Text::copied(alloc, header.profile);
        }
        Err(_) => return Ok(Text::new(String::new(alloc))),
    }
}
