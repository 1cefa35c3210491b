//! The numbers of ids of a whole file.
ghost use Rattle.std.specs.Prelude.{List};
ghost use Rattle.mcap_model.specs.Tops.{Top, flat};
ghost use Rattle.mcap_model.specs.Declarations.{TablesOf};
ghost use Rattle.mcap_model.specs.Whole.{IsDataSection};
ghost use Rattle.index_check.specs.Tally.{TallyOf};

use index_check::Tally;
use mcap_model::Tables;

/// Takes the numbers of ids in the whole file to what was counted of its data section.
pub(crate) fn count_ids(tally: &mut Tally, tables: &Tables)
    ensures { (tops section all : List Top) → TallyOf tops section tally.old → IsDataSection all section
        → TablesOf (flat all) tables.now → TallyOf all section tally.new }
{
    tally.schemas.in_file = tables.schemas.len() as u64;
    tally.channels.in_file = tables.channels.len() as u64;
}
