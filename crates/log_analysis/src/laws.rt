//! Laws of blocks that are taken, which no program runs.
ghost use Rattle.std.specs.Prelude.{List, ℕ};
ghost use Rattle.wal_record.specs.declared.record.Record.{Record};
ghost use Rattle.log_index.specs.declared.listing.Listing.{Listing};
ghost use Rattle.log_analysis.specs.Laws.{NextLaw, WholeLaw};

/// Blocks one behind the other are taken one after the other.
pub fn next_law()
    ensures { (checkpoint first : ℕ) (own more : List Record) (old now new : Listing) → NextLaw checkpoint first own more old now new }
{}

/// Blocks that have the last Checkpoint and all records behind it make the listing of the whole log, whatever records stand
/// before them, and whatever listing is begun with. Where there is no Checkpoint, so do all blocks with the listing of no
/// record.
pub fn whole_law()
    ensures { (checkpoint : ℕ) (before own : List Record) (old new : Listing) → WholeLaw checkpoint before own old new }
{}
