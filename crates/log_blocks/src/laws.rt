//! What the definitions of the log imply.
ghost use Rattle.std.specs.Prelude.{◌≡◌, ℕ, List};
ghost use Rattle.media.specs.Kept.{Kept};
ghost use Rattle.log_blocks.specs.Log.{Block, StandsFor};
ghost use Rattle.log_blocks.specs.Opening.{IsBadAt};

/// The kept bytes stand for one list of blocks at most: a log can be read in one way only.
pub fn one_log()
    ensures { (bs cs : List Block) (k : Kept) → StandsFor bs k → StandsFor cs k → bs ≡ cs }
{}

/// Where the kept bytes stand for blocks, no block is bad: an opening that names one does so only where they stand for
/// no list of blocks.
pub fn never_bad()
    ensures { (bs : List Block) (block byte : ℕ) (k : Kept) → StandsFor bs k → IsBadAt block byte k → ⊥ }
{}
