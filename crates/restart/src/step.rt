//! Which step of maintenance goes first.
ghost use Rattle.std.specs.Prelude.{◌≡◌};
ghost use Rattle.restart.specs.Steps.{first_step};

/// The work that waits, by its kind: the least number of each, None where there is none.
#[derive(Clone, Copy, Debug, PartialEq, Eq)]
pub struct Counts {
    /// The least loser without an End.
    pub undo: Option<u64>,
    /// The least segment that isn't restored.
    pub restore: Option<u64>,
    /// The least page that awaits redo.
    pub redo: Option<u64>,
    /// The least page in a frame whose image is older than it.
    pub write: Option<u64>,
    /// The first LSN of the next archive run.
    pub archive: Option<u64>,
}

/// A step of maintenance, with the number of what it works on.
#[derive(Clone, Copy, Debug, PartialEq, Eq)]
pub enum Step {
    UndoLoser(u64),
    RestoreSegment(u64),
    RedoPage(u64),
    WritePage(u64),
    ArchiveNext(u64),
}

/// The step that goes first, None where no work waits. Losers come first, since their locks keep requests waiting, and
/// archiving last, since it saves space alone.
pub fn choose(counts: &Counts) -> Option<Step>
    ensures { result ≡ first_step counts.now }
{
    if let Some(loser) = counts.undo {
        return Some(Step::UndoLoser(loser));
    }
    if let Some(segment) = counts.restore {
        return Some(Step::RestoreSegment(segment));
    }
    if let Some(page) = counts.redo {
        return Some(Step::RedoPage(page));
    }
    if let Some(page) = counts.write {
        return Some(Step::WritePage(page));
    }
    counts.archive.map(Step::ArchiveNext)
}
