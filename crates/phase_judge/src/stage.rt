//! Where a transaction stands.
ghost use Rattle.std.specs.Prelude.{◌≡◌};
ghost use Rattle.wal_record.specs.History.{is_live, is_over};
ghost use Rattle.phase_judge.specs.Phases.{is_committed, phase_of};

/// The phases of a transaction. `Idle` is one that didn't begin in this life.
#[derive(Clone, Copy)]
pub enum Stage {
    Idle,
    Live,
    Committed,
    Acknowledged,
    Ended,
}

/// A transaction: the session that began it in this life, if one did, and where it stands.
#[derive(Clone, Copy)]
pub struct Started {
    pub session: Option<u32>,
    pub stage: Stage,
}

/// Whether it is live.
pub fn is_live(stage: Stage) -> bool
    ensures { result ≡ is_live (phase_of stage) }
{
    matches!(stage, Stage::Live)
}

/// Whether it is committed, and wasn't acknowledged.
pub fn is_committed(stage: Stage) -> bool
    ensures { result ≡ is_committed (phase_of stage) }
{
    matches!(stage, Stage::Committed)
}

/// Whether it was acknowledged or has ended.
pub fn is_over(stage: Stage) -> bool
    ensures { result ≡ is_over (phase_of stage) }
{
    matches!(stage, Stage::Acknowledged | Stage::Ended)
}
