//! The law of lawful logs.
ghost use Rattle.std.specs.Prelude.{List, ◌<◌, ◌^◌, length};
ghost use Rattle.wal_record.specs.Checkpoints.{checkpoint_of};
ghost use Rattle.wal_record.specs.Rules.{KeepsCheckpoint};
ghost use Rattle.wal_record.specs.Sound.{AreLawful};
ghost use Rattle.wal_record.specs.declared.record.Record.{Record};
ghost use Rattle.checkpoint_form.specs.Modest.{IsModest};

/// The Checkpoint of a lawful log keeps the rules of its fields and is modest, so [`crate::has_form`] says yes to it.
pub fn lawful_law()
    ensures keeps { (log : List Record) → AreLawful log → length log < 2 ^ 63 → KeepsCheckpoint (checkpoint_of log) }
    ensures modest { (log : List Record) → AreLawful log → IsModest (checkpoint_of log) }
{}
