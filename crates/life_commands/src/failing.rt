//! Calls of a life that fail.
ghost use Rattle.std.specs.Prelude.{◌≡◌, ◌<◌, ◌↔◌, true, IfErr, IfOk, IsTrue};
ghost use Rattle.store_model.specs.declared.fault.Fault.TheVariants as faults;
ghost use Rattle.life_commands.specs.Faults.{FailsAs};

use crate::status::Status;
use store_model::Fault;

/// From so many refused calls on a command wants memory; a fuse refuses far fewer.
pub const MOST_REFUSED: u64 = 1 << 62;

/// A call failed: a line says so, where the log disk's fuse refused it. Of so many calls before, and of so many now.
pub fn fail(fault: Fault, failed: Vec<u8>, before: u64, now: u64) -> Result<Vec<u8>, Status>
    ensures ok { IfOk result (λ out. (fault ≡ faults.LogFault) × (out ≡ failed) × (before < now)) }
    ensures err { IfErr result (FailsAs before now fault) }
{
    match fault {
        Fault::LogFault => {
            if before < now {
                Ok(failed)
            } else {
                Err(Status::LogFault)
            }
        }
        Fault::VaultFault => Err(Status::VaultFault),
        Fault::LogBad { block, byte } => Err(Status::BlockBad { block, byte }),
        Fault::VaultBad { object, byte } => Err(Status::VaultBad { object, byte }),
        _ => Err(Status::Memory),
    }
}

/// Whether the vault's fuse refused the call that failed so: it does so only where it is armed. Of so many calls before, and of so
/// many now.
pub fn is_refused(fault: &Fault, armed: bool, before: u64, now: u64) -> bool
    ensures { IsTrue result ↔ ((fault.now ≡ faults.VaultFault) × (armed ≡ true) × (before < now)) }
{
    match fault {
        Fault::VaultFault => armed && before < now,
        _ => false,
    }
}
