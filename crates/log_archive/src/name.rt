//! Which object has a run.
ghost use Rattle.std.specs.Prelude.{◌≡◌, ◌-◌, length};
ghost use Rattle.store_model.specs.declared.fault.Fault.TheVariants as faults;
ghost use Rattle.log_archive.specs.Run.{run_name};

use store_model::{Fault, ObjectKind, ObjectName};

/// The name of a run's object.
pub fn run_name(run: u64) -> ObjectName
    ensures { result ≡ run_name run }
{
    ObjectName {
        kind: ObjectKind::Run,
        id: run,
        part: 0,
    }
}

/// The fault of a run's object at this byte.
pub fn bad_at(run: u64, byte: usize) -> Fault
    ensures { result ≡ faults.VaultBad (run_name run) byte }
{
    Fault::VaultBad {
        object: run_name(run),
        byte: byte as u64,
    }
}
