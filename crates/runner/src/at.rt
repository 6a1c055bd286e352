//! Where a run is, and one step of it.
ghost use Rattle.std.specs.Prelude.{◌≡◌};
ghost use Rattle.runner.specs.Causes.{disk_at};

use life_commands::Status;
use media::Disk;
use store_log::Opened;

/// Outside of a life, with the log disk, or within one.
#[derive(Drop)]
pub enum At<L, F> {
    Outside { disk: L },
    Inside { life: F },
}

/// What a command did: its lines and where the run is then, or why it ended the run.
#[derive(Drop)]
pub enum Stepped<L, F> {
    Goes { lines: Vec<u8>, at: At<L, F> },
    Ends { status: Status, disk: L },
}

/// The log disk where a life may begin, where the run ends.
pub fn disk_opened<L: Disk>(at: At<L, Opened<L>>) -> L
    ensures { result ≡ disk_at (λ log. log.log.log.device) at }
{
    match at {
        At::Outside { disk } => disk,
        At::Inside { life } => life.into_device(),
    }
}
