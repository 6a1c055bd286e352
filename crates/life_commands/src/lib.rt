//! The commands of a life, and the lines that answer them.
//!
//! [`step`] carries a command of the script out on a life that one thread owns (`own_life`), and gives its lines, as `transcript`
//! spells them; or it says with which [`Status`] the run ends there. [`close`] is the command that ends a life.
//!
//! The model is a script's turns (`specs/Turns`): each a command with the entries that it adds to the history of its life, and
//! how it ended. Which turn may stand behind which, with which entries, is a table (`specs/Rows`), and so is its text
//! (`specs/Text`). They are said of all commands, also of those where no life is open, since what a life may open depends on
//! what the lives before may have left (`Last` in `specs/Turns`).
//!
//! What is promised (`specs/Promises`), of every row of turns that the life may stand for (`Within` in `specs/Living`):
//!
//! 1. Lines are given only with one turn more, of this command, that fits behind those turns; the life stands for them all
//!    then, and these are its lines. Behind a close no life is open, and the devices that the life hands out stand for them.
//! 2. A status comes only for its cause (`specs/Refusals`), and whatever disk the life hands out then keeps a log that may be
//!    found. A fault of the log disk comes only where that disk failed by itself (`specs/Causes`); one that an armed fuse made is
//!    a line. No fault of the data device is told. One of the vault is a status, and the life goes on behind one that its armed fuse
//!    made, which is a line.
#![tactic(auto)]

mod asking;
mod closing;
mod devices;
mod ending;
mod failing;
mod life;
mod status;
mod storing;
mod upkeep;

pub use closing::close;
pub use failing::MOST_REFUSED;
pub use life::step;
pub use status::Status;
