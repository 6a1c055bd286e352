//! Runs a script of commands over a store, and prints its transcript.
//!
//! The way of a line: `line_reader` reads it, `script` says which command it spells, `turns` has it carried out, by `outside`
//! where no life is open and else by `life_commands`, and writes the lines that answer it before it reads on. A run is a row of
//! lives, each from an `open` to a `close`, a `stop` or the end of the run. A life (`own_life`) owns its journal, with the log
//! and the log's disk, under a name that `living` picks; its pages, over the data device, are lent to each command. Between two
//! lives there are the three devices alone. Each is in a fuse, which lines arm and renew, and which a stop renews. Whether the vault's
//! fuse is armed a run remembers itself (`WithVault` in `specs/Vault`), since no call of a life tells it.
//!
//! The states of a run, and what leads from one to another (a line that isn't here is refused with its status):
//!
//! ```text
//!                               format, damage, fuse, renew, stop
//!                                        +-----+
//!                                        |     v
//!                                     ( no life )  <-----------------+
//!                                         |                          |
//!                                    open |                          | close, stop
//!                                         v                          |
//!   begin, get, put, del, scan, op,   ( a life ) --------------------+
//!   commit, abort, checkpoint, backup,    |                          |
//!   archive, lose, help, stat, +------    |                          |
//!   damage, fuse, renew        +----->    | the log's fuse refuses   |
//!                                         | a call of a command      |
//!                                         v                          |
//!   the same commands:           ( an ended life ) ------------------+
//!   answered as ended;                    |
//!   damage, fuse, renew     +---------    |
//!                           +-------->    |
//! ```
//!
//! A close that the log's fuse refuses a call of ends its life, too. Behind a command that the vault's fuse refused a call the life
//! goes on.
//!
//! The layer's promise is the clause `headline` of [`run_words`]. There are turns (`specs/Turns` of `life_commands`), each a
//! command with the entries that it adds to the history of its life. Their commands are those of the lines read, each fits
//! behind those before it (`specs/Rows` of `life_commands`), and their text (`specs/Text` of `life_commands`) is what was
//! written, all of it where the run is done (`specs/Clause`). Each life of theirs opens a log that the life before may have
//! left, or that was handed in or made; it is legal, has the replies of a serial run, and whatever a stop may leave of it has
//! its first transactions. The log disk that is handed back holds such a rest, also after a crash (`specs/LogDisk` of
//! `life_commands`), each image on the data device is of it, and each object that it names is synced in the vault
//! (`specs/Devices`; `specs/Stores` of `life_commands`). Each status comes for its own cause (`specs/Refusals` of
//! `life_commands`, `specs/Causes` of both).
//!
//! A call may begin with any use that may have left the devices so (`Last` in `specs/Turns` of `life_commands`), and those that
//! it hands back may be handed to the next call (`laws`). It may begin, too, with what is known of the bytes alone
//! (`specs/Bytes` of `life_commands`): over an open gate with something behind it no `format` is done, and where its bytes are
//! no block no life opens and no byte changes. A status of an opening or of a format shows what the bytes of a disk are
//! (`Shows` of `store_log`).
//!
//! What a disk tells is said twice: of disks that tell, with what they hold, and of all, with the form of the transcript
//! alone. Each clause is universal over these views (`View` in `specs/LogDisk` of `life_commands`).
//!
//! Only `run`, `living` and `turns` speak of turns; the commands in `outside` and in `life_commands` are universal over the
//! `Stage` that turns leave (`specs/Machine`; `specs/Living` and `specs/Promises` of `life_commands`), and see neither source
//! nor sink.
#![tactic(auto)]

mod at;
mod laws;
mod living;
mod outside;
mod run;
mod stop;
mod turns;

pub use laws::{next_call_law, standing_law};
pub use life_commands::Status;
pub use run::run_words;
