//! A count that threads share, the list behind it, and a durable number beside it.
//!
//! A life of the store has one history, a list of entries to which one holder adds. What is stored is one word, the
//! length of that list. The list itself is in no memory: it is what the holders' tokens know of, and contracts speak
//! of it. A second word is the LSN up to which the log is durable, which only rises.
//!
//! - `Count` is a count of 0 that no one shares yet. `Count::split` makes of it a `Board`, the `Front`, the `Mark`
//!   and a first `Pass`.
//! - `Board` is the two words. Threads share it by reference, and each call is passed it.
//! - `Front` is the one token that adds to the list. Contracts see it as the whole list.
//! - `Mark` is the one token that stores the durable number. Contracts see it as that number.
//! - `Pass` is what a holder has seen. Contracts see it as a record with a beginning of the list, `log`, and a durable
//!   number that there was, `durable`.
//!
//! What holds:
//!
//! 1. The first word is the length of the list, and each pass has seen a beginning of the list (`IsCounted`).
//! 2. What a pass has seen it never loses: not by `Pass::look` or `Pass::durable`, nor by a meeting.
//! 3. After `Front::meet` the pass has seen exactly the whole list, which begins with all that it had seen before.
//! 4. After `Mark::meet` the pass has seen exactly the durable number, which is at least what it had seen before.
//! 5. After `Pass::meet` the pass has seen all that both had seen: what two passes saw are beginnings of one list.
//!
//! `CountName` names the count in a type, so that a lock round a token still tells which count it is of.
//!
//! Each call makes a constant number of atomic steps on the words, and only `Count::new` takes memory. The kinds of step:
//!
//! 1. making the table, in `Count::new`;
//! 2. splitting a seat, in `Count::split`, `Pass::copy`, `Front::meet`, `Mark::store` and `Mark::meet`;
//! 3. the addition of `Front::advance`, by the front's seat;
//! 4. a load of the first word, in `Pass::look` and after each join into a pass or the front;
//! 5. joining a seat into another, in the `meet`s and `Mark::store`;
//! 6. the store of `Mark::store`, by the mark's seat;
//! 7. a load of the second word, in `Pass::durable` and `Mark::meet`.
#![tactic(auto)]

mod count;
mod front;
mod mark;
mod pass;
mod steps;
mod view;

pub use count::{Board, Count, CountName};
pub use front::{Added, Front};
pub use mark::Mark;
pub use pass::Pass;
