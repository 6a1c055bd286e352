//! Which locks conflict (`range_lock`); and threads that share a history's count (`front`), hand rights on (`books`) and
//! live one life (`page_ops`).
//!
//! The crate has tests alone. They stand here and not in those crates, since a crate with tests is proved twice.
#![tactic(auto)]

#[cfg(test)]
mod counts;
#[cfg(test)]
mod lives;
#[cfg(test)]
mod locks;
#[cfg(test)]
mod shelves;
