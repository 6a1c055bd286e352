//! Backups of all pages, segment by segment.
//!
//! A backup has an image of each page, so that a repair or a restore begins there and not at the page's first record (Graefe and
//! Kuno 2012). [`backup`] goes over the segments one after the other. It takes each page of a segment in turn, brought into a
//! frame where it isn't in one, and copies it at its head; so others may go on meanwhile, and a segment has its pages as of
//! different moments, each with its own LSN. Then it puts the copies as one object, syncs it, has a record entered that names
//! it, and makes the log durable up to that: one put, one sync and one record for each segment.
//!
//! What is promised: where it is done, each page that had an image as the call began is told by one of these records, at an LSN
//! not below its head then, under a number that no backup had before; and the log is durable up to each of them (`entered`).
//! The call enters nothing else but what the upkeep of pages enters. What stands in the objects is the objects' own promise
//! (`named_objects`). After a refusal the segments that are done stay named, under a number that no backup had before, too; no
//! page is in hand and no frame more is reserved. Each refusal has its cause (`refused`, `open`).
//!
//! The pages and the vault come as one object ([`BackedPages`]), since a pool's supply owns the vault that its repairs and
//! restores read ([`VaultSupply`]): so it is with the pool of one thread over a log's supply (`buffer_pool`, `segment_restore`,
//! `vault_bases`).
#![tactic(auto)]

mod backed_pages;
mod backed_pool;
mod backing_up;
mod copies;
mod copying;
mod vault_supply;

pub use backed_pages::BackedPages;
pub use backing_up::backup;
pub use vault_supply::VaultSupply;
