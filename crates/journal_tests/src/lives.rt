//! Lives on a log disk, each of which goes on from what the one before left.
ghost use Rattle.std.specs.Prelude.{◌≡◌, List, None, IsTrue};
ghost use Rattle.page_ops.specs.Names.{life_names};
ghost use Rattle.wal_record.specs.Rules.{is_limit};
ghost use Rattle.wal_record.specs.declared.record.Record.{Record};

use journal_steps::{Line, Made, play, put_and_commit};
use listed_log::ListedLog;
use log_blocks::open_log;
use log_index::Listing;
use log_manager::LogManager;
use media::{Disk, Fuse};
use media_mem::MemDisk;
use opening::{Begun, Prepared, prepare, read_log, start};
use page_ops::{Life, Unnamed};
use std::alloc::Global;
use std::marker::Brand;
use std::sync::Wait;
use store_model::{Fault, LEAST_LIMIT, MOST_PAGES};
use wal_record::{Format, Record};

/// A log disk in memory.
pub(crate) type LogDisk = Fuse<MemDisk>;

/// Adds a Format with this limit and makes it durable. Whether it did.
fn add_format<L: Disk>(alloc: Global, log: &mut ListedLog<L>, limit: u32) -> bool
    requires limit { IsTrue (is_limit limit) }
{
    let format = [Record::Format(Format { limit })];
    log.append_group(alloc, &format).is_ok() && log.last() == 1 && log.flush_to(1).is_ok()
}

/// This disk, which is empty, with a log of one record, a Format with this limit.
fn with_format<L: Disk + Drop>(alloc: Global, disk: L, limit: u32) -> Option<L>
    requires limit { IsTrue (is_limit limit) }
{
    let Ok(blocks) = open_log(alloc, disk) else {
        return None;
    };
    let mut log = ListedLog::new(LogManager::start(alloc, blocks), Listing::new(alloc));
    if add_format(alloc, &mut log, limit) {
        Some(log.into_device())
    } else {
        None
    }
}

/// What is asked of a life, and how many calls its log disk then lets pass, where not all.
#[derive(Clone, Copy)]
pub(crate) struct Asked<'a> {
    pub(crate) lines: &'a [Line<'a>],
    pub(crate) calls: Option<u64>,
    /// Whether a put and its commit are asked in place of the lines.
    pub(crate) put: bool,
}

/// The first line that told otherwise, what became of a put and its commit, and the log disk.
#[derive(Drop)]
pub(crate) struct Lived<L> {
    pub(crate) other: Result<String, Fault>,
    pub(crate) put: Option<Made>,
    pub(crate) disk: L,
}

/// A life on this log.
fn one_life<L: Disk + Drop, N: Life, R: Wait>(
    rt: &R,
    alloc: Global,
    unnamed: Unnamed,
    log: ListedLog<L>,
    asked: Asked<'_>,
) -> Result<Lived<L>, Fault>
    requires untold { (opening : List Record) → N.opens opening → ⊥ }
    requires named { unnamed ≡ life_names N.count N.pages N.sessions N.maint N.entries N.session_entries N.log_faults N.vault_faults N.data_faults N.made }
    requires parts { (N.entries.parts ≡ 1) × (N.session_entries.parts ≡ 1) × (N.log_faults.parts ≡ 1) × (N.vault_faults.parts ≡ 1) × (N.made.parts ≡ 1) }
    requires goes { log.log.log.ended ≡ None }
{
    let (ground, tokens) = unnamed.split::<N>();
    let Prepared {
        tokens,
        mut index,
        maint: _,
        next_page,
        next_tx,
        losers,
    } = prepare(alloc, &ground, tokens, &log)?;
    let page = index.take_right(1);
    drop(index);
    let Begun {
        mut journal,
        mut pass,
        ..
    } = start(alloc, &ground, tokens, log, next_page, next_tx, losers);
    journal.fuse(asked.calls);
    let (other, put) = if asked.put {
        let made = put_and_commit(rt, alloc, &mut journal, page, &mut pass);
        (Ok(String::new(alloc)), Some(made))
    } else {
        let other = play(rt, alloc, &mut journal, page, asked.lines, &mut pass);
        (other, None)
    };
    let disk = journal.into_device(&mut pass);
    Ok(Lived { other, put, disk })
}

/// A disk in memory with a log of one record, a Format with this limit.
pub(crate) fn formatted(alloc: Global, limit: u32) -> Option<LogDisk> {
    if limit < LEAST_LIMIT || MOST_PAGES < limit {
        return None;
    }
    with_format(alloc, Fuse::new(MemDisk::new(alloc)), limit)
}

/// A life on this disk.
pub(crate) fn live<R: Wait>(
    rt: &R,
    alloc: Global,
    disk: LogDisk,
    asked: Asked<'_>,
) -> Result<Lived<LogDisk>, Fault> {
    let Ok(log) = read_log(alloc, disk) else {
        return Err(Fault::NotFormatted);
    };
    let unnamed = Unnamed::new(alloc, 1)?;
    one_life::<LogDisk, Brand, R>(rt, alloc, unnamed, log, asked)
}
