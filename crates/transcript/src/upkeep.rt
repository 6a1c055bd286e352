//! The lines of words without a transaction, by which a store is kept up and looked at.
ghost use Rattle.std.specs.Prelude.{◌≡◌, ◌++◌, IfOk, OnOk, codes};
ghost use Rattle.std.specs.Fmt.{decimal};
ghost use Rattle.transcript.specs.Lines.{archive_line, failed_line, ended_line, upkeep_head, upkeep_line, stat_line};

use crate::endings::{ended_line, failed_line};
use crate::pieces::{add, add_number, begun};
use script::Device;
use std::alloc::{AllocError, Global};
use store_model::Lsn;

/// A word that is answered by `ok`.
#[derive(Clone, Copy)]
pub enum Upkeep {
    Checkpoint,
    Backup,
    Lose,
    /// `help N`, whatever the number.
    Help,
    Close,
}

/// What `stat` counts.
#[derive(Clone, Copy)]
pub struct Stat {
    /// The Commits in the log.
    pub commits: u64,
    /// The losers that have no End yet.
    pub losers: u64,
    /// The Undos of this life.
    pub undone: u64,
    /// The pages that this life repaired, counting each time.
    pub repaired: u64,
    /// The pages with an image.
    pub pages: u64,
    /// The segments that had a page when the data device was lost last; 0 where it never was.
    pub lost: u64,
    /// Those of them that were restored since then.
    pub restored: u64,
}

fn upkeep_head(alloc: Global, word: Upkeep) -> Result<Vec<u8>, AllocError>
    ensures { IfOk result (λ out. out.items ≡ upkeep_head word) }
{
    match word {
        Upkeep::Checkpoint => begun(alloc, b"checkpoint".as_slice()),
        Upkeep::Backup => begun(alloc, b"backup".as_slice()),
        Upkeep::Lose => begun(alloc, b"lose".as_slice()),
        Upkeep::Help => begun(alloc, b"help".as_slice()),
        Upkeep::Close => begun(alloc, b"close".as_slice()),
    }
}

/// `checkpoint ok`, and so of each other word.
pub fn upkeep_line(alloc: Global, word: Upkeep) -> Result<Vec<u8>, AllocError>
    ensures { IfOk result (λ out. out.items ≡ upkeep_line word) }
{
    let mut out = upkeep_head(alloc, word)?;
    add(&mut out, b" ok\n".as_slice())?;
    Ok(out)
}

/// The word and ` log failed`, and so of each device.
pub fn upkeep_failed(alloc: Global, word: Upkeep, device: Device) -> Result<Vec<u8>, AllocError>
    ensures { IfOk result (λ out. out.items ≡ failed_line (upkeep_head word) device) }
{
    failed_line(upkeep_head(alloc, word)?, device)
}

/// The word and ` ended N`.
pub fn upkeep_ended(alloc: Global, word: Upkeep, at: Lsn) -> Result<Vec<u8>, AllocError>
    ensures { IfOk result (λ out. out.items ≡ ended_line (upkeep_head word) at) }
{
    ended_line(upkeep_head(alloc, word)?, at)
}

/// `archive runs=N`, the runs that were made.
pub fn archive_line(alloc: Global, runs: u64) -> Result<Vec<u8>, AllocError>
    ensures { IfOk result (λ out. out.items ≡ archive_line runs) }
{
    let mut out = begun(alloc, b"archive".as_slice())?;
    add_count(&mut out, b" runs=".as_slice(), runs)?;
    add(&mut out, b"\n".as_slice())?;
    Ok(out)
}

/// `archive log failed`, and so of each device.
pub fn archive_failed(alloc: Global, device: Device) -> Result<Vec<u8>, AllocError>
    ensures { IfOk result (λ out. out.items ≡ failed_line (codes "archive") device) }
{
    failed_line(begun(alloc, b"archive".as_slice())?, device)
}

/// `archive ended N`.
pub fn archive_ended(alloc: Global, at: Lsn) -> Result<Vec<u8>, AllocError>
    ensures { IfOk result (λ out. out.items ≡ ended_line (codes "archive") at) }
{
    ended_line(begun(alloc, b"archive".as_slice())?, at)
}

fn add_count(out: &mut Vec<u8>, field: &[u8], count: u64) -> Result<(), AllocError>
    ensures { OnOk result (out.new.items ≡ out.old.items ++ field.now ++ decimal count) }
{
    add(out, field)?;
    add_number(out, count)
}

/// `stat commits=C losers=M undone=U repaired=R pages=P lost=A restored=B`.
pub fn stat_line(alloc: Global, stat: &Stat) -> Result<Vec<u8>, AllocError>
    ensures { IfOk result (λ out. out.items ≡ stat_line stat.now) }
{
    let mut out = begun(alloc, b"stat".as_slice())?;
    add_count(&mut out, b" commits=".as_slice(), stat.commits)?;
    add_count(&mut out, b" losers=".as_slice(), stat.losers)?;
    add_count(&mut out, b" undone=".as_slice(), stat.undone)?;
    add_count(&mut out, b" repaired=".as_slice(), stat.repaired)?;
    add_count(&mut out, b" pages=".as_slice(), stat.pages)?;
    add_count(&mut out, b" lost=".as_slice(), stat.lost)?;
    add_count(&mut out, b" restored=".as_slice(), stat.restored)?;
    add(&mut out, b"\n".as_slice())?;
    Ok(out)
}

/// `stat log failed`, and so of each device.
pub fn stat_failed(alloc: Global, device: Device) -> Result<Vec<u8>, AllocError>
    ensures { IfOk result (λ out. out.items ≡ failed_line (codes "stat") device) }
{
    failed_line(begun(alloc, b"stat".as_slice())?, device)
}

/// `stat ended N`.
pub fn stat_ended(alloc: Global, at: Lsn) -> Result<Vec<u8>, AllocError>
    ensures { IfOk result (λ out. out.items ≡ ended_line (codes "stat") at) }
{
    ended_line(begun(alloc, b"stat".as_slice())?, at)
}
