//! A store is opened.
ghost use Rattle.std.specs.Prelude.{◌≡◌, ◌<◌, ◌≤◌, ℕ, List, [], None, false, length, map, IfErr, IfOk};
ghost use Rattle.buffer_pool.specs.Tables.{frame_of};
ghost use Rattle.buffer_pool.specs.declared.frame.Frame.TheVariants.{Empty};
ghost use Rattle.journal.specs.State.{calls_of};
ghost use Rattle.log_index.specs.Listing.{IsListingOf};
ghost use Rattle.opening.specs.Begins.{MayBegin, all_parts};
ghost use Rattle.opening_rights.specs.Opened.{AreAtHome};
ghost use Rattle.restart.specs.Plans.{is_behind};
ghost use Rattle.wal_record.specs.Checkpoints.{page_heads};
ghost use Rattle.wal_record.specs.declared.record.Record.{Record};
ghost use Rattle.plain_store.specs.Opens.{AreEarlier};

use crate::store::PlainStore;
use buffer_pool::{PlainPool, PoolRefused};
use listed_log::ListedLog;
use log_index::Listing;
use media::{Disk, PageDevice};
use opening::{Begun, Prepared, prepare, start};
use page_ops::{Ground, Life, Tokens};
use page_repair::OwnImages;
use restart::RestartPlan;
use std::alloc::Global;
use store_model::Memory;

/// There was no memory for a store. Here are its devices.
#[derive(Drop)]
pub struct StoreRefused<L, P, S> {
    pub log: L,
    pub device: P,
    pub supply: S,
}

/// A store on this log, with a data device that has images of it, or none, and a supply of pages.
pub fn open_store<'a, L: Disk, P: PageDevice, S, N: Life>(
    alloc: Global,
    ground: &'a Ground<N>,
    tokens: Tokens<N>,
    log: ListedLog<L>,
    device: P,
    supply: S,
) -> Result<PlainStore<'a, L, P, S, N>, StoreRefused<L, P, S>>
    requires opens { (opening : List Record) → N.opens opening → MayBegin L.tells L.told L.may_leave log.log log.listing opening }
    requires goes { log.log.log.ended ≡ None }
    // A log with which the life may have begun is known only where the data device tells what was written.
    requires told { (opening : List Record) → N.opens opening → P.tells }
    // Images that an earlier life wrote are taken over.
    requires images { P.tells → AreEarlier N.opens P.told device }
    requires parts { (0 < N.entries.parts) × (0 < N.session_entries.parts) × (0 < N.log_faults.parts) × (0 < N.made.parts) }
    requires history { (tokens.front ≡ []) × (tokens.mark ≡ 0) × (tokens.pass.log ≡ []) }
    requires books { (tokens.books.pages ≡ []) × (tokens.books.sessions ≡ []) × (tokens.books.maint ≡ []) }
    // No page is in a frame or in a hand: each right is at home, at the page's head.
    ensures empty { IfOk result (λ s. (page : ℕ) → frame_of s.pages.frames page ≡ Empty) }
    ensures none { IfOk result (λ s. (s.pages.out ≡ 0) × (s.pages.reserves ≡ false)) }
    ensures homes { IfOk result (λ s. (opening : List Record) → N.opens opening → AreAtHome opening s.pages.frames.index) }
    // Each page with a record behind its written image in the opening log awaits redo, and no other one.
    ensures redo { IfOk result (λ s. (opening : List Record) → N.opens opening → s.pages.plan ≡ map is_behind (page_heads opening)) }
    // The life has just begun, and of the log disk's calls is known what was known before.
    ensures begins { IfOk result (λ s. (s.journal.journal.history ≡ []) × (s.journal.journal.ended ≡ None)) }
    ensures calls { IfOk result (λ s. s.journal.journal.calls ≡ calls_of L.passes L.refused L.own log.log.log.device) }
    // It has all parts of the ledgers, and in none was anything counted.
    ensures account { IfOk result (λ s. s.journal.counts ≡ all_parts N.entries N.session_entries N.log_faults N.vault_faults N.made) }
    ensures vault { IfOk result (λ s. s.vault_faults.total ≡ 0) }
    // The pass that goes on knows that the opening log is durable.
    ensures pass { IfOk result (λ s. s.pass.log ≡ []) }
    ensures durable { IfOk result (λ s. (opening : List Record) → N.opens opening → length opening ≤ s.pass.durable) }
    ensures maint { IfOk result (λ s. s.maint ≡ record { number = 0; lsn = 0 }) }
    ensures devices { IfOk result (λ s. (s.pages.images ≡ device) × (s.pages.supply ≡ supply)) }
    ensures refused { IfErr result (λ r. r ≡ record { log = log.log.log.device; device = device; supply = supply }) }
{
    let prepared = match prepare(alloc, ground, tokens, &log) {
        Ok(prepared) => prepared,
        Err(Memory) => return Err(refused(log, device, supply)),
    };
    let Prepared {
        mut tokens,
        index,
        maint,
        next_page,
        next_tx,
        losers,
    } = prepared;
    let plan = match redo_plan(alloc, log.listing()) {
        Ok(plan) => plan,
        Err(Memory) => return Err(refused(log, device, supply)),
    };
    // The images of earlier lives are of the opening log, which is durable.
    tokens
        .mark
        .store(&ground.board, log.durable(), &mut tokens.pass);
    let images = OwnImages::new(ground, device, tokens.pass.copy(&ground.board));
    let pages = match PlainPool::new(alloc, images, supply, index, plan) {
        Ok(pages) => pages,
        Err(parts) => {
            let PoolRefused { images, supply } = parts;
            let device = images.into_device(&mut tokens.pass);
            return Err(refused(log, device, supply));
        }
    };
    let Begun {
        journal,
        pass,
        vault_faults,
        data_faults,
    } = start(alloc, ground, tokens, log, next_page, next_tx, losers);
    Ok(PlainStore {
        journal,
        pages,
        pass,
        maint,
        vault_faults,
        data_faults,
    })
}

/// Which pages of the log with this listing await redo.
fn redo_plan(alloc: Global, listing: &Listing) -> Result<RestartPlan, Memory>
    ensures { (log : List Record) → IsListingOf log listing.now → IfOk result (λ plan. plan ≡ map is_behind (page_heads log)) }
{
    RestartPlan::new(alloc, &listing.analysis(alloc)?)
}

/// The devices are handed back.
fn refused<L: Disk, P, S>(log: ListedLog<L>, device: P, supply: S) -> StoreRefused<L, P, S>
    ensures { result ≡ record { log = log.log.log.device; device = device; supply = supply } }
{
    let ListedLog { log, listing: _ } = log;
    StoreRefused {
        log: log.into_device(),
        device,
        supply,
    }
}
