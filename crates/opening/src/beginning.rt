//! A life that begins.
ghost use Rattle.std.specs.Prelude.{◌≡◌, ◌<◌, ◌≤◌, ℕ, List, [], None, length, map, IfOk, IfSome};
ghost use Rattle.journal.specs.State.{calls_of};
ghost use Rattle.life_history.specs.Kept.{AreKept, Begins, IsSmall};
ghost use Rattle.log_blocks.specs.LogState.{durable_lsn};
ghost use Rattle.losers.specs.Losers.{untouched};
ghost use Rattle.opening_rights.specs.Opened.{AreAtHome, places_of};
ghost use Rattle.page_index.specs.Index.{home_of, limit_of};
ghost use Rattle.page_ops.specs.Claims.{IsInRange};
ghost use Rattle.wal_record.specs.OpenWrites as writes;
ghost use Rattle.wal_record.specs.declared.record.Record.{Record};
ghost use Rattle.opening.specs.Begins.{MayBegin, all_parts};

use books::MaintRight;
use front::Pass;
use journal::{Journal, losers_of};
use life_history::{Counts, History};
use listed_log::ListedLog;
use losers::Losers;
use media::Disk;
use own_journal::OwnJournal;
use page_index::PageIndex;
use page_ops::{DataFaults, Ground, Life, NewLedger, Tokens, VaultFaults};
use std::alloc::Global;
use std::sync::ledger::Book;
use store_model::{Memory, PageNo, TxId};
use wal_record::Entry;

/// What stands ready for a life: what it is made of, the rights that nobody holds yet, the numbers that come next, and the
/// losers of its log.
#[derive(Drop)]
pub struct Prepared<N: Life> {
    pub tokens: Tokens<N>,
    pub index: PageIndex<N>,
    pub maint: MaintRight<N>,
    pub next_page: PageNo,
    pub next_tx: TxId,
    pub losers: Losers,
}

/// The journal of a life that has just begun, its first pass, and the ledgers of devices that others will own.
#[derive(Drop)]
pub struct Begun<'a, L: Disk, N: Life> {
    pub journal: OwnJournal<'a, L, N>,
    pub pass: Pass<Entry, N>,
    pub vault_faults: Book<VaultFaults<N>>,
    pub data_faults: NewLedger<DataFaults<N>>,
}

/// Makes ready what a life on this log begins with, all that may want memory.
pub fn prepare<L: Disk, N: Life>(
    alloc: Global,
    ground: &Ground<N>,
    tokens: Tokens<N>,
    log: &ListedLog<L>,
) -> Result<Prepared<N>, Memory>
    requires opens { (opening : List Record) → N.opens opening → MayBegin L.tells L.told L.may_leave log.now.log log.now.listing opening }
    requires books { (tokens.books.pages ≡ []) × (tokens.books.sessions ≡ []) × (tokens.books.maint ≡ []) }
    ensures history { IfOk result (λ p. (p.tokens.front ≡ tokens.front) × (p.tokens.mark ≡ tokens.mark) × (p.tokens.pass ≡ tokens.pass)) }
    // The books have exactly the rights that are handed out.
    ensures books { IfOk result (λ p. AreKept N.opens [] (record { pages = p.tokens.books.pages; sessions = p.tokens.books.sessions; maint = p.tokens.books.maint })) }
    ensures sessions { IfOk result (λ p. p.tokens.books.sessions ≡ []) }
    ensures small { IfOk result (λ p. IsSmall p.next_page (record { pages = p.tokens.books.pages; sessions = p.tokens.books.sessions; maint = p.tokens.books.maint })) }
    // Each page's right is at home, at the page's head.
    ensures limit { IfOk result (λ p. (opening : List Record) → N.opens opening → limit_of p.index ≡ places_of opening) }
    ensures homes { IfOk result (λ p. (opening : List Record) → N.opens opening → AreAtHome opening p.index) }
    ensures range { IfOk result (λ p. (page : ℕ) → IfSome (home_of p.index page) IsInRange) }
    ensures maint { IfOk result (λ p. p.maint ≡ record { number = 0; lsn = 0 }) }
    ensures number { IfOk result (λ p. 1 ≤ p.next_tx) }
    ensures next { IfOk result (λ p. (opening : List Record) → N.opens opening → Begins opening p.next_tx) }
    ensures losers { IfOk result (λ p. (opening : List Record) → N.opens opening → p.losers ≡ map untouched (writes.losers opening)) }
{
    let mut tokens = tokens;
    let rights = opening_rights::begin(alloc, &ground.tables, &mut tokens.books, log.listing())?;
    let losers = losers_of(alloc, log.listing())?;
    Ok(Prepared {
        tokens,
        index: rights.index,
        maint: rights.maint,
        next_page: rights.next_page,
        next_tx: rights.next_tx,
        losers,
    })
}

/// A life on this log, with what was prepared for it. It takes no memory.
pub fn start<'a, L: Disk, N: Life>(
    alloc: Global,
    ground: &'a Ground<N>,
    tokens: Tokens<N>,
    log: ListedLog<L>,
    next_page: PageNo,
    next_tx: TxId,
    losers: Losers,
) -> Begun<'a, L, N>
    requires opens { (opening : List Record) → N.opens opening → MayBegin L.tells L.told L.may_leave log.log log.listing opening }
    requires goes { log.log.log.ended ≡ None }
    requires parts { (0 < N.entries.parts) × (0 < N.session_entries.parts) × (0 < N.log_faults.parts) × (0 < N.made.parts) }
    requires history { (tokens.front ≡ []) × (tokens.mark ≤ durable_lsn log.log.log.places) }
    requires books { AreKept N.opens [] (record { pages = tokens.books.pages; sessions = tokens.books.sessions; maint = tokens.books.maint }) }
    requires sessions { tokens.books.sessions ≡ [] }
    requires small { IsSmall next_page (record { pages = tokens.books.pages; sessions = tokens.books.sessions; maint = tokens.books.maint }) }
    requires number { 1 ≤ next_tx }
    requires next { (opening : List Record) → N.opens opening → Begins opening next_tx }
    requires losers { (opening : List Record) → N.opens opening → losers ≡ map untouched (writes.losers opening) }
    ensures begins { (result.journal.journal.history ≡ []) × (result.journal.journal.ended ≡ None) }
    ensures calls { result.journal.journal.calls ≡ calls_of L.passes L.refused L.own log.log.log.device }
    // The journal has all parts of its ledgers, and in none was anything counted.
    ensures counts { result.journal.counts ≡ all_parts N.entries N.session_entries N.log_faults N.vault_faults N.made }
    ensures vault { result.vault_faults.total ≡ 0 }
    // The pass that goes on knows that the opening log is durable.
    ensures pass { (result.pass.log ≡ tokens.pass.log) × (tokens.pass.durable ≤ result.pass.durable) }
    ensures durable { (opening : List Record) → N.opens opening → length opening ≤ result.pass.durable }
{
    let Tokens {
        front,
        mark,
        pass,
        books,
        entries,
        session_entries,
        log_faults,
        vault_faults,
        data_faults,
        made,
    } = tokens;
    let (entries_book, entries) = entries.open();
    let (session_book, session_entries) = session_entries.open();
    let (faults, log_faults) = log_faults.open();
    let (vault_book, vault_faults) = vault_faults.open();
    let (made_book, made) = made.open();
    let counts = Counts {
        entries,
        session_entries,
        log_faults,
        vault_faults,
        made,
        ended: None,
        faults: 0,
    };
    let history = History::new(
        ground,
        front,
        books,
        entries_book,
        session_book,
        made_book,
        next_tx,
        next_page,
    );
    let mut pass = pass;
    let journal = Journal::start(alloc, log, history, mark, faults, losers, &mut pass);
    Begun {
        journal: OwnJournal { journal, counts },
        pass,
        vault_faults: vault_book,
        data_faults,
    }
}
