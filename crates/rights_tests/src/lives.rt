//! A life is split and its tokens are used.
ghost use Rattle.std.specs.Prelude.{◌≡◌, ◌+◌, ◌<◌, ◌^◌, [], ◌∷◌, length};
ghost use Rattle.page_ops.specs.Names.{life_names};

use books::{Book, Books, SessionBook, SessionRight};
use front::{Added, Board, Front, Pass};
use page_ops::{Entries, Ground, Life, Tokens, Unnamed};
use std::alloc::Global;
use std::marker::{Brand, Model};
use std::sync::ledger::{Book as LedgerBook, Share};
use std::sync::{Mutex, Wait};
use std::test::*;
use std::thread;
use std::thread::Threads;
use store_model::Memory;
use wal_record::Entry;

const ROUNDS: u64 = 200;

/// The history of a stub life, which lies behind one lock.
#[derive(Drop)]
struct Journal<'a, N: Life> {
    ground: &'a Ground<N>,
    count: u64,
    front: Front<Entry, N>,
    sessions: Book<SessionBook<N>>,
    entries: LedgerBook<Entries<N>>,
}

impl<'a, N: Life> Model for Journal<'a, N> {
    ghost use Rattle.std.specs.Prelude.{◌≡◌, List, length};
    ghost use Rattle.wal_record.specs.declared.entry.Entry.{Entry};

    ghost Value = { List Entry };

    ghost view = { λ j. j.front };

    ghost invariant = { λ j. (length j.front ≡ j.count) × (j.entries.total ≡ j.count) };
}

/// A thread of the stub life: its session's right, what it has seen, and how many entries it entered.
#[derive(Drop)]
struct Worker<N: Life> {
    right: Option<SessionRight<N>>,
    pass: Pass<Entry, N>,
    share: Share<Entries<N>>,
    ghost counts: { 0 < share.parts },
}

fn add<N: Life, A: Added<Entry>>(
    board: &Board<Entry, N>,
    front: &mut Front<Entry, N>,
    entry: &Entry,
)
    requires entry { A.entries ≡ entry.now ∷ [] }
    requires fits { length front.old + 1 < 2 ^ 64 }
    ensures { length front.new ≡ length front.old + 1 }
{
    front.advance::<A>(board, 1);
}

impl<'a, N: Life> Journal<'a, N> {
    /// Enters an entry of the worker's session, and raises its right.
    fn enter(&mut self, worker: &mut Worker<N>) {
        let Some(right) = worker.right.take() else {
            return;
        };
        let session = right.session();
        let entries = right.entries().saturating_add(1);
        let right = self.sessions.set(&self.ground.tables.sessions, right.into_right(), entries, 0);
        worker.right = Some(SessionRight::of(right));
        if self.count == u64::MAX {
            return;
        }
        let entry = Entry::Acked { session, tx: 1 };
        add::<N, Brand>(&self.ground.board, &mut self.front, &entry);
        self.count += 1;
        self.entries.add(&mut worker.share, 1);
        self.front.meet(&self.ground.board, &mut worker.pass);
    }
}

fn work<'a, N: Life>(rt: &impl Wait, journal: &Mutex<Journal<'a, N>>, worker: &mut Worker<N>) {
    for _ in 0..ROUNDS {
        journal.lock(rt).enter(worker);
    }
}

/// What the history's length, the whole share and a last pass say, and each worker's right.
fn on_ground<'a, N: Life + Send + Sync, R: Threads + Wait + Sync>(
    rt: &R,
    alloc: Global,
    ground: &'a Ground<N>,
    tokens: Tokens<N>,
) -> Result<([u64; 2], Vec<u64>), Memory>
    requires sessions { tokens.books.sessions ≡ [] }
    requires front { tokens.front ≡ [] }
    requires parts { N.entries.parts ≡ 3 }
{
    let Tokens {
        front,
        mark: _,
        mut pass,
        books,
        entries,
        session_entries: _,
        log_faults: _,
        vault_faults: _,
        data_faults: _,
        made: _,
    } = tokens;
    let Books {
        pages: _,
        mut sessions,
        maint: _,
    } = books;
    let (entries, mut share) = entries.open();
    let table = &ground.tables.sessions;
    let first = Worker {
        right: Some(SessionRight::of(sessions.open(table, 1))),
        pass: pass.copy(&ground.board),
        share: share.split_off(1, 0),
    };
    let second = Worker {
        right: Some(SessionRight::of(sessions.open(table, 2))),
        pass: pass.copy(&ground.board),
        share: share.split_off(1, 0),
    };
    let mut workers = Vec::with_capacity(alloc, 2)?;
    workers.push(first)?;
    workers.push(second)?;
    let journal: Mutex<Journal<'a, N>> = Mutex::new(Journal {
        ground,
        count: 0,
        front,
        sessions,
        entries,
    });
    thread::for_each_mut(
        rt,
        workers.as_mut_slice(),
        2,
        &|_, worker| work(rt, &journal, worker),
    );
    let mut entered = Vec::with_capacity(alloc, 2)?;
    for worker in workers {
        let Worker {
            right,
            pass: other,
            share: _,
        } = worker;
        pass.meet(&ground.board, other);
        entered.push(right.map_or(0, |right| right.entries()))?;
    }
    Ok((
        [journal.into_inner().count, pass.look(&ground.board)],
        entered,
    ))
}

fn stub_life<N: Life + Send + Sync, R: Threads + Wait + Sync>(
    rt: &R,
    alloc: Global,
    unnamed: Unnamed,
) -> Result<([u64; 2], Vec<u64>), Memory>
    requires named { unnamed ≡ life_names N.count N.pages N.sessions N.maint N.entries N.session_entries N.log_faults N.vault_faults N.data_faults N.made }
    requires parts { N.entries.parts ≡ 3 }
{
    let (ground, tokens) = unnamed.split::<N>();
    on_ground(rt, alloc, &ground, tokens)
}

#[test]
fn two_threads_of_one_life(rt: HostRuntime) -> Result<(), Fail> {
    let unnamed = Unnamed::new(rt.alloc(), 3)?;
    let (lengths, entered) = stub_life::<Brand, HostRuntime>(&rt, rt.alloc(), unnamed)?;
    assert_eq!(rt; lengths, [2 * ROUNDS, 2 * ROUNDS]);
    assert_eq!(rt; entered.as_slice(), [ROUNDS, ROUNDS].as_slice());
    Ok(())
}
