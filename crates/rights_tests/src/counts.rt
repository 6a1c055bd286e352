//! A list that grows beside a thread that looks at it.
ghost use Rattle.std.specs.Prelude.{◌≡◌, ◌+◌, ◌^◌, ◌<◌, ◌≤◌, [], ◌∷◌, length, vec_len};

use front::{Added, Board, Count, CountName, Front, Mark, Pass};
use std::alloc::{AllocError, Global};
use std::marker::Brand;
use std::mem::size_of;
use std::sync::{Mutex, Wait};
use std::test::*;
use std::thread;
use std::thread::Threads;

const ROUNDS: u64 = 500;

#[test]
fn a_new_count(rt: HostRuntime) -> Result<(), Fail> {
    assert!(rt; Count::<u8>::new(rt.alloc()).is_ok());
    Ok(())
}

#[test]
fn tokens_take_no_bytes(rt: HostRuntime) {
    assert_eq!(rt; size_of::<Front<u8, Brand>>(), 0);
    assert_eq!(rt; size_of::<Mark<u8, Brand>>(), 0);
    assert_eq!(rt; size_of::<Pass<u8, Brand>>(), 0);
}

fn add<N: CountName, A: Added<u8>>(board: &Board<u8, N>, front: &mut Front<u8, N>, entry: u8)
    requires entry { A.entries ≡ entry ∷ [] }
    requires fits { length front.old + 1 < 2 ^ 64 }
{
    front.advance::<A>(board, 1);
}

/// Adds an entry in each round, and looks.
fn work<N: CountName>(
    rt: &impl Wait,
    board: &Board<u8, N>,
    shared: &Mutex<Front<u8, N>>,
    pass: &mut Pass<u8, N>,
) {
    for _ in 0..ROUNDS {
        let mut front = shared.lock(rt);
        front.meet(board, pass);
        if pass.look(board) < u64::MAX {
            add::<N, Brand>(board, &mut front, 7);
        }
    }
}

/// Two threads add to one list. What each of their passes sees once they met, and once it met the front.
fn on_board<'a, N: CountName + Send + Sync, R: Threads + Wait + Sync>(
    rt: &R,
    alloc: Global,
    board: &'a Board<u8, N>,
    front: Front<u8, N>,
    mut pass: Pass<u8, N>,
) -> Result<[u64; 2], AllocError> {
    let mut passes = Vec::new(alloc);
    passes.push(pass.copy(board))?;
    passes.push(pass.copy(board))?;
    let shared = Mutex::new(front);
    thread::for_each_mut(
        rt,
        passes.as_mut_slice(),
        2,
        &|_, pass| work(rt, board, &shared, pass),
    );
    let mut front = shared.into_inner();
    for other in passes {
        pass.meet(board, other);
    }
    let met = pass.look(board);
    let mut late = pass.copy(board);
    front.meet(board, &mut late);
    Ok([met, late.look(board)])
}

fn two_threads<N: CountName + Send + Sync, R: Threads + Wait + Sync>(
    rt: &R,
    alloc: Global,
    count: Count<u8>,
) -> Result<[u64; 2], AllocError>
    requires named { count ≡ N.count }
{
    let (board, front, _, pass) = count.split::<N>();
    on_board(rt, alloc, &board, front, pass)
}

#[test]
fn two_threads_end_with_the_whole_list(rt: HostRuntime) -> Result<(), Fail> {
    let count = Count::new(rt.alloc())?;
    let seen = two_threads::<Brand, HostRuntime>(&rt, rt.alloc(), count)?;
    assert_eq!(rt; seen, [2 * ROUNDS, 2 * ROUNDS]);
    Ok(())
}

/// The number that a pass has seen once 7 is stored, and the one that a second pass has seen once it met the mark.
fn on_mark<'a, N: CountName>(
    board: &'a Board<u8, N>,
    mut mark: Mark<u8, N>,
    mut pass: Pass<u8, N>,
) -> [u64; 2]
    requires low { mark ≤ 7 }
{
    let mut late = pass.copy(board);
    mark.store(board, 7, &mut pass);
    mark.meet(board, &mut late);
    [pass.durable(board), late.durable(board)]
}

fn one_mark<N: CountName>(count: Count<u8>) -> [u64; 2]
    requires named { count ≡ N.count }
{
    let (board, _, mark, pass) = count.split::<N>();
    on_mark(&board, mark, pass)
}

#[test]
fn a_stored_number_is_seen(rt: HostRuntime) -> Result<(), Fail> {
    let count = Count::new(rt.alloc())?;
    assert_eq!(rt; one_mark::<Brand>(count), [7, 7]);
    Ok(())
}
