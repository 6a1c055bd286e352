//! Tables of requests. What they answer was worked out by hand: a Began, a Lock, each record and each answer is an entry.
ghost use Rattle.std.specs.Prelude.{◌≡◌, List, [], IfOk};
ghost use Rattle.page_ops.specs.Names.{life_names};
ghost use Rattle.wal_record.specs.State.{KeepsState};
ghost use Rattle.wal_record.specs.declared.record.Record.{Record};

use crate::lines::{Line, play};
use listed_log::ListedLog;
use media::Disk;
use media_mem::MemDisk;
use operators::{Operators, boxed_operators};
use page_ops::{Ground, Life, Tokens, Unnamed};
use planted_store::{Planted, empty_leaf, new_log, no_pages, plant};
use small_stores::Frames;
use std::alloc::Global;
use std::marker::Brand;
use std::sync::Wait;
use std::test::*;
use store_model::Fault;
use wal_record::PageState;

/// Lines that are played in a store of up to so many pages and open writes, and the keys to which A then puts.
#[derive(Clone, Copy)]
struct Table<'a> {
    limit: u32,
    /// Which of the frames that are asked for is refused, counted from 1; 0 for none.
    refused: u32,
    lines: &'a [Line<'a>],
    letters: &'a [u8],
}

/// What a store is made of that wants memory.
#[derive(Drop)]
struct Seeds<L: Disk, N: Life> {
    log: ListedLog<L>,
    frames: Frames<N>,
    leaf: PageState,
}

fn gather<L: Disk + Drop, N: Life>(alloc: Global, disk: L, limit: u32) -> Result<Seeds<L, N>, Fault>
    ensures open { IfOk result (λ seeds. seeds.log.log.log.ended ≡ None) }
    ensures keeps { IfOk result (λ seeds. KeepsState seeds.leaf) }
{
    let log = new_log(alloc, disk, limit)?;
    let frames = no_pages(alloc, 9)?;
    match empty_leaf(alloc) {
        Some(leaf) => Ok(Seeds { log, frames, leaf }),
        None => Err(Fault::Memory),
    }
}

fn play_on<L: Disk + Drop, N: Life, R: Wait>(
    rt: &R,
    alloc: Global,
    ground: &Ground<N>,
    tokens: Tokens<N>,
    seeds: Seeds<L, N>,
    operators: &Operators,
    table: Table<'_>,
) -> Result<String, Fault>
    requires untold { (opening : List Record) → N.opens opening → ⊥ }
    requires parts { (N.entries.parts ≡ 1) × (N.session_entries.parts ≡ 1) × (N.log_faults.parts ≡ 1) × (N.vault_faults.parts ≡ 1) × (N.made.parts ≡ 1) }
    requires front { tokens.front ≡ [] }
    requires mark { tokens.mark ≡ 0 }
    requires pages { tokens.books.pages ≡ [] }
    requires sessions { tokens.books.sessions ≡ [] }
    requires maint { tokens.books.maint ≡ [] }
    requires open { seeds.log.log.log.ended ≡ None }
    requires keeps { KeepsState seeds.leaf }
{
    let Seeds { log, frames, leaf } = seeds;
    let Planted {
        mut journal,
        mut pages,
        mut pass,
    } = plant(alloc, ground, tokens, log, leaf, frames);
    pages.refuse(table.refused);
    play(
        rt,
        alloc,
        &mut pages,
        &mut journal,
        operators,
        table.lines,
        table.letters,
        &mut pass,
    )
}

fn play_life<L: Disk + Drop, N: Life, R: Wait>(
    rt: &R,
    alloc: Global,
    disk: L,
    unnamed: Unnamed,
    operators: &Operators,
    table: Table<'_>,
) -> Result<String, Fault>
    requires untold { (opening : List Record) → N.opens opening → ⊥ }
    requires named { unnamed ≡ life_names N.count N.pages N.sessions N.maint N.entries N.session_entries N.log_faults N.vault_faults N.data_faults N.made }
    requires parts { (N.entries.parts ≡ 1) × (N.session_entries.parts ≡ 1) × (N.log_faults.parts ≡ 1) × (N.vault_faults.parts ≡ 1) × (N.made.parts ≡ 1) }
{
    let seeds = gather(alloc, disk, table.limit)?;
    let (ground, tokens) = unnamed.split::<N>();
    play_on(rt, alloc, &ground, tokens, seeds, operators, table)
}

/// The first line of a table that answers otherwise in a new store, if there is one.
fn told_of<R: Wait>(rt: &R, alloc: Global, table: Table<'_>) -> Result<String, Fault> {
    let operators = boxed_operators!(alloc);
    let unnamed = Unnamed::new(alloc, 1)?;
    let disk = MemDisk::new(alloc);
    play_life::<MemDisk, Brand, R>(rt, alloc, disk, unnamed, &operators, table)
}

/// That of lines in a store of the greatest size.
fn told<R: Wait>(rt: &R, alloc: Global, lines: &[Line<'_>]) -> Result<String, Fault> {
    let table = Table {
        limit: 16384,
        refused: 0,
        lines,
        letters: b"",
    };
    told_of(rt, alloc, table)
}

#[test]
fn a_transaction_sees_its_writes_until_it_is_aborted(rt: HostRuntime) -> Result<(), Fail> {
    let lines = [
        ("begin A", "1"),
        ("put A x 1", "was none at 4"),
        ("del A x", "was = 1 at 7"),
        ("get A x", "none at 9"),
        ("abort A", "at 12"),
        ("begin B", "2"),
        ("get B x", "none at 15"),
        ("commit B", "1 at 17"),
    ];
    assert_eq!(rt; told(&rt, rt.alloc(), &lines)?.as_str(), "");
    Ok(())
}

/// Its writes are undone one by one, the last one first, and then the End is entered.
#[test]
fn an_abort_undoes_a_key_that_was_written_three_times(rt: HostRuntime) -> Result<(), Fail> {
    let lines = [
        ("begin A", "1"),
        ("put A x 0", "was none at 4"),
        ("commit A", "1 at 6"),
        ("begin A", "2"),
        ("put A x 1", "was = 0 at 10"),
        ("del A x", "was = 1 at 13"),
        ("put A x 2", "was none at 16"),
        ("stat", "pages=1 pending=3 entries=16"),
        ("abort A", "at 20"),
        ("stat", "pages=1 pending=0 entries=20"),
        ("begin B", "3"),
        ("get B x", "= 0 at 23"),
        ("abort B", "at 24"),
    ];
    assert_eq!(rt; told(&rt, rt.alloc(), &lines)?.as_str(), "");
    Ok(())
}

/// Each of three puts asks for a frame, and each undo. The second undo doesn't get one: the first stays, the transaction goes
/// on with the two writes before it, and its commit keeps them.
#[test]
fn an_abort_refused_in_the_middle_leaves_what_may_be_committed(
    rt: HostRuntime,
) -> Result<(), Fail> {
    let lines = [
        ("begin A", "1"),
        ("put A x 1", "was none at 4"),
        ("put A x 2", "was = 1 at 7"),
        ("put A x 3", "was = 2 at 10"),
        ("abort A", "lacks memory"),
        ("stat", "pages=1 pending=2 entries=11"),
        ("get A x", "= 2 at 13"),
        ("commit A", "1 at 15"),
        ("stat", "pages=1 pending=0 entries=15"),
        ("begin B", "2"),
        ("put B x 4", "was = 2 at 19"),
        ("abort B", "at 21"),
        ("begin C", "3"),
        ("get C x", "= 2 at 24"),
    ];
    let table = Table {
        limit: 16384,
        refused: 5,
        lines: &lines,
        letters: b"",
    };
    assert_eq!(rt; told_of(&rt, rt.alloc(), table)?.as_str(), "");
    Ok(())
}

/// A range ends before its end; of two that begin together, the first ends first.
#[test]
fn a_conflict_names_the_least_holder_and_its_first_range(rt: HostRuntime) -> Result<(), Fail> {
    let lines = [
        ("begin A", "1"),
        ("begin B", "2"),
        ("begin C", "3"),
        ("scan B c f", "pairs=0 at 5"),
        ("scan A d h", "pairs=0 at 7"),
        ("scan A d f", "pairs=0 at 9"),
        ("get A e", "none at 11"),
        ("scan A b e", "pairs=0 at 13"),
        ("put C e 1", "conflict 1 d..f at 14"),
        ("put C d 1", "conflict 1 b..e at 15"),
        ("put C h 1", "was none at 18"),
        ("scan C a h", "pairs=0 at 20"),
        ("commit A", "1 at 22"),
        ("put C e 1", "conflict 2 c..f at 23"),
        ("abort B", "at 24"),
        ("put C e 1", "was none at 27"),
    ];
    assert_eq!(rt; told(&rt, rt.alloc(), &lines)?.as_str(), "");
    Ok(())
}

#[test]
fn a_session_goes_on_behind_a_refusal(rt: HostRuntime) -> Result<(), Fail> {
    let lines = [
        ("get A x", "not active"),
        ("begin A", "1"),
        ("put A x 1", "was none at 4"),
        ("begin B", "2"),
        ("put B x 2", "conflict 1 x..x\0 at 6"),
        ("get B y", "none at 8"),
        ("put B y 2", "was none at 11"),
        ("commit A", "1 at 13"),
        ("put B x 2", "was = 1 at 16"),
        ("commit B", "2 at 18"),
        ("commit B", "not active"),
        ("abort B", "not active"),
        ("stat", "pages=1 pending=0 entries=18"),
    ];
    assert_eq!(rt; told(&rt, rt.alloc(), &lines)?.as_str(), "");
    Ok(())
}

/// A row of a key of one letter with the longest value has 261 bytes, a tombstone 5, and 15 rows fill a leaf. A put is full
/// where pages, open writes and 2 are more than the limit. The abort wants room in a leaf of 15 such rows and 3 tombstones:
/// it is purged and then split.
#[test]
fn a_put_is_full_at_the_limit_and_an_abort_never_is(rt: HostRuntime) -> Result<(), Fail> {
    let lines = [
        ("begin A", "1"),
        ("puts A abcdef", "was none at 19"),
        ("put A g V", "full 1 6 at 21"),
        ("get A g", "none at 23"),
        ("commit A", "1 at 25"),
        ("begin B", "2"),
        ("puts B ghijkl", "was none at 44"),
        ("commit B", "2 at 46"),
        ("begin C", "3"),
        ("puts C mno", "was none at 56"),
        ("commit C", "3 at 58"),
        ("begin D", "4"),
        ("del D a", "was = V at 62"),
        ("del D b", "was = V at 65"),
        ("del D c", "was = V at 68"),
        ("begin E", "5"),
        ("puts E pqr", "was none at 78"),
        ("commit E", "4 at 80"),
        ("stat", "pages=1 pending=3 entries=80"),
        ("abort D", "at 86"),
        ("stat", "pages=2 pending=0 entries=86"),
        ("begin F", "6"),
        ("get F a", "= V at 89"),
    ];
    let table = Table {
        limit: 8,
        refused: 0,
        lines: &lines,
        letters: b"",
    };
    assert_eq!(rt; told_of(&rt, rt.alloc(), table)?.as_str(), "");
    Ok(())
}

/// Numbers are added up to 2^64 - 1, and a text is joined to one; what has no value is refused, and the abort restores what
/// the operators found.
#[test]
fn an_operator_gives_a_value_or_is_refused(rt: HostRuntime) -> Result<(), Fail> {
    let lines = [
        ("begin A", "1"),
        ("put A n 18446744073709551615", "was none at 4"),
        ("commit A", "1 at 6"),
        ("begin A", "2"),
        ("op A add n 1", "refused at 9"),
        ("op A max n 7", "was = 18446744073709551615 at 12"),
        ("op A join j ab", "was none at 15"),
        ("get A j", "= ab at 17"),
        ("op A join n 0", "was = 18446744073709551615 at 20"),
        ("op A max n 7", "refused at 22"),
        ("op A add c 5", "was none at 25"),
        ("op A add c 6", "was = 5 at 28"),
        ("get A c", "= 11 at 30"),
        ("abort A", "at 36"),
        ("begin B", "3"),
        ("get B n", "= 18446744073709551615 at 39"),
        ("get B c", "none at 41"),
    ];
    assert_eq!(rt; told(&rt, rt.alloc(), &lines)?.as_str(), "");
    Ok(())
}

/// V is no number: so an operator that adds to it is refused, though there is no room either.
#[test]
fn an_operator_is_refused_before_room_is_asked_for(rt: HostRuntime) -> Result<(), Fail> {
    let lines = [
        ("begin A", "1"),
        ("puts A abcdef", "was none at 19"),
        ("op A add g 1", "full 1 6 at 21"),
        ("op A add a 1", "refused at 23"),
        ("commit A", "1 at 25"),
        ("begin A", "2"),
        ("op A add g 1", "was none at 29"),
        ("begin B", "3"),
        ("op B add g 1", "conflict 2 g..g\0 at 31"),
    ];
    let table = Table {
        limit: 8,
        refused: 0,
        lines: &lines,
        letters: b"",
    };
    assert_eq!(rt; told_of(&rt, rt.alloc(), table)?.as_str(), "");
    Ok(())
}

/// The 16th row splits the leaf at h, and the next put grows the root, which adopts. A scan that meets the key of an open
/// write conflicts; beside it, it finds the pairs of both leaves.
#[test]
fn a_scan_goes_over_leaves_beside_an_open_write(rt: HostRuntime) -> Result<(), Fail> {
    let lines = [
        ("begin A", "1"),
        ("puts A abcdefghijklmno", "was none at 46"),
        ("puts A p", "was none at 50"),
        ("puts A q", "was none at 55"),
        ("puts A rst", "was none at 64"),
        ("commit A", "1 at 66"),
        ("stat", "pages=3 pending=0 entries=66"),
        ("begin B", "2"),
        ("begin C", "3"),
        ("put B e 1", "was = V at 71"),
        ("scan C a d", "pairs=3 a=V b=V c=V at 73"),
        ("scan C a z", "conflict 2 e..e\0 at 74"),
        ("scan B d i", "pairs=5 d=V e=1 f=V g=V h=V at 76"),
        ("scan C f i", "pairs=3 f=V g=V h=V at 78"),
        ("del B g", "conflict 3 f..i at 79"),
        ("commit C", "2 at 81"),
        ("del B g", "was = V at 84"),
        ("scan B f i", "pairs=2 f=V h=V at 86"),
        ("abort B", "at 89"),
    ];
    assert_eq!(rt; told(&rt, rt.alloc(), &lines)?.as_str(), "");
    Ok(())
}

/// A put that grows the root and has it adopt, and that wants memory: nothing was written, wherever in the put that is, at
/// most its lock was taken and the tree kept up; and made once more it is answered. bench/refused_memory has each allocation
/// refused in turn.
#[test]
fn a_put_that_lacks_memory_is_made_again(rt: HostRuntime) -> Result<(), Fail> {
    let lines = [
        ("begin A", "1"),
        ("puts A abcdefghijklmnop", "was none at 50"),
    ];
    let table = Table {
        limit: 16384,
        refused: 0,
        lines: &lines,
        letters: b"q",
    };
    let Ok(told) = told_of(&rt, rt.alloc(), table) else {
        return Err(Fail::new("no fixture"));
    };
    match told.as_str() {
        "" => Ok(()),
        "refused behind 0 entries, 16 pending"
        | "refused behind 1 entries, 16 pending"
        | "refused behind 2 entries, 16 pending"
        | "refused behind 3 entries, 16 pending" => Err(Fail::new("refused, and nothing written")),
        _ => Err(Fail::new("half a put")),
    }
}
