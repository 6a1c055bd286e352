//! Trees, page by page. What is expected was worked out by hand: a row has 4 bytes more than its key and its value, a leaf
//! with all keys 6 more than its rows, one with a fence key or a foster child more by it, and there is room for 4,051.
ghost use Rattle.std.specs.Prelude.{◌≡◌, List, [], IfOk};
ghost use Rattle.page_ops.specs.Names.{life_names};
ghost use Rattle.wal_record.specs.State.{KeepsState};
ghost use Rattle.wal_record.specs.declared.record.Record.{Record};

use crate::damage::Way;
use crate::steps::{Deed, Keys};
use crate::work::{Step, work, work_on_damaged};
use listed_log::ListedLog;
use media::Disk;
use media_mem::MemDisk;
use page_ops::{Ground, Life, Tokens, Unnamed};
use planted_store::{Planted, empty_leaf, new_log, no_pages, plant};
use small_stores::Frames;
use std::alloc::Global;
use std::marker::Brand;
use std::sync::Wait;
use std::test::*;
use store_model::Fault;
use wal_record::PageState;

/// A tree that is made, and below which number its pages are told; or the ways in which page 2 is damaged in turn.
#[derive(Clone, Copy)]
struct Tree<'a> {
    limit: u32,
    places: u32,
    steps: &'a [Step],
    behind: u32,
    ways: &'a [Way],
}

/// What a store is made of that wants memory.
#[derive(Drop)]
struct Seeds<L: Disk, N: Life> {
    log: ListedLog<L>,
    frames: Frames<N>,
    leaf: PageState,
}

fn gather<L: Disk + Drop, N: Life>(
    alloc: Global,
    disk: L,
    tree: Tree<'_>,
) -> Result<Seeds<L, N>, Fault>
    ensures open { IfOk result (λ seeds. seeds.log.log.log.ended ≡ None) }
    ensures keeps { IfOk result (λ seeds. KeepsState seeds.leaf) }
{
    let log = new_log(alloc, disk, tree.limit)?;
    let frames = no_pages(alloc, tree.places)?;
    match empty_leaf(alloc) {
        Some(leaf) => Ok(Seeds { log, frames, leaf }),
        None => Err(Fault::Memory),
    }
}

fn make_tree<L: Disk + Drop, N: Life, R: Wait>(
    rt: &R,
    alloc: Global,
    ground: &Ground<N>,
    tokens: Tokens<N>,
    seeds: Seeds<L, N>,
    tree: Tree<'_>,
) -> Result<String, Fault>
    requires untold { (opening : List Record) → N.opens opening → ⊥ }
    requires parts { (N.entries.parts ≡ 1) × (N.session_entries.parts ≡ 1) × (N.log_faults.parts ≡ 1) × (N.vault_faults.parts ≡ 1) × (N.made.parts ≡ 1) }
    requires front { tokens.front ≡ [] }
    requires mark { tokens.mark ≡ 0 }
    requires pages { tokens.books.pages ≡ [] }
    requires sessions { tokens.books.sessions ≡ [] }
    requires maint { tokens.books.maint ≡ [] }
    requires open { seeds.log.log.log.ended ≡ None }
    requires keeps { KeepsState seeds.leaf }
{
    let Seeds { log, frames, leaf } = seeds;
    let Planted {
        mut journal,
        mut pages,
        mut pass,
    } = plant(alloc, ground, tokens, log, leaf, frames);
    let (steps, behind, ways) = (tree.steps, tree.behind, tree.ways);
    if !ways.is_empty() {
        return work_on_damaged(rt, alloc, &mut journal, pages, steps, ways, &mut pass);
    }
    work(
        rt,
        alloc,
        &mut journal,
        &mut pages,
        steps,
        behind,
        &mut pass,
    )
}

fn make_life<L: Disk + Drop, N: Life, R: Wait>(
    rt: &R,
    alloc: Global,
    disk: L,
    unnamed: Unnamed,
    tree: Tree<'_>,
) -> Result<String, Fault>
    requires untold { (opening : List Record) → N.opens opening → ⊥ }
    requires named { unnamed ≡ life_names N.count N.pages N.sessions N.maint N.entries N.session_entries N.log_faults N.vault_faults N.data_faults N.made }
    requires parts { (N.entries.parts ≡ 1) × (N.session_entries.parts ≡ 1) × (N.log_faults.parts ≡ 1) × (N.vault_faults.parts ≡ 1) × (N.made.parts ≡ 1) }
{
    let seeds = gather(alloc, disk, tree)?;
    let (ground, tokens) = unnamed.split::<N>();
    make_tree(rt, alloc, &ground, tokens, seeds, tree)
}

/// What is told of a tree that a life of its own makes.
fn told_of<R: Wait>(rt: &R, alloc: Global, tree: Tree<'_>) -> Result<String, Fault> {
    let unnamed = Unnamed::new(alloc, 1)?;
    make_life::<MemDisk, Brand, R>(rt, alloc, MemDisk::new(alloc), unnamed, tree)
}

/// What is told of a small tree, in a store of the greatest size.
fn told<R: Wait>(rt: &R, alloc: Global, steps: &[Step]) -> Result<String, Fault> {
    told_of(
        rt,
        alloc,
        Tree {
            limit: 16384,
            places: 9,
            steps,
            behind: 9,
            ways: &[],
        },
    )
}

/// Puts of keys of 4 bytes, with 20 letters: a row has 28 bytes, and 144 of them fill a leaf.
fn short(from: u32, behind: u32) -> Step {
    few(from, behind, 20)
}

/// Puts of keys of 4 bytes, with so many letters, or deletions where there are none.
fn few(from: u32, behind: u32, letters: usize) -> Step {
    Step::Change(Keys {
        deed: Deed::Write,
        from,
        behind,
        length: 4,
        letters,
    })
}

/// Takes writes back: the keys have so many letters again, or none.
fn undo(from: u32, behind: u32, letters: usize) -> Step {
    Step::Change(Keys {
        deed: Deed::Undo,
        from,
        behind,
        length: 4,
        letters,
    })
}

/// Letters are joined to the values of keys of 4 bytes.
fn join(from: u32, behind: u32, letters: usize) -> Step {
    Step::Change(Keys {
        deed: Deed::Join,
        from,
        behind,
        length: 4,
        letters,
    })
}

fn scan(from: u32, behind: u32) -> Step {
    Step::Scan { from, behind }
}

/// Puts of the longest keys with the longest values: a row has 324 bytes, and 12 of them fill a leaf.
fn longest(from: u32, behind: u32) -> Step {
    Step::Change(Keys {
        deed: Deed::Write,
        from,
        behind,
        length: 64,
        letters: 256,
    })
}

#[test]
fn a_put_that_does_not_fit_splits_its_leaf(rt: HostRuntime) -> Result<(), Fail> {
    let full = told(&rt, rt.alloc(), &[short(0, 144)])?;
    assert_eq!(rt; full.as_str(), "pages 1\n0 ..- 144 0 2880 k000 k143\n");
    let split = told(&rt, rt.alloc(), &[short(0, 145)])?;
    let halves = "pages 2\n0 ..- k072>2 72 0 1440 k000 k071\n0 k072..- 73 0 1460 k072 k144\n";
    assert_eq!(rt; split.as_str(), halves);
    Ok(())
}

/// 12 rows of 324 bytes fit, 13 don't.
#[test]
fn the_longest_rows_are_split_in_halves(rt: HostRuntime) -> Result<(), Fail> {
    let told = told(&rt, rt.alloc(), &[longest(0, 13)])?;
    let wanted = "pages 2\n0 ..- k006>2 6 0 1536 k000 k005\n0 k006..- 7 0 1792 k006 k012\n";
    assert_eq!(rt; told.as_str(), wanted);
    Ok(())
}

/// The row that is put last goes into the half that has its key: the lowest key, one at the split point, the highest.
#[test]
fn the_half_with_the_key_has_the_new_row(rt: HostRuntime) -> Result<(), Fail> {
    let lowest = told(&rt, rt.alloc(), &[short(1, 145), short(0, 1)])?;
    let wanted = "pages 2\n0 ..- k073>2 73 0 1460 k000 k072\n0 k073..- 72 0 1440 k073 k144\n";
    assert_eq!(rt; lowest.as_str(), wanted);
    let middle = told(
        &rt,
        rt.alloc(),
        &[short(0, 72), short(73, 145), short(72, 73)],
    )?;
    let wanted = "pages 2\n0 ..- k073>2 73 0 1460 k000 k072\n0 k073..- 72 0 1440 k073 k144\n";
    assert_eq!(rt; middle.as_str(), wanted);
    Ok(())
}

/// 300 short rows: a full leaf splits at its 145th row, the next put makes the root grow and adopt, and each later half is
/// adopted by the put behind its split. Then a key is deleted: a scan over it finds the
/// two keys beside it, one over all leafs the 299 others.
#[test]
fn three_hundred_rows_are_four_leafs_below_a_root(rt: HostRuntime) -> Result<(), Fail> {
    let grown = told(&rt, rt.alloc(), &[short(0, 146)])?;
    let wanted =
        "pages 3\n1 ..- >3 k072>2\n0 k072..- 74 0 1480 k072 k145\n0 ..k072 72 0 1440 k000 k071\n";
    assert_eq!(rt; grown.as_str(), wanted);
    let steps = [
        short(0, 300),
        Step::Commit,
        few(150, 151, 0),
        scan(149, 152),
        scan(0, 300),
    ];
    let all = told(&rt, rt.alloc(), &steps)?;
    let wanted =
        "pages 5\n1 ..- >3 k072>2 k144>4 k216>5\n0 k072..k144 72 0 1440 k072 k143\n0 ..k072 72 0 1440 k000 k071\n0 k144..k216 72 1 1420 k144 k215\n0 k216..- 84 0 1680 k216 k299\npairs 301\n";
    assert_eq!(rt; all.as_str(), wanted);
    Ok(())
}

/// Two tombstones of 8 bytes, 143 rows of 28 and 6 bytes more are 4,026: the next row has room once they are purged.
#[test]
fn a_leaf_is_purged_before_it_is_split(rt: HostRuntime) -> Result<(), Fail> {
    let steps = [short(0, 144), few(10, 12, 0), short(144, 146)];
    let purged = told(&rt, rt.alloc(), &steps)?;
    assert_eq!(rt; purged.as_str(), "pages 1\n0 ..- 144 0 2880 k000 k145\n");
    let steps = [short(0, 144), few(10, 11, 0), short(144, 146)];
    let split = told(&rt, rt.alloc(), &steps)?;
    let wanted = "pages 2\n0 ..- k073>2 72 0 1440 k000 k072\n0 k073..- 73 0 1460 k073 k145\n";
    assert_eq!(rt; split.as_str(), wanted);
    Ok(())
}

/// A put that made a row shorter is taken back where others have filled its place: the leaf is split for it.
#[test]
fn an_undo_is_never_refused_for_room(rt: HostRuntime) -> Result<(), Fail> {
    let plain = told(&rt, rt.alloc(), &[short(0, 3), undo(2, 3, 0)])?;
    assert_eq!(rt; plain.as_str(), "pages 1\n0 ..- 3 1 40 k000 k002\n");
    let steps = [
        short(0, 144),
        few(0, 1, 1),
        few(144, 145, 11),
        undo(0, 1, 20),
    ];
    let split = told(&rt, rt.alloc(), &steps)?;
    let wanted = "pages 2\n0 ..- k073>2 73 0 1460 k000 k072\n0 k073..- 72 0 1431 k073 k144\n";
    assert_eq!(rt; split.as_str(), wanted);
    Ok(())
}

/// 144 short rows and 6 bytes more are 4,038: 13 letters more fill the leaf, and for 14 it is split. The undo gives the
/// value back.
#[test]
fn what_an_operator_makes_longer_splits_its_leaf(rt: HostRuntime) -> Result<(), Fail> {
    let full = told(&rt, rt.alloc(), &[short(0, 144), join(0, 1, 13)])?;
    assert_eq!(rt; full.as_str(), "pages 1\n0 ..- 144 0 2893 k000 k143\n");
    let split = told(&rt, rt.alloc(), &[short(0, 144), join(0, 1, 14)])?;
    let wanted = "pages 2\n0 ..- k072>2 72 0 1454 k000 k071\n0 k072..- 72 0 1440 k072 k143\n";
    assert_eq!(rt; split.as_str(), wanted);
    let steps = [short(0, 144), join(0, 1, 14), undo(0, 1, 20)];
    let undone = told(&rt, rt.alloc(), &steps)?;
    let wanted = "pages 2\n0 ..- k072>2 72 0 1440 k000 k071\n0 k072..- 72 0 1440 k072 k143\n";
    assert_eq!(rt; undone.as_str(), wanted);
    Ok(())
}

/// In a store of 8 pages and open writes a put needs room for two more. A root that may not grow keeps its foster child, and
/// keys are found along its foster pointer.
#[test]
fn a_limit_forbids_growing_and_then_puts(rt: HostRuntime) -> Result<(), Fail> {
    let steps = [
        few(0, 6, 256),
        Step::Commit,
        few(6, 12, 256),
        Step::Commit,
        few(12, 18, 256),
    ];
    let tree = Tree {
        limit: 8,
        places: 9,
        steps: &steps,
        behind: 9,
        ways: &[],
    };
    let told = told_of(&rt, rt.alloc(), tree)?;
    let wanted =
        "pages 2\n0 ..- k008>2 8 0 2048 k000 k007\n0 k008..- 9 0 2304 k008 k016\nfull 2 5\n";
    assert_eq!(rt; told.as_str(), wanted);
    Ok(())
}

/// 400 of the longest rows: a leaf keeps 6 of them, and a branch has room for 59 children. So the 361st row makes the root
/// split, the next descent makes it grow, and its halves have 30 children and the others.
#[test]
fn four_hundred_of_the_longest_rows_are_a_tree_of_level_two(rt: HostRuntime) -> Result<(), Fail> {
    let tree = Tree {
        limit: 16384,
        places: 80,
        steps: &[longest(0, 400)],
        behind: 2,
        ways: &[],
    };
    let told = told_of(&rt, rt.alloc(), tree)?;
    assert_eq!(rt; told.as_str(), "pages 69\n2 ..- >63 k180>62\n");
    Ok(())
}

/// A put that wants memory has entered nothing, wherever in the put that is, and made once more it splits the leaf as
/// ever. bench/refused_memory has each allocation refused in turn.
#[test]
fn a_put_that_lacks_memory_enters_nothing(rt: HostRuntime) -> Result<(), Fail> {
    let again = Step::Again(Keys {
        deed: Deed::Write,
        from: 144,
        behind: 145,
        length: 4,
        letters: 20,
    });
    let Ok(told) = told(&rt, rt.alloc(), &[short(0, 144), again]) else {
        return Err(Fail::new("no fixture"));
    };
    let halves = "pages 2\n0 ..- k072>2 72 0 1440 k000 k071\n0 k072..- 73 0 1460 k072 k144\n";
    match told.as_str().strip_prefix(halves) {
        Some("") => Ok(()),
        Some("refused behind 0 entries\n") => Err(Fail::new("refused, and entered nothing")),
        _ => Err(Fail::new("half a put")),
    }
}

/// A leaf that claims other fence keys than its parent has for it, those of another leaf among them, or another level, or a
/// foster child that isn't its own, is renewed, and the value is found.
#[test]
fn a_page_that_does_not_fit_its_parent_is_renewed(rt: HostRuntime) -> Result<(), Fail> {
    let tree = Tree {
        limit: 16384,
        places: 9,
        steps: &[short(0, 300)],
        behind: 3,
        ways: &[
            Way::BeginsEarly,
            Way::EndsLate,
            Way::Another,
            Way::NoLeaf,
            Way::WrongFoster,
        ],
    };
    let told = told_of(&rt, rt.alloc(), tree)?;
    let wanted = "1 ..- >3 k072>2 k144>4 k216>5\n0 k072..k144 72 0 1440 k072 k143\nletters 100\n";
    assert_eq!(rt; told.as_str(), wanted);
    Ok(())
}

/// So is a foster child that claims other fence keys than its foster parent has for it, or another level.
#[test]
fn a_page_that_does_not_fit_its_foster_parent_is_renewed(rt: HostRuntime) -> Result<(), Fail> {
    let tree = Tree {
        limit: 16384,
        places: 9,
        steps: &[short(0, 145)],
        behind: 3,
        ways: &[Way::BeginsEarly, Way::EndsEarly, Way::Another, Way::NoLeaf],
    };
    let told = told_of(&rt, rt.alloc(), tree)?;
    let wanted = "0 ..- k072>2 72 0 1440 k000 k071\n0 k072..- 73 0 1460 k072 k144\nletters 80\n";
    assert_eq!(rt; told.as_str(), wanted);
    Ok(())
}
