//! The object of a run, written.
ghost use Rattle.std.specs.Prelude.{◌≡◌, ◌≤◌, ◌<◌, ◌^◌, ◌+◌, ◌*◌, ◌++◌, ℕ, List, length, flat_map, OnOk, IfOk};
ghost use Rattle.log_archive.specs.Items.{chunk, chunks_by, chunks_upto};
ghost use Rattle.log_archive.specs.Run.{chunks_bytes, directory, entry_bytes, head_bytes, run_bytes};
ghost use Rattle.log_archive.specs.Shelves.{Holds, shelf_of};
ghost use Rattle.log_archive.specs.declared.item.Numbered.{Numbered};

use crate::directory::Head;
use crate::layout::{DIRECTORY_AT, ENTRY_BYTES, MARK};
use crate::shelf::Shelf;
use state_codec::{put_u32, put_u64};
use std::alloc::{AllocError, Global};
use store_model::Memory;

/// How many pages have items.
fn pages_in(shelves: &[Shelf]) -> u32
    requires { length shelves.now ≤ 16384 }
    ensures counted { (f : ℕ → List Numbered) → Holds shelves.now f → result ≡ length (chunks_upto f (length shelves.now)) }
    ensures few { result ≤ length shelves.now }
{
    let mut pages = 0u32;
    for shelf in shelves {
        pages += shelf.count().min(1);
    }
    pages
}

fn put_head(out: &mut Vec<u8>, run: u64, head: Head) -> Result<(), AllocError>
    ensures { OnOk result (out.new.items ≡ out.old.items ++ head_bytes run head.first head.last head.pages) }
{
    put_u32(out, MARK)?;
    put_u64(out, run)?;
    put_u64(out, head.first)?;
    put_u64(out, head.last)?;
    put_u32(out, head.pages)
}

/// The entry of a page, if it has items, where they begin at this byte. It gives the byte behind them.
fn put_entry(out: &mut Vec<u8>, page: u32, offset: u64, shelf: &Shelf) -> Result<u64, Memory>
    ensures entry { OnOk result ((items : List Numbered) → shelf.now ≡ shelf_of items → out.new.items ≡ out.old.items ++ flat_map entry_bytes (directory offset (chunk page items))) }
    ensures next { IfOk result (λ n. n ≡ offset + length shelf.now.bytes) }
{
    let next = match offset.checked_add(shelf.as_bytes().len() as u64) {
        Some(next) => next,
        None => return Err(Memory),
    };
    if shelf.count() > 0 {
        put_u32(out, page)?;
        put_u32(out, shelf.count())?;
        put_u64(out, offset)?;
    }
    Ok(next)
}

/// The directory, where the items begin at this byte.
fn put_directory(out: &mut Vec<u8>, at: u64, shelves: &[Shelf]) -> Result<(), Memory>
    requires { length shelves.now ≤ 16384 }
    ensures { OnOk result ((f : ℕ → List Numbered) → Holds shelves.now f → out.new.items ≡ out.old.items ++ flat_map entry_bytes (directory at (chunks_upto f (length shelves.now)))) }
{
    let mut offset = at;
    for (i, shelf) in shelves.iter().enumerate() {
        offset = put_entry(out, i as u32 + 1, offset, shelf)?;
    }
    Ok(())
}

fn put_items(out: &mut Vec<u8>, shelves: &[Shelf]) -> Result<(), Memory>
    ensures { OnOk result ((f : ℕ → List Numbered) → Holds shelves.now f → out.new.items ≡ out.old.items ++ chunks_bytes (chunks_upto f (length shelves.now))) }
{
    for shelf in shelves {
        out.extend_from_slice(shelf.as_bytes())?;
    }
    Ok(())
}

/// The object of a run with the items on these shelves.
pub fn object_of(
    alloc: Global,
    run: u64,
    first: u64,
    last: u64,
    shelves: &[Shelf],
) -> Result<Vec<u8>, Memory>
    requires { length shelves.now ≤ 16384 }
    ensures spelled { (f : ℕ → List Numbered) → Holds shelves.now f → IfOk result (λ bytes. bytes.items ≡ run_bytes run first last (chunks_by f)) }
    ensures short { IfOk result (λ bytes. length bytes.items < 2 ^ 32) }
{
    let pages = pages_in(shelves);
    let mut bytes = Vec::new(alloc);
    put_head(&mut bytes, run, Head { first, last, pages })?;
    let at = DIRECTORY_AT as u64 + ENTRY_BYTES as u64 * u64::from(pages);
    put_directory(&mut bytes, at, shelves)?;
    put_items(&mut bytes, shelves)?;
    if bytes.len() >= 1 << 32 {
        return Err(Memory);
    }
    Ok(bytes)
}
