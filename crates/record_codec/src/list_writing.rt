//! Writing the lists of a Checkpoint and of a BackupDone.
ghost use Rattle.std.specs.Prelude.{◌≡◌, ◌++◌, ◌<◌, ◌^◌, ℕ, length, flat_map, OnOk};
ghost use Rattle.std.specs.Int.{w8, w16, w32};
ghost use Rattle.store_model.specs.Along.{AllAlong};
ghost use Rattle.wal_record.specs.Rules.{KeepsUnfinished};
ghost use Rattle.wal_record.specs.Spelling.{number_bytes, list_bytes, page_head_bytes, open_write_bytes, unfinished_bytes, run_bytes, page_lsn_bytes};

use state_codec::{put_key, put_u8, put_u16, put_u32, put_u64};
use std::alloc::AllocError;
use store_model::List;
use wal_record::{OpenWrite, PageHead, PageLsn, Run, Unfinished};

fn put_page_head(out: &mut Vec<u8>, item: &PageHead) -> Result<(), AllocError>
    ensures { OnOk result (out.new.items ≡ out.old.items ++ page_head_bytes item.now) }
{
    put_u64(out, item.head)?;
    put_u64(out, item.written)?;
    put_u64(out, item.backup)?;
    put_u64(out, item.backup_lsn)
}

fn put_open_write(out: &mut Vec<u8>, item: &OpenWrite) -> Result<(), AllocError>
    ensures { OnOk result (out.new.items ≡ out.old.items ++ open_write_bytes item.now) }
{
    put_u64(out, item.lsn)?;
    put_key(out, &item.key)
}

fn put_run(out: &mut Vec<u8>, item: &Run) -> Result<(), AllocError>
    ensures { OnOk result (out.new.items ≡ out.old.items ++ run_bytes item.now) }
{
    put_u64(out, item.run)?;
    put_u64(out, item.first)?;
    put_u64(out, item.last)
}

fn put_page_lsn(out: &mut Vec<u8>, item: &PageLsn) -> Result<(), AllocError>
    ensures { OnOk result (out.new.items ≡ out.old.items ++ page_lsn_bytes item.now) }
{
    put_u32(out, item.page)?;
    put_u64(out, item.lsn)
}

fn put_unfinished(out: &mut Vec<u8>, item: &Unfinished) -> Result<(), AllocError>
    requires { length item.now.writes < 2 ^ 32 }
    ensures { OnOk result (out.new.items ≡ out.old.items ++ unfinished_bytes item.now) }
{
    put_u64(out, item.tx)?;
    put_u64(out, item.last)?;
    put_u64(out, item.undo_next)?;
    put_open_writes(out, &item.writes)
}

fn put_page_heads_items(out: &mut Vec<u8>, items: &[PageHead]) -> Result<(), AllocError>
    ensures { OnOk result (out.new.items ≡ out.old.items ++ flat_map page_head_bytes items.now) }
{
    for item in items {
        put_page_head(out, item)?;
    }
    Ok(())
}

#[tactic(auto, unfolding(wal_record::specs::Spelling::list_bytes, wal_record::specs::Spelling::number_bytes))]
pub fn put_page_heads(out: &mut Vec<u8>, items: &List<PageHead>) -> Result<(), AllocError>
    requires { length items.now < 2 ^ 32 }
    ensures { OnOk result (out.new.items ≡ out.old.items ++ list_bytes w32 page_head_bytes items.now) }
{
    put_u32(out, items.len() as u32)?;
    put_page_heads_items(out, items.as_slice())
}

fn put_open_writes_items(out: &mut Vec<u8>, items: &[OpenWrite]) -> Result<(), AllocError>
    ensures { OnOk result (out.new.items ≡ out.old.items ++ flat_map open_write_bytes items.now) }
{
    for item in items {
        put_open_write(out, item)?;
    }
    Ok(())
}

#[tactic(auto, unfolding(wal_record::specs::Spelling::list_bytes, wal_record::specs::Spelling::number_bytes))]
fn put_open_writes(out: &mut Vec<u8>, items: &List<OpenWrite>) -> Result<(), AllocError>
    requires { length items.now < 2 ^ 32 }
    ensures { OnOk result (out.new.items ≡ out.old.items ++ list_bytes w32 open_write_bytes items.now) }
{
    put_u32(out, items.len() as u32)?;
    put_open_writes_items(out, items.as_slice())
}

fn put_runs_items(out: &mut Vec<u8>, items: &[Run]) -> Result<(), AllocError>
    ensures { OnOk result (out.new.items ≡ out.old.items ++ flat_map run_bytes items.now) }
{
    for item in items {
        put_run(out, item)?;
    }
    Ok(())
}

#[tactic(auto, unfolding(wal_record::specs::Spelling::list_bytes, wal_record::specs::Spelling::number_bytes))]
pub fn put_runs(out: &mut Vec<u8>, items: &List<Run>) -> Result<(), AllocError>
    requires { length items.now < 2 ^ 16 }
    ensures { OnOk result (out.new.items ≡ out.old.items ++ list_bytes w16 run_bytes items.now) }
{
    put_u16(out, items.len() as u16)?;
    put_runs_items(out, items.as_slice())
}

fn put_page_lsns_items(out: &mut Vec<u8>, items: &[PageLsn]) -> Result<(), AllocError>
    ensures { OnOk result (out.new.items ≡ out.old.items ++ flat_map page_lsn_bytes items.now) }
{
    for item in items {
        put_page_lsn(out, item)?;
    }
    Ok(())
}

#[tactic(auto, unfolding(wal_record::specs::Spelling::list_bytes, wal_record::specs::Spelling::number_bytes))]
pub fn put_page_lsns(out: &mut Vec<u8>, items: &List<PageLsn>) -> Result<(), AllocError>
    requires { length items.now < 2 ^ 8 }
    ensures { OnOk result (out.new.items ≡ out.old.items ++ list_bytes w8 page_lsn_bytes items.now) }
{
    put_u8(out, items.len() as u8)?;
    put_page_lsns_items(out, items.as_slice())
}

fn put_transactions_items(out: &mut Vec<u8>, items: &[Unfinished]) -> Result<(), AllocError>
    requires { AllAlong KeepsUnfinished items.now }
    ensures { OnOk result (out.new.items ≡ out.old.items ++ flat_map unfinished_bytes items.now) }
{
    for item in items {
        put_unfinished(out, item)?;
    }
    Ok(())
}

#[tactic(auto, unfolding(wal_record::specs::Spelling::list_bytes, wal_record::specs::Spelling::number_bytes))]
pub fn put_transactions(out: &mut Vec<u8>, items: &List<Unfinished>) -> Result<(), AllocError>
    requires fits { length items.now < 2 ^ 32 }
    requires kept { AllAlong KeepsUnfinished items.now }
    ensures { OnOk result (out.new.items ≡ out.old.items ++ list_bytes w32 unfinished_bytes items.now) }
{
    put_u32(out, items.len() as u32)?;
    put_transactions_items(out, items.as_slice())
}

fn put_segments_items(out: &mut Vec<u8>, items: &[u32]) -> Result<(), AllocError>
    ensures { OnOk result (out.new.items ≡ out.old.items ++ flat_map (number_bytes w32) items.now) }
{
    for item in items {
        put_u32(out, *item)?;
    }
    Ok(())
}

#[tactic(auto, unfolding(wal_record::specs::Spelling::list_bytes, wal_record::specs::Spelling::number_bytes))]
pub fn put_segments(out: &mut Vec<u8>, items: &List<u32>) -> Result<(), AllocError>
    requires { length items.now < 2 ^ 32 }
    ensures { OnOk result (out.new.items ≡ out.old.items ++ list_bytes w32 (number_bytes w32) items.now) }
{
    put_u32(out, items.len() as u32)?;
    put_segments_items(out, items.as_slice())
}
