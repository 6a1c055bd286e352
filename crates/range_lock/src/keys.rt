//! For each transaction, the keys of its point locks.
ghost use Rattle.std.specs.Prelude.{◌≡◌, ◌≢◌, ◌≤◌, length, OnOk, OnErr, true};
ghost use Rattle.store_model.specs.declared.limits.TheConstants.{KEY_BYTES};
ghost use Rattle.range_lock.specs.Tables.{is_listed};
ghost use Rattle.range_lock.specs.Point.{PointLock};

use crate::key_list::KeyList;
use std::alloc::{AllocError, Global};
use std::collections::BTreeMap;
use store_model::TxId;

/// Lists the key of these bytes for a transaction. Where memory runs out, all that was listed still is.
pub fn list_key(
    alloc: Global,
    keys: &mut BTreeMap<TxId, KeyList>,
    tx: TxId,
    key: &[u8],
) -> Result<(), AllocError>
    requires { length key.now ≤ KEY_BYTES }
    ensures stays { (p : PointLock) → is_listed keys.old p ≡ true → is_listed keys.new p ≡ true }
    ensures added { OnOk result ((p : PointLock) → p.tx ≡ tx → p.key ≡ key.now → is_listed keys.new p ≡ true) }
{
    if let Some(listed) = keys.get_mut(&tx) {
        listed.push(key)?;
        return Ok(());
    }
    let mut listed = KeyList::new(alloc);
    listed.push(key)?;
    keys.insert(tx, listed)?;
    Ok(())
}
