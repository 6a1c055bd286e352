//! The bytes of an object that the log names.
ghost use Rattle.std.specs.Prelude.{◌≡◌, ◌≤◌, length, take, drop, IfErr, IfOk};
ghost use Rattle.page_ops.specs.Causes.{MeetsNoEnd};
ghost use Rattle.page_ops.specs.Claims.{no_claims};
ghost use Rattle.page_ops.specs.Seeing.{Looks, Upholds, is_none, known};
ghost use Rattle.vault_bases.specs.Faults.{FailsToGive};
ghost use Rattle.vault_bases.specs.Named.{OfNamed};

use crate::bases::VaultBases;
use front::Pass;
use named_objects::Objects;
use page_ops::{Entering, Life, Rights};
use std::alloc::Global;
use std::sync::Wait;
use std::sync::ledger::Ledger;
use store_model::{Fault, Memory, ObjectName};
use wal_record::Entry;

/// Moves the object's bytes from an offset on into `buf`, fewer than asked only at their end. A fault of the vault is counted.
fn read_piece<N: Life, J: Entering<N>, O: Objects<N>, L: Ledger, R: Wait>(
    rt: &R,
    journal: &mut J,
    bases: &mut VaultBases<O, L>,
    name: ObjectName,
    from: u64,
    buf: &mut [u8],
    pass: &mut Pass<Entry, N>,
) -> Result<usize, Fault>
    ensures within { IfOk result (λ n. n ≤ length buf.new) }
    ensures size { length buf.new ≡ length buf.old }
    ensures piece { IfOk result (λ n. OfNamed N.opens pass.new.log name (λ bytes. take n buf.new ≡ take (length buf.old) (drop from bytes))) }
    ensures faults { bases.old.faults ≤ bases.new.faults }
    ensures vault { O.faults bases.old.objects ≤ O.faults bases.new.objects }
    ensures seen { Looks N.opens N.entries N.session_entries (J.account journal.old) pass.old (J.account journal.new) pass.new }
    ensures open { MeetsNoEnd (J.account journal.old) (J.account journal.new) }
    ensures refused { IfErr result (FailsToGive N.opens bases.old.faults bases.new.faults (O.faults bases.old.objects) (O.faults bases.new.objects)) }
{
    match bases.objects.get(rt, journal, name, from, buf, pass) {
        Ok(count) => Ok(count),
        Err(_) => {
            bases.faults.add();
            Err(Fault::VaultFault)
        }
    }
}

/// So many zero bytes.
fn zeros(alloc: Global, most: usize) -> Result<Vec<u8>, Memory>
    ensures { IfOk result (λ zeros. length zeros.items ≡ most) }
{
    Ok(vec![in alloc; 0u8; most]?)
}

/// The object's bytes from an offset on, at most so many, fewer only at their end. It is one call of the vault. The pass has
/// then seen the history by which the object is named, also where memory runs out.
pub(crate) fn read_named<N: Life, J: Entering<N>, O: Objects<N>, L: Ledger, R: Wait>(
    rt: &R,
    alloc: Global,
    journal: &mut J,
    bases: &mut VaultBases<O, L>,
    name: ObjectName,
    from: u64,
    most: usize,
    pass: &mut Pass<Entry, N>,
) -> Result<Vec<u8>, Fault>
    ensures bytes { IfOk result (λ v. OfNamed N.opens pass.new.log name (λ bytes. v.items ≡ take most (drop from bytes))) }
    ensures faults { bases.old.faults ≤ bases.new.faults }
    ensures vault { O.faults bases.old.objects ≤ O.faults bases.new.objects }
    ensures entered { Upholds N.opens N.entries N.session_entries is_none (known (J.account journal.old) pass.old no_claims) (known (J.account journal.new) pass.new no_claims) }
    ensures open { MeetsNoEnd (J.account journal.old) (J.account journal.new) }
    ensures refused { IfErr result (FailsToGive N.opens bases.old.faults bases.new.faults (O.faults bases.old.objects) (O.faults bases.new.objects)) }
{
    let made = zeros(alloc, most);
    let Ok(mut bytes) = made else {
        journal.see(rt, &mut Rights::none(), pass);
        return Err(Fault::Memory);
    };
    let count = read_piece(rt, journal, bases, name, from, bytes.as_mut_slice(), pass)?;
    bytes.truncate(count);
    Ok(bytes)
}
