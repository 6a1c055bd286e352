//! A vault that one thread owns.
ghost use Rattle.std.specs.Prelude.{◌≡◌, ◌-◌, ◌^◌, List, None, min};
ghost use Rattle.media.specs.Counted.{Armed};
ghost use Rattle.page_ops.specs.Claims.{MaintAgrees};
ghost use Rattle.wal_record.specs.declared.record.Record.{Record};
ghost use Rattle.named_objects.specs.Drafts.{Owned};
ghost use Rattle.named_objects.specs.Named.{AreNamed};

use crate::draft::{Done, Draft, Drafted, is_ready, mark_synced};
use crate::naming::Naming;
use crate::naming_entry::{enter_naming, look};
use crate::objects::Objects;
use books::MaintRight;
use front::Pass;
use media::{Failed, Vault};
use page_ops::{Entering, Life};
use std::alloc::Global;
use std::marker::Model;
use std::sync::Wait;
use store_model::{Fault, Lsn, ObjectName};
use wal_record::Entry;

/// A vault that one thread owns, with the right to maintenance, a pass that has seen what names its objects, and the object
/// that was put last. Contracts see the vault and the draft.
#[derive(Drop)]
pub struct OwnObjects<V: Vault, N: Life> {
    vault: V,
    draft: Option<Draft>,
    right: Option<MaintRight<N>>,
    pass: Pass<Entry, N>,
}

impl<V: Vault, N: Life> Model for OwnObjects<V, N> {
    ghost use Rattle.std.specs.Prelude.{List, IfSome, IsSome};
    ghost use Rattle.wal_record.specs.declared.record.Record.{Record};
    ghost use Rattle.page_ops.specs.Claims.{MaintAgrees};
    ghost use Rattle.named_objects.specs.Drafts.{IsDraft, Owned};
    ghost use Rattle.named_objects.specs.Named.{AreNamed};

    ghost Value = { Owned V };

    ghost view = { λ o. record { vault = o.vault; draft = o.draft } };

    ghost invariant = { λ o. IsSome o.right × IfSome o.right (MaintAgrees o.pass.log) × ((opening : List Record) → N.opens opening → V.tells)
        × (V.tells → AreNamed N.opens V.told o.pass.log o.vault) × IfSome o.draft (IsDraft N.opens V.tells V.told o.pass.log o.vault) };
}

impl<V: Vault, N: Life> OwnObjects<V, N> {
    /// The vault of a life, whose named objects are named by what this pass has seen. An opening log is known only where the
    /// vault tells what it holds.
    pub fn new(vault: V, right: MaintRight<N>, pass: Pass<Entry, N>) -> OwnObjects<V, N>
        requires right { MaintAgrees pass.log right }
        requires told { (opening : List Record) → N.opens opening → V.tells }
        requires named { V.tells → AreNamed N.opens V.told pass.log vault }
        ensures { result ≡ record { vault = vault; draft = None } }
    {
        OwnObjects {
            vault,
            draft: None,
            right: Some(right),
            pass,
        }
    }

    /// Arms the vault's fuse, which lets n more calls pass, or renews it.
    pub fn fuse(&mut self, n: Option<u64>)
        ensures fuse { Armed V.fuses V.passes V.refused V.own n self.old.vault self.new.vault }
        ensures faults { V.faults self.new.vault ≡ V.faults self.old.vault }
        ensures draft { self.new.draft ≡ self.old.draft }
    {
        self.vault.fuse(n);
    }

    /// How many calls the vault's fuse has refused.
    pub fn refused(&self) -> u64
        ensures { result ≡ min (V.refused self.now.vault) (2 ^ 64 - 1) }
    {
        self.vault.refused()
    }

    /// The vault, the right to maintenance, and a pass: each object that is named by what this has seen is synced, and the right
    /// agrees with it.
    pub fn into_parts(self) -> (V, MaintRight<N>, Pass<Entry, N>)
        ensures vault { result.0 ≡ self.vault }
        ensures right { MaintAgrees result.2.log result.1 }
        ensures named { V.tells → AreNamed N.opens V.told result.2.log result.0 }
    {
        let OwnObjects {
            vault,
            right,
            pass,
            ..
        } = self;
        let Some(right) = right else { unreachable!() };
        (vault, right, pass)
    }
}

impl<V: Vault, N: Life> Objects<N> for OwnObjects<V, N> {
    ghost faults = { λ o. V.faults o.vault };

    ghost draft = { λ o. o.draft };

    ghost alone = { Unit {0} };

    fn faults(&self) -> u64 {
        self.vault.faults()
    }

    fn get<J: Entering<N>, R: Wait>(
        &mut self,
        rt: &R,
        journal: &mut J,
        name: ObjectName,
        from: u64,
        buf: &mut [u8],
        pass: &mut Pass<Entry, N>,
    ) -> Result<usize, Failed> {
        look(rt, journal, &mut self.right, &mut self.pass, pass);
        self.vault.get(name, from, buf)
    }

    fn last_named<J: Entering<N>, R: Wait>(
        &mut self,
        rt: &R,
        journal: &mut J,
        pass: &mut Pass<Entry, N>,
    ) -> Lsn {
        look(rt, journal, &mut self.right, &mut self.pass, pass)
    }

    fn put<J: Entering<N>, R: Wait>(
        &mut self,
        rt: &R,
        journal: &mut J,
        since: Lsn,
        naming: Naming,
        bytes: &[u8],
        pass: &mut Pass<Entry, N>,
    ) -> Result<Drafted, Failed> {
        let last = look(rt, journal, &mut self.right, &mut self.pass, pass);
        if last != since {
            return Ok(Drafted::Late);
        }
        self.draft = None;
        self.vault.put(naming.name(), bytes)?;
        self.draft = Some(Draft {
            naming,
            synced: false,
        });
        Ok(Drafted::Taken)
    }

    fn sync<R: Wait>(&mut self, _rt: &R) -> Result<(), Failed> {
        self.vault.sync()?;
        mark_synced(&mut self.draft);
        Ok(())
    }

    fn done<J: Entering<N>, R: Wait>(
        &mut self,
        rt: &R,
        alloc: Global,
        journal: &mut J,
        since: Lsn,
        naming: Naming,
        pass: &mut Pass<Entry, N>,
    ) -> Result<Done, Fault> {
        let last = look(rt, journal, &mut self.right, &mut self.pass, pass);
        if last != since || !is_ready(&self.draft, &naming) {
            return Ok(Done::Late);
        }
        let lsn = enter_naming(rt, alloc, journal, naming, &mut self.right, pass)?;
        self.pass = pass.copy(&journal.ground().board);
        self.draft = None;
        Ok(Done::At(lsn))
    }
}
