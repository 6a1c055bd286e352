//! A life with a vault.
ghost use Rattle.std.specs.Prelude.{◌≡◌, List, []};
ghost use Rattle.wal_record.specs.declared.record.Record.{Record};

use crate::telling::Telling;
use books::MaintRight;
use front::Pass;
use life_history::{Counts, History};
use media::Fuse;
use media_mem::MemVault;
use named_objects::OwnObjects;
use page_ops::{Ground, Life, Tokens, VaultFaults};
use store_model::Lsn;
use vault_bases::{Tally, VaultBases};
use wal_record::Entry;

/// A journal, the vault's images, and a first pass.
#[derive(Drop)]
pub(crate) struct Begun<'a, N: Life> {
    pub(crate) journal: Telling<'a, N>,
    pub(crate) bases: VaultBases<OwnObjects<Fuse<MemVault>, N>, VaultFaults<N>>,
    pub(crate) pass: Pass<Entry, N>,
}

/// A life whose journal tells of each page that this backup has it, at this LSN, and that a run has the records up to another one.
pub(crate) fn begin<'a, N: Life>(
    ground: &'a Ground<N>,
    tokens: Tokens<N>,
    vault: Fuse<MemVault>,
    backup: u64,
    lsn: Lsn,
    archived: Lsn,
) -> Begun<'a, N>
    requires untold { (opening : List Record) → N.opens opening → ⊥ }
    requires parts { (N.entries.parts ≡ 2) × (N.session_entries.parts ≡ 2) × (N.log_faults.parts ≡ 2) × (N.vault_faults.parts ≡ 2) × (N.made.parts ≡ 2) }
    requires front { tokens.front ≡ [] }
    requires pass { tokens.pass.log ≡ [] }
    requires pages { tokens.books.pages ≡ [] }
    requires sessions { tokens.books.sessions ≡ [] }
    requires maint { tokens.books.maint ≡ [] }
{
    let Tokens {
        front,
        mark: _,
        mut pass,
        mut books,
        entries,
        session_entries,
        log_faults,
        vault_faults,
        data_faults: _,
        made,
    } = tokens;
    let right = MaintRight::of(books.maint.open(&ground.tables.maint, 0));
    let (entries_book, entries) = entries.open();
    let (session_book, session_entries) = session_entries.open();
    let (_, log_faults) = log_faults.open();
    let (faults_book, mut vault_faults) = vault_faults.open();
    let own_faults = vault_faults.split_off(1, 0);
    let (made_book, made) = made.open();
    let history = History::new(
        ground,
        front,
        books,
        entries_book,
        session_book,
        made_book,
        1,
        1,
    );
    let counts = Counts {
        entries,
        session_entries,
        log_faults,
        vault_faults,
        made,
        ended: None,
        faults: 0,
    };
    let objects = OwnObjects::new(vault, right, pass.copy(&ground.board));
    let faults = Tally::new(faults_book, own_faults);
    Begun {
        journal: Telling {
            history,
            counts,
            backup,
            lsn,
            archived,
        },
        bases: VaultBases { objects, faults },
        pass,
    }
}
