//! A life whose data device was lost.
ghost use Rattle.std.specs.Prelude.{◌≡◌, List, []};
ghost use Rattle.wal_record.specs.declared.record.Record.{Record};

use crate::telling::{Asked, Telling, Tells};
use front::Pass;
use media_mem::MemPages;
use page_ops::{Ground, Life, Tokens};
use page_repair::OwnImages;
use untold_journal::{Counts, Untold};
use wal_record::Entry;

/// A journal, the device that takes the place of the lost one, and a first pass.
#[derive(Drop)]
pub(crate) struct Begun<'a, N: Life> {
    pub(crate) journal: Telling<'a, N>,
    pub(crate) images: OwnImages<'a, MemPages, N>,
    pub(crate) pass: Pass<Entry, N>,
}

/// A life whose journal tells this.
pub(crate) fn begin<'a, N: Life>(
    ground: &'a Ground<N>,
    tokens: Tokens<N>,
    device: MemPages,
    tells: Tells,
) -> Begun<'a, N>
    requires untold { (opening : List Record) → N.opens opening → ⊥ }
    requires parts { (N.entries.parts ≡ 1) × (N.session_entries.parts ≡ 1) × (N.log_faults.parts ≡ 1) × (N.vault_faults.parts ≡ 1) × (N.made.parts ≡ 1) }
    requires front { tokens.front ≡ [] }
    requires sessions { tokens.books.sessions ≡ [] }
    requires maint { tokens.books.maint ≡ [] }
{
    let Tokens {
        front,
        mark: _,
        mut pass,
        books,
        entries,
        session_entries,
        log_faults,
        vault_faults,
        data_faults: _,
        made,
    } = tokens;
    let (entries_book, entries) = entries.open();
    let (session_book, session_entries) = session_entries.open();
    let (_, log_faults) = log_faults.open();
    let (_, vault_faults) = vault_faults.open();
    let (_, made) = made.open();
    let images = OwnImages::new(ground, device, pass.copy(&ground.board));
    Begun {
        journal: Telling {
            history: Untold::new(
                ground,
                front,
                books.sessions,
                books.maint,
                entries_book,
                session_book,
            ),
            counts: Counts {
                entries,
                session_entries,
                log_faults,
                vault_faults,
                made,
            },
            tells,
            asked: Asked {
                calls: 0,
                reads: 0,
                flushed: 0,
                entered: 0,
                segment: None,
            },
        },
        images,
        pass,
    }
}
