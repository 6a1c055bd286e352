//! Copies of a segment's pages.
ghost use Rattle.std.specs.Prelude.{◌≡◌, [], ◌∷◌, ◌++◌, OnOk};
ghost use Rattle.named_objects.specs.declared.naming.Naming.TheVariants as namings;
ghost use Rattle.backups.specs.Copies.{nothing_drawn};

use media::PageBytes;
use named_objects::Naming;
use std::alloc::{AllocError, Global};
use std::marker::Model;
use store_model::{List, Lsn, PageNo};
use wal_record::{BackupDone, PageLsn};

/// Copies of pages of one segment, by rising page: of each what the log is to tell, and its image.
#[derive(Drop)]
pub(crate) struct Copies {
    told: Vec<PageLsn>,
    images: Vec<PageBytes>,
}

impl Model for Copies {
    ghost use Rattle.backups.specs.Copies.{Drawn};

    ghost Value = { Drawn };

    ghost view = { λ c. record { told = c.told.items; images = c.images.items } };
}

impl Copies {
    /// Of no page yet.
    pub(crate) fn new(alloc: Global) -> Copies
        ensures { result ≡ nothing_drawn }
    {
        Copies {
            told: Vec::new(alloc),
            images: Vec::new(alloc),
        }
    }

    /// A page more.
    pub(crate) fn add(
        &mut self,
        page: PageNo,
        lsn: Lsn,
        image: &PageBytes,
    ) -> Result<(), AllocError>
        ensures told { OnOk result (self.new.told ≡ self.old.told ++ record { page = page; lsn = lsn } ∷ []) }
        ensures images { OnOk result (self.new.images ≡ self.old.images ++ image.now ∷ []) }
    {
        self.told.push(PageLsn { page, lsn })?;
        self.images.push(*image)?;
        Ok(())
    }

    /// The images.
    pub(crate) fn images(&self) -> &[PageBytes]
        ensures { result.now ≡ self.now.images }
    {
        self.images.as_slice()
    }

    /// What the log is to say of them.
    pub(crate) fn into_naming(self, backup: u64, segment: u32) -> Naming
        ensures { result ≡ namings.Backup (record { backup = backup; segment = segment; pages = self.told }) }
    {
        let Copies { told, .. } = self;
        Naming::Backup(BackupDone {
            backup,
            segment,
            pages: List::from_vec(told),
        })
    }
}
