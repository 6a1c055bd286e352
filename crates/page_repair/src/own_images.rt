//! The data device of a store of one thread.
ghost use Rattle.std.specs.Prelude.{◌≡◌, ◌≤◌, ℕ, List, OnOk};
ghost use mathlib.Core.List.{IsPrefix};
ghost use Rattle.media.specs.Cause.{HasCause};
ghost use Rattle.media.specs.Counted.{Armed};
ghost use Rattle.media.specs.Images.{Keeps, SameImages};
ghost use Rattle.page_repair.specs.Images.{AreWritten};
ghost use Rattle.wal_record.specs.declared.record.Record.{Record};

use crate::images::Images;
use front::Pass;
use media::{Failed, PageBytes, PageDevice};
use page_ops::{Ground, Life};
use std::marker::Model;
use std::sync::Wait;
use store_model::PageNo;
use wal_record::Entry;

/// A data device that one thread owns, with a pass that has seen what its images are made of. Contracts see it as the
/// device.
#[derive(Drop)]
pub struct OwnImages<'a, D: PageDevice, N: Life> {
    ground: &'a Ground<N>,
    device: D,
    pass: Pass<Entry, N>,
}

impl<'a, D: PageDevice, N: Life> Model for OwnImages<'a, D, N> {
    ghost use Rattle.std.specs.Prelude.{List};
    ghost use Rattle.page_repair.specs.Images.{AreWritten};
    ghost use Rattle.wal_record.specs.declared.record.Record.{Record};

    ghost Value = { D };

    ghost view = { λ i. i.device };

    ghost invariant = { λ i. ((opening : List Record) → N.opens opening → D.tells) × (D.tells → AreWritten N.opens D.told i.pass i.device) };
}

impl<'a, D: PageDevice, N: Life> OwnImages<'a, D, N> {
    /// The device of a life, whose images are made of what this pass has seen. Where an opening log of the life is known, the
    /// device tells what was written.
    pub fn new(ground: &'a Ground<N>, device: D, pass: Pass<Entry, N>) -> OwnImages<'a, D, N>
        requires told { (opening : List Record) → N.opens opening → D.tells }
        requires written { D.tells → AreWritten N.opens D.told pass device }
        ensures { result ≡ device }
    {
        OwnImages {
            ground,
            device,
            pass,
        }
    }

    /// Reads of the page fail verification until its next write. After `Failed` they may.
    pub fn spoil(&mut self, page: PageNo) -> Result<(), Failed>
        ensures damaged { D.tells → OnOk result (D.spoiled self.new page) }
        ensures same { D.tells → SameImages D.told D.newest self.old self.new }
        ensures spoiled { D.tells → Keeps D.spoiled self.old self.new }
        ensures cause { HasCause D.faults self.old self.new result }
    {
        self.device.spoil(page)
    }

    /// Arms the device's fuse, which lets n more calls pass, or renews it.
    pub fn fuse(&mut self, n: Option<u64>)
        ensures same { D.tells → SameImages D.told D.newest self.old self.new }
        ensures spoiled { D.tells → Keeps D.spoiled self.old self.new }
        ensures faults { D.faults self.new ≡ D.faults self.old }
        ensures fuse { Armed D.fuses D.passes D.refused D.own n self.old self.new }
    {
        self.device.fuse(n);
    }

    /// The device, as it is. The caller's pass then has seen what its images are made of.
    pub fn into_device(self, pass: &mut Pass<Entry, N>) -> D
        ensures device { result ≡ self.entry }
        ensures written { D.tells → AreWritten N.opens D.told pass.new result }
        ensures seen { IsPrefix pass.old.log pass.new.log × (pass.old.durable ≤ pass.new.durable) }
    {
        let OwnImages {
            ground,
            device,
            pass: written,
        } = self;
        pass.meet(&ground.board, written);
        device
    }
}

impl<'a, D: PageDevice, N: Life> Images<N> for OwnImages<'a, D, N> {
    ghost faults = { λ i. D.faults i };

    ghost tells = { D.tells };

    ghost newest = { λ i. D.newest i };

    fn read<R: Wait>(
        &mut self,
        _rt: &R,
        page: PageNo,
        out: &mut PageBytes,
        pass: &mut Pass<Entry, N>,
    ) -> Result<(), Failed> {
        let written = self.pass.copy(&self.ground.board);
        pass.meet(&self.ground.board, written);
        self.device.read(page, out)
    }

    fn write<R: Wait>(
        &mut self,
        _rt: &R,
        page: PageNo,
        bytes: &PageBytes,
        pass: &mut Pass<Entry, N>,
    ) -> Result<(), Failed> {
        let known = pass.copy(&self.ground.board);
        self.pass.meet(&self.ground.board, known);
        self.device.write(page, bytes)
    }

    fn replace<R: Wait>(&mut self, _rt: &R) -> Result<(), Failed> {
        self.device.replace()
    }
}
