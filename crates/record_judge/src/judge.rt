//! The judge.
ghost use Rattle.std.specs.Prelude.{[]};
ghost use Rattle.record_judge.specs.Judging.{IsRecordJudgeOf};

use chain_judge::Chains;
use log_index::Listing;
use page_judge::{PageImages, PageNames};
use reply_judge::CurrentContents;
use std::alloc::Global;
use upkeep_judge::Backups;

/// What is kept of a log to judge the next record.
#[derive(Drop)]
pub struct RecordJudge {
    pub alloc: Global,
    pub listing: Listing,
    pub contents: CurrentContents,
    pub chains: Chains,
    pub images: PageImages,
    /// The pages that each record names.
    pub names: PageNames,
    pub backups: Backups,
}

impl RecordJudge {
    /// That of an empty log.
    pub fn new(alloc: Global) -> RecordJudge
        ensures { IsRecordJudgeOf [] result }
    {
        RecordJudge {
            alloc,
            listing: Listing::new(alloc),
            contents: CurrentContents::new(alloc),
            chains: Chains::new(alloc),
            images: PageImages::new(alloc),
            names: PageNames::new(alloc),
            backups: Backups::new(alloc),
        }
    }
}
