//! With ample memory a listing goes on, and comes back from its checkpoint and from its analysis.
use log_index::Listing;
use std::test::Fail;
use wal_record::{Format, Record};

#[test]
fn a_listing_goes_on_and_comes_back(rt: HostRuntime) -> Result<(), Fail> {
    let mut listing = Listing::new(rt.alloc());
    let format = Record::Format(Format { limit: 100 });
    listing.prepare(&format)?;
    listing.note(1, &format);
    let checkpoint = listing.checkpoint(rt.alloc())?;
    let again = Listing::from_checkpoint(rt.alloc(), &checkpoint, 2)?;
    assert_eq!(rt; again.last_checkpoint(), 2);
    assert_eq!(rt; again.head(1), 1);
    let analysis = listing.analysis(rt.alloc())?;
    let third = Listing::from_analysis(rt.alloc(), &analysis, 1, 0)?;
    assert_eq!(rt; third.last(), 1);
    assert_eq!(rt; third.limit(), 100);
    Ok(())
}
