//! The head of a backup object.
ghost use Rattle.std.specs.Prelude.{◌≡◌};
ghost use Rattle.std.specs.Int.{w32};
ghost use Rattle.wal_record.specs.Reading.{number_at};
ghost use Rattle.wal_record.specs.Rules.{is_page_count};
ghost use Rattle.state_codec.specs.Gives.{Gives};
ghost use Rattle.backup_set.specs.Reading.{head_at, is_next_page};

use crate::layout::MARK;
use crate::part::{Part, segment_of};
use state_codec::{FieldFault, u32_in_front};
use store_model::{MOST_PAGES, PageNo, SEGMENT_PAGES};
use vault_objects::{this_u32_at, this_u64_at};

#[tactic(auto, unfolding(wal_record::specs::Reading::number_at))]
fn count_at(bytes: &[u8]) -> Result<(u32, &[u8]), FieldFault>
    ensures { Gives (λ x. (x.0, x.1.now)) result (number_at w32 is_page_count bytes.now) }
{
    match u32_in_front(bytes) {
        Some((count, rest)) if count >= 1 && count <= SEGMENT_PAGES => Ok((count, rest)),
        _ => Err(FieldFault::Bad { left: bytes.len() }),
    }
}

/// How many images the head of this object counts.
#[tactic(auto, unfolding(crate::specs::Reading::head_at))]
pub fn head_at(part: Part, bytes: &[u8]) -> Result<(u32, &[u8]), FieldFault>
    ensures { Gives (λ x. (x.0, x.1.now)) result (head_at part.backup part.segment bytes.now) }
{
    let (_, rest) = this_u32_at(MARK, bytes)?;
    let (_, rest) = this_u64_at(part.backup, rest)?;
    let (_, rest) = this_u32_at(part.segment, rest)?;
    count_at(rest)
}

/// The number of a page of this segment, above another.
#[tactic(auto, unfolding(wal_record::specs::Reading::number_at))]
pub fn next_page_at(
    segment: u32,
    above: PageNo,
    bytes: &[u8],
) -> Result<(PageNo, &[u8]), FieldFault>
    ensures { Gives (λ x. (x.0, x.1.now)) result (number_at w32 (is_next_page segment above) bytes.now) }
{
    match u32_in_front(bytes) {
        Some((page, rest)) if is_next_page(segment, above, page) => Ok((page, rest)),
        _ => Err(FieldFault::Bad { left: bytes.len() }),
    }
}

fn is_next_page(segment: u32, above: PageNo, page: PageNo) -> bool
    ensures { result ≡ is_next_page segment above page }
{
    page >= 1 && page <= MOST_PAGES && segment_of(page) == segment && above < page
}
