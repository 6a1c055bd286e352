//! What stands in a table of logs for bytes, and a listing as a text.
use log_index::Listing;
use std::alloc::Global;

/// Adds what a word stands for: `8.7` for the number 7 in eight bytes, and so on; other words are hexadecimal.
pub fn add_word(alloc: Global, word: &str, out: &mut Vec<u8>) -> Option<()> {
    match word.split_once('.') {
        None => out.extend_from_slice(&hex::decode(alloc, word).ok()?).ok(),
        Some((width, number)) => {
            let bytes = number.parse::<u64>().ok()?.to_be_bytes();
            let from = 8_usize.checked_sub(width.parse::<usize>().ok()?)?;
            out.extend_from_slice(bytes.get(from..)?).ok()
        }
    }
}

/// The last LSN, that of page 1's head, the limit, and whether the transactions 1 and 2 are losers.
pub fn text_of(alloc: Global, listing: &Listing) -> Option<String> {
    format!(in alloc;
        "{} {} {} {} {}",
        listing.last(),
        listing.head(1),
        listing.limit(),
        listing.is_loser(1),
        listing.is_loser(2)
    )
    .ok()
}
