//! What came of a foster child.

/// What came of a foster child that its parent might take.
#[derive(Drop)]
pub enum Adoption {
    /// The parent has a row for it now, and the foster parent has it no more.
    Adopted,
    /// There is none.
    NothingToAdopt,
    /// The parent has so many free bytes, and the row needs so many, which is more.
    NoRoom { free: u32, needed: u32 },
}
