//! Names of the objects in a vault.

/// What an object of a vault is.
#[derive(Clone, Copy, Debug, PartialEq, Eq)]
pub enum ObjectKind {
    /// A run of the log archive.
    Run,
    /// One segment's pages of a backup.
    Backup,
}

/// The name of an object in a vault.
#[derive(Clone, Copy, Debug, PartialEq, Eq)]
pub struct ObjectName {
    pub kind: ObjectKind,
    /// The number of the run or of the backup.
    pub id: u64,
    /// The segment of a backup; 0 for a run.
    pub part: u32,
}
