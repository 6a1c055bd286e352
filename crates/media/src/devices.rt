//! The devices of one store.

/// The log disk, the data device and the vault of one store.
#[derive(Drop)]
pub struct Devices<L, P, V> {
    pub log: L,
    pub pages: P,
    pub vault: V,
}
