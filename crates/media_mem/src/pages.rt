//! A data device in memory.
ghost use Rattle.std.specs.Prelude.{◌≡◌, ◌≢◌, ◌⊎◌, ◌<◌, ◌≤◌, ◌+◌, ◌^◌, [], ℕ, length, drop, take, Some, None, OnOk, OnErr, slice_set};
ghost use Rattle.media.specs.Cause.{Rose};
ghost use Rattle.media.specs.Images.{FailsVerification};
ghost use Rattle.media_mem.specs.Slots.{IsLost, IsSpoiled, MemPaged, Paged, newest_in};
ghost use Rattle.sha2.specs.Sha256.{sha256};

use crate::faults::Faults;
use media::{Failed, PageBytes, PageDevice};
use sha2::{Digest, Sha256};
use std::alloc::{AllocError, Global};
use std::marker::Model;
use store_model::PageNo;

/// The image of a page, if it was written, and whether it was spoiled since.
#[derive(Drop)]
struct Slot {
    image: Option<Box<PageBytes>>,
    spoiled: bool,
}

impl Model for Slot {
    ghost use Rattle.std.specs.Option.{option_map};
    ghost use Rattle.media_mem.specs.Slots.{Paged};

    ghost Value = { Paged };

    ghost view = { λ s. record { image = option_map (λ b. b.value) s.image; spoiled = s.spoiled } };
}

/// Keeps the newest image of each page. A page that is spoiled, or that was never written, gives bytes whose first one
/// differs from that of their digest.
#[derive(Drop)]
pub struct MemPages {
    alloc: Global,
    slots: Vec<Slot>,
    faults: Faults,
}

impl Model for MemPages {
    ghost use Rattle.media_mem.specs.Slots.{MemPaged};

    ghost Value = { MemPaged };

    ghost view = { λ m. record { slots = m.slots.items; faults = m.faults } };
}

impl MemPages {
    /// No page was written. It fails only for want of memory.
    pub fn new(alloc: Global) -> MemPages
        ensures { result ≡ record { slots = []; faults = 0 } }
    {
        MemPages::failing(alloc, Vec::new(alloc))
    }

    /// No page was written; the calls with these numbers fail.
    pub fn failing(alloc: Global, calls: Vec<u64>) -> MemPages
        ensures { result ≡ record { slots = []; faults = 0 } }
    {
        MemPages {
            alloc,
            slots: Vec::new(alloc),
            faults: Faults::new(calls),
        }
    }

    fn put_image(&mut self, page: PageNo, bytes: &PageBytes) -> Result<(), Failed>
        ensures put { OnOk result (newest_in self.new.slots page ≡ Some bytes.now) }
        ensures others { (p : ℕ) → p ≢ page → newest_in self.new.slots p ≡ newest_in self.old.slots p }
        ensures err { OnErr result (newest_in self.new.slots page ≡ newest_in self.old.slots page) }
        ensures spoiled { (p : ℕ) → p ≢ page → IsSpoiled self.old.slots p → IsSpoiled self.new.slots p }
        ensures later { self.old.faults ≤ self.new.faults }
        ensures rose { OnErr result (Rose self.old.faults self.new.faults) }
    {
        match put_slot(self.alloc, &mut self.slots, page as usize, bytes) {
            Ok(()) => Ok(()),
            Err(_) => Err(self.faults.fail()),
        }
    }
}

/// The page has this image.
fn put_slot(
    alloc: Global,
    slots: &mut Vec<Slot>,
    page: usize,
    bytes: &PageBytes,
) -> Result<(), AllocError>
    requires { page < 2 ^ 32 }
    ensures put { OnOk result (newest_in slots.new.items page ≡ Some bytes.now) }
    ensures others { (p : ℕ) → p ≢ page → newest_in slots.new.items p ≡ newest_in slots.old.items p }
    ensures err { OnErr result (newest_in slots.new.items page ≡ newest_in slots.old.items page) }
    ensures spoiled { (p : ℕ) → p ≢ page → IsSpoiled slots.old.items p → IsSpoiled slots.new.items p }
{
    let image = Box::new(alloc, *bytes)?;
    reach(slots, page)?;
    slots[page] = Slot {
        image: Some(image),
        spoiled: false,
    };
    Ok(())
}

/// There is a slot for the page.
fn reach(slots: &mut Vec<Slot>, page: usize) -> Result<(), AllocError>
    requires { page < 2 ^ 32 }
    ensures there { OnOk result (page < length slots.new.items) }
    ensures newest { (p : ℕ) → newest_in slots.new.items p ≡ newest_in slots.old.items p }
    ensures spoiled { (p : ℕ) → IsSpoiled slots.old.items p → IsSpoiled slots.new.items p }
{
    while slots.len() <= page {
        add_slot(slots)?;
    }
    Ok(())
}

/// One slot more.
fn add_slot(slots: &mut Vec<Slot>) -> Result<(), AllocError>
    ensures more { OnOk result (length slots.new.items ≡ length slots.old.items + 1) }
    ensures err { OnErr result (slots.new.items ≡ slots.old.items) }
    ensures newest { (p : ℕ) → newest_in slots.new.items p ≡ newest_in slots.old.items p }
    ensures spoiled { (p : ℕ) → IsSpoiled slots.old.items p → IsSpoiled slots.new.items p }
{
    slots.push(Slot {
        image: None,
        spoiled: false,
    })?;
    Ok(())
}

/// Gives the newest image of the page, or bytes that fail verification.
fn give(slots: &[Slot], page: usize, out: &mut PageBytes)
    ensures image { (newest_in slots.now page ≡ Some out.new) ⊎ FailsVerification out.new }
    ensures damaged { IsSpoiled slots.now page → FailsVerification out.new }
{
    if page < slots.len() {
        give_slot(&slots[page], out);
    } else {
        damage(out);
    }
}

fn give_slot(slot: &Slot, out: &mut PageBytes)
    ensures image { (slot.now.image ≡ Some out.new) ⊎ FailsVerification out.new }
    ensures damaged { IsLost slot.now → FailsVerification out.new }
{
    match &slot.image {
        Some(image) => {
            *out = **image;
            if slot.spoiled {
                damage(out);
            }
        }
        None => damage(out),
    }
}

/// Its first byte becomes another one than that of the digest.
fn damage(out: &mut PageBytes)
    ensures { FailsVerification out.new }
{
    let (_, body) = out.split_at(32);
    let digest = digest_of(body);
    out[0] = digest[0].wrapping_add(1);
}

fn digest_of(body: &[u8]) -> [u8; 32]
    ensures { result ≡ sha256 body.now }
{
    let mut hasher = Sha256::new();
    hasher.update(body);
    hasher.finalize()
}

/// Reads of the page give no image.
fn spoil_slot(slots: &mut Vec<Slot>, page: usize)
    ensures newest { (p : ℕ) → newest_in slots.new.items p ≡ newest_in slots.old.items p }
    ensures spoiled { IsSpoiled slots.new.items page }
    ensures others { (p : ℕ) → IsSpoiled slots.old.items p → IsSpoiled slots.new.items p }
{
    if page < slots.len() {
        spoil_one(&mut slots[page]);
    }
}

fn spoil_one(slot: &mut Slot)
    ensures image { slot.new.image ≡ slot.old.image }
    ensures lost { IsLost slot.new }
{
    slot.spoiled = true;
}

impl PageDevice for MemPages {
    ghost use Rattle.std.specs.Prelude.{◌≡◌, None, Some};
    ghost use Rattle.media_mem.specs.Slots.{IsSpoiled, newest_in};

    ghost tells = { Unit {0} };

    ghost told = { λ m p image. newest_in m.slots p ≡ Some image };

    ghost newest = { λ m p. newest_in m.slots p };

    ghost spoiled = { λ m p. IsSpoiled m.slots p };

    ghost faults = { λ m. m.faults };

    ghost own = { λ m. m.faults };

    ghost refused = { λ m. 0 };

    ghost passes = { λ m. None };

    ghost fuses = { ⊥ };

    ghost newest_told = { λ m p image is. is };

    fn read(&mut self, page: PageNo, out: &mut PageBytes) -> Result<(), Failed> {
        self.faults.call()?;
        give(&self.slots, page as usize, out);
        Ok(())
    }

    fn write(&mut self, page: PageNo, bytes: &PageBytes) -> Result<(), Failed> {
        self.faults.call()?;
        self.put_image(page, bytes)
    }

    fn replace(&mut self) -> Result<(), Failed> {
        self.faults.call()?;
        self.slots.clear();
        Ok(())
    }

    fn spoil(&mut self, page: PageNo) -> Result<(), Failed> {
        spoil_slot(&mut self.slots, page as usize);
        Ok(())
    }

    fn fuse(&mut self, _n: Option<u64>) {}

    fn refused(&self) -> u64 {
        0
    }

    fn faults(&self) -> u64 {
        self.faults.count()
    }
}
