//! A vault in memory.
ghost use Rattle.std.specs.Prelude.{◌≡◌, ◌-◌, ◌<◌, ◌≤◌, ◌++◌, min, ◌∷◌, [], length, take, drop, map, MatchOption, OnOk, OnErr, slice_set};
ghost use Rattle.media.specs.Cause.{Rose};
ghost use Rattle.media.specs.Objects.{bytes_of};
ghost use Rattle.media_mem.specs.Shelf.{Held, MemHeld, HasNone, IsFirst, left_object, same_name, stands_for, stored, synced_object};
ghost use Rattle.media_mem.specs.declared.vault.State.TheVariants as states;

use crate::copy::copy_out;
use crate::faults::Faults;
use media::{Failed, Vault};
use std::alloc::{AllocError, Global};
use std::marker::Model;
use store_model::ObjectName;

/// Whether an object is there, and synced.
#[derive(Clone, Copy)]
pub enum State {
    Absent,
    Unsynced,
    Synced,
}

/// An object, or the place of one that is gone.
#[derive(Drop)]
struct Object {
    name: ObjectName,
    bytes: Vec<u8>,
    state: State,
}

impl Model for Object {
    ghost use Rattle.media_mem.specs.Shelf.{Held};

    ghost Value = { Held };

    ghost view = { λ o. record { name = o.name; bytes = o.bytes.items; state = o.state } };
}

/// Keeps its objects in memory. An unsynced one is absent after a power cycle.
#[derive(Drop)]
pub struct MemVault {
    alloc: Global,
    objects: Vec<Object>,
    faults: Faults,
}

impl Model for MemVault {
    ghost use Rattle.media_mem.specs.Shelf.{MemHeld};

    ghost Value = { MemHeld };

    ghost view = { λ v. record { objects = v.objects.items; faults = v.faults } };
}

impl MemVault {
    /// No objects. It fails only for want of memory.
    pub fn new(alloc: Global) -> MemVault
        ensures { result ≡ record { objects = []; faults = 0 } }
    {
        MemVault::failing(alloc, Vec::new(alloc))
    }

    /// No objects; the calls with these numbers fail.
    pub fn failing(alloc: Global, calls: Vec<u64>) -> MemVault
        ensures { result ≡ record { objects = []; faults = 0 } }
    {
        MemVault {
            alloc,
            objects: Vec::new(alloc),
            faults: Faults::new(calls),
        }
    }
}

fn is_same(a: &ObjectName, b: &ObjectName) -> bool
    ensures { result ≡ same_name a.now b.now }
{
    a == b
}

/// Where the first object with this name stands.
fn find(objects: &[Object], name: &ObjectName) -> Option<usize>
    ensures { MatchOption result (HasNone name.now objects.now) (λ i. (i < length objects.now) × IsFirst name.now i objects.now) }
{
    for (i, object) in objects.iter().enumerate() {
        if is_same(&object.name, name) {
            return Some(i);
        }
    }
    None
}

/// Puts an unsynced object in the place of the first with this name, or at the end.
fn place(objects: &mut Vec<Object>, name: ObjectName, bytes: Vec<u8>) -> Result<(), AllocError>
    ensures ok { OnOk result (stored objects.new.items name ≡ stands_for states.Unsynced bytes.items) }
    ensures err { OnErr result (objects.new.items ≡ objects.old.items) }
    ensures others { (other : _) → (other ≡ name → ⊥) → stored objects.new.items other ≡ stored objects.old.items other }
{
    let object = Object {
        name,
        bytes,
        state: State::Unsynced,
    };
    match find(objects, &name) {
        Some(i) => {
            objects[i] = object;
            Ok(())
        }
        None => {
            objects.push(object)?;
            Ok(())
        }
    }
}

/// Moves the object's bytes from an offset on into `buf`.
fn read_object(objects: &[Object], name: &ObjectName, from: u64, buf: &mut [u8]) -> usize
    ensures count { result ≡ min (length buf.old) (length (bytes_of (stored objects.now name.now)) - from) }
    ensures bytes { buf.new ≡ take result (drop from (bytes_of (stored objects.now name.now))) ++ drop result buf.old }
{
    match find(objects, name) {
        Some(i) => copy_kept(&objects[i], from, buf),
        None => 0,
    }
}

/// Moves the object's bytes from an offset on into `buf`; none where it is gone.
fn copy_kept(object: &Object, from: u64, buf: &mut [u8]) -> usize
    ensures count { result ≡ min (length buf.old) (length (bytes_of (stands_for object.now.state object.now.bytes)) - from) }
    ensures bytes { buf.new ≡ take result (drop from (bytes_of (stands_for object.now.state object.now.bytes))) ++ drop result buf.old }
{
    match object.state {
        State::Absent => 0,
        State::Unsynced => copy_out(&object.bytes, from as usize, buf),
        State::Synced => copy_out(&object.bytes, from as usize, buf),
    }
}

fn sync_one(object: &mut Object)
    ensures { object.new ≡ synced_object object.old }
{
    object.state = match object.state {
        State::Absent => State::Absent,
        State::Unsynced => State::Synced,
        State::Synced => State::Synced,
    };
}

fn leave_one(object: &mut Object)
    ensures { object.new ≡ left_object object.old }
{
    object.state = match object.state {
        State::Absent => State::Absent,
        State::Unsynced => State::Absent,
        State::Synced => State::Synced,
    };
}

fn sync_all(objects: &mut Vec<Object>)
    ensures { objects.new.items ≡ map synced_object objects.old.items }
{
    for object in objects.iter_mut() {
        sync_one(object);
    }
}

fn leave_all(objects: &mut Vec<Object>)
    ensures { objects.new.items ≡ map left_object objects.old.items }
{
    for object in objects.iter_mut() {
        leave_one(object);
    }
}

impl MemVault {
    fn hold(&mut self, name: ObjectName, bytes: &[u8]) -> Result<(), Failed>
        ensures put { OnOk result (stored self.new.objects name ≡ stands_for states.Unsynced bytes.now) }
        ensures same { OnErr result (self.new.objects ≡ self.old.objects) }
        ensures others { (other : _) → (other ≡ name → ⊥) → stored self.new.objects other ≡ stored self.old.objects other }
        ensures later { self.old.faults ≤ self.new.faults }
        ensures rose { OnErr result (Rose self.old.faults self.new.faults) }
    {
        let copy = match bytes.to_vec(self.alloc) {
            Ok(copy) => copy,
            Err(_) => return Err(self.faults.fail()),
        };
        match place(&mut self.objects, name, copy) {
            Ok(()) => Ok(()),
            Err(_) => Err(self.faults.fail()),
        }
    }
}

impl Vault for MemVault {
    ghost use Rattle.std.specs.Prelude.{None};
    ghost use Rattle.media_mem.specs.Shelf.{stored};

    ghost tells = { Unit {0} };

    ghost told = { λ v name. stored v.objects name };

    ghost faults = { λ v. v.faults };

    ghost own = { λ v. v.faults };

    ghost refused = { λ v. 0 };

    ghost passes = { λ v. None };

    ghost fuses = { ⊥ };

    fn put(&mut self, name: ObjectName, bytes: &[u8]) -> Result<(), Failed> {
        self.faults.call()?;
        self.hold(name, bytes)
    }

    fn sync(&mut self) -> Result<(), Failed> {
        self.faults.call()?;
        sync_all(&mut self.objects);
        Ok(())
    }

    fn get(&mut self, name: ObjectName, from: u64, buf: &mut [u8]) -> Result<usize, Failed> {
        self.faults.call()?;
        Ok(read_object(&self.objects, &name, from, buf))
    }

    fn power_cycle(&mut self) {
        leave_all(&mut self.objects);
    }

    fn fuse(&mut self, _n: Option<u64>) {}

    fn refused(&self) -> u64 {
        0
    }

    fn faults(&self) -> u64 {
        self.faults.count()
    }
}
