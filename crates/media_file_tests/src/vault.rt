//! The vault.
use crate::folders::made;
use crate::watched::{Watch, Watched};
use media::Vault;
use media_file::{FileVault, Folder};
use std::alloc::Global;
use std::rt::Files;
use std::test::Fail;
use std::{fs, io};
use store_model::{ObjectKind, ObjectName};

const RUN: ObjectName = ObjectName {
    kind: ObjectKind::Run,
    id: 3,
    part: 0,
};

const BACKUP: ObjectName = ObjectName {
    kind: ObjectKind::Backup,
    id: 3,
    part: 2,
};

/// A call of a vault that has to pass, or to fail, or what the vault has to give.
#[derive(Clone, Copy)]
enum Step<'a> {
    Put(ObjectName, &'a [u8]),
    Fails(ObjectName, &'a [u8]),
    Sync,
    /// The bytes of an object from an offset on, five of them at most.
    Has(ObjectName, u64, &'a [u8]),
    /// How many calls have failed.
    Faults(u64),
}

/// Whether an object has these bytes from an offset on.
fn has<V: Vault>(vault: &mut V, name: ObjectName, from: u64, bytes: &[u8]) -> bool {
    let mut out = [0; 5];
    match vault.get(name, from, &mut out) {
        Ok(count) => out.get(..count) == Some(bytes),
        Err(_) => false,
    }
}

/// Whether a step comes out so.
fn is_right<V: Vault>(vault: &mut V, step: Step<'_>) -> bool {
    match step {
        Step::Put(name, bytes) => vault.put(name, bytes).is_ok(),
        Step::Fails(name, bytes) => vault.put(name, bytes).is_err(),
        Step::Sync => vault.sync().is_ok(),
        Step::Has(name, from, bytes) => has(vault, name, from, bytes),
        Step::Faults(count) => vault.faults() == count,
    }
}

/// Opens the vault of a folder and makes these steps. Whether each comes out so.
fn are_right<R: Files>(folder: &Folder<'_, R>, steps: &[Step<'_>]) -> bool {
    match FileVault::open(folder) {
        Ok(mut vault) => steps.iter().all(|step| is_right(&mut vault, *step)),
        Err(_) => false,
    }
}

#[test]
fn objects_are_replaced_as_a_whole(rt: HostRuntime) -> Result<(), Fail> {
    made(&rt, "media_file_tests_vault")?;
    let folder = Folder::new(&rt, rt.alloc(), "media_file_tests_vault")?;
    let puts = [
        Step::Has(RUN, 0, b""),
        Step::Put(RUN, b"a long object"),
        Step::Put(BACKUP, b"another"),
        Step::Put(RUN, b"short"),
        Step::Sync,
    ];
    assert!(rt; are_right(&folder, &puts));
    let gets = [Step::Has(RUN, 2, b"ort"), Step::Has(BACKUP, 0, b"anoth")];
    assert!(rt; are_right(&folder, &gets));
    assert!(rt; fs::exists(&rt, "media_file_tests_vault/vault/bak-3-2").unwrap_or(false));
    fs::remove_dir_all(&rt, "media_file_tests_vault")?;
    Ok(())
}

/// Opens the vault of a folder, puts the run and syncs. How often files and folders were synced behind each.
fn syncs_of<R: Files>(folder: &Folder<'_, R>, watch: &Watch) -> Option<[(u64, u64); 3]> {
    let mut vault = FileVault::open(folder).ok()?;
    let opened = watch.syncs();
    vault.put(RUN, b"whole").ok()?;
    let put = watch.syncs();
    vault.sync().ok()?;
    Some([opened, put, watch.syncs()])
}

/// Behind a put that fails for want of room the object is as before.
fn is_kept<R: Files>(folder: &Folder<'_, R>, watch: &Watch) -> bool {
    watch.room.set(3);
    let steps = [
        Step::Fails(RUN, b"other"),
        Step::Faults(1),
        Step::Has(RUN, 0, b"whole"),
    ];
    are_right(folder, &steps)
}

/// The folder of the vault is new at first.
#[test]
fn an_object_is_durable_before_it_has_its_name(rt: HostRuntime) -> Result<(), Fail> {
    let watch = Watch::new();
    let files = Watched {
        rt: &rt,
        watch: &watch,
    };
    made(&rt, "media_file_tests_objects")?;
    let folder = Folder::new(&files, rt.alloc(), "media_file_tests_objects")?;
    assert!(rt; syncs_of(&folder, &watch) == Some([(0, 1), (1, 1), (1, 2)]));
    assert!(rt; is_kept(&folder, &watch));
    fs::remove_dir_all(&rt, "media_file_tests_objects")?;
    Ok(())
}

/// Puts files of others beside the objects.
fn put_strays(rt: &HostRuntime, alloc: Global, path: &str) -> io::Result<()> {
    for stray in ["notes", "run-", "run-x", "bak-1", "bak-1-2-3", "run-3.new"] {
        let name = format!(in alloc; "{path}/vault/{stray}")?;
        fs::write(rt, name.as_str(), b"stray".as_slice())?;
    }
    Ok(())
}

/// Whether the vault of the folder has the run alone.
fn has_the_run<R: Files + AllocGlobal + Clone + Drop>(folder: &Folder<'_, R>) -> bool {
    match FileVault::open(folder).and_then(|vault| vault.objects()) {
        Ok(objects) => objects.as_slice() == [RUN].as_slice(),
        Err(_) => false,
    }
}

#[test]
fn files_of_others_are_no_objects(rt: HostRuntime) -> Result<(), Fail> {
    made(&rt, "media_file_tests_strays")?;
    let folder = Folder::new(&rt, rt.alloc(), "media_file_tests_strays")?;
    assert!(rt; are_right(&folder, &[Step::Put(RUN, b"whole")]));
    put_strays(&rt, rt.alloc(), "media_file_tests_strays")?;
    assert!(rt; has_the_run(&folder));
    fs::remove_dir_all(&rt, "media_file_tests_strays")?;
    Ok(())
}
