//! The log disk.
use crate::folders::{log_of, made};
use crate::watched::{Watch, Watched};
use media::{Disk, Failed};
use media_file::{FileDisk, Folder};
use std::alloc::{AllocError, Global};
use std::fs;
use std::rt::Files;
use std::test::Fail;

/// How many bytes a chunk file has.
const CHUNK: u64 = 1 << 20;

/// A call of a disk that has to pass, or what the disk or its folder has to give.
#[derive(Clone, Copy)]
enum Step<'a> {
    Write(u64, &'a [u8]),
    Sync,
    Discard(u64),
    /// The four bytes from an offset on.
    Four(u64, [u8; 4]),
    /// Where its bytes begin and end.
    Spans(u64, u64),
    /// A file is put beside.
    PutFile(&'a str, &'a [u8]),
    /// There is no such file.
    NoFile(&'a str),
}

/// Writes where the disk has bytes, or ends.
fn write<R: Files>(disk: &mut FileDisk<'_, R>, at: u64, bytes: &[u8]) -> Result<(), Failed> {
    if disk.start() > at || at > disk.len() || at > CHUNK * 16 || bytes.len() > 1 << 22 {
        return Err(Failed);
    }
    disk.write_at(at, bytes)
}

/// The four bytes from an offset on.
fn four<R: Files>(disk: &mut FileDisk<'_, R>, at: u64) -> Result<[u8; 4], Failed> {
    let mut bytes = [0; 4];
    if disk.start() > at {
        return Err(Failed);
    }
    disk.read_at(at, &mut bytes)?;
    Ok(bytes)
}

/// Forgets what lies before an offset that the disk has.
fn discard<R: Files>(disk: &mut FileDisk<'_, R>, upto: u64) -> Result<(), Failed> {
    if disk.start() > upto || upto > disk.len() {
        return Err(Failed);
    }
    disk.discard(upto)
}

/// Whether a step comes out so.
fn is_right<R: Files>(rt: &R, disk: &mut FileDisk<'_, R>, step: Step<'_>) -> bool {
    match step {
        Step::Write(at, bytes) => write(disk, at, bytes).is_ok(),
        Step::Sync => disk.sync().is_ok(),
        Step::Discard(upto) => discard(disk, upto).is_ok(),
        Step::Four(at, bytes) => four(disk, at) == Ok(bytes),
        Step::Spans(start, end) => disk.start() == start && disk.len() == end,
        Step::PutFile(path, bytes) => fs::write(rt, path, bytes).is_ok(),
        Step::NoFile(path) => !fs::exists(rt, path).unwrap_or(true),
    }
}

/// Opens the log of a folder and makes these steps. Whether each comes out so.
fn are_right<R: Files>(rt: &R, folder: &Folder<'_, R>, steps: &[Step<'_>]) -> bool {
    match log_of(folder) {
        Some(mut disk) => steps.iter().all(|step| is_right(rt, &mut disk, *step)),
        None => false,
    }
}

/// The same in a new folder, with an opening for each list of steps.
fn holds(rt: &HostRuntime, path: &str, openings: &[&[Step<'_>]]) -> Result<bool, Fail> {
    made(rt, path)?;
    let folder = Folder::new(rt, rt.alloc(), path)?;
    let right = openings.iter().all(|steps| are_right(rt, &folder, steps));
    fs::remove_dir_all(rt, path)?;
    Ok(right)
}

/// So many bytes, which count up to 250 and on from 0.
fn counting(alloc: Global, length: u64) -> Result<Vec<u8>, AllocError> {
    let mut bytes = Vec::new(alloc);
    for i in 0..length {
        bytes.push((i % 251) as u8)?;
    }
    Ok(bytes)
}

#[test]
fn a_log_goes_on_over_chunks_and_openings(rt: HostRuntime) -> Result<(), Fail> {
    let long = counting(rt.alloc(), CHUNK + 3)?;
    let writes = [
        Step::Spans(0, 0),
        Step::Write(0, &long),
        Step::Write(CHUNK - 2, b"abcde"),
        Step::Sync,
        Step::Spans(0, CHUNK + 3),
    ];
    let reads = [
        Step::Spans(0, CHUNK + 3),
        Step::Four(CHUNK - 2, *b"abcd"),
        Step::Four(251, [0, 1, 2, 3]),
        Step::Discard(CHUNK + 1),
        Step::NoFile("media_file_tests_log/log-0"),
    ];
    let more = [
        Step::Spans(CHUNK + 1, CHUNK + 3),
        Step::Write(CHUNK + 3, b"fg"),
        Step::Four(CHUNK + 1, *b"defg"),
    ];
    let right = holds(&rt, "media_file_tests_log", &[&writes, &reads, &more])?;
    assert!(rt; right);
    Ok(())
}

#[test]
fn a_chunk_that_was_cut_ends_the_log_and_what_lies_behind_goes(
    rt: HostRuntime,
) -> Result<(), Fail> {
    let rest = counting(rt.alloc(), CHUNK - 2)?;
    let cut = [
        Step::Write(0, b"ab"),
        Step::PutFile("media_file_tests_cut/log-1", b"stray"),
    ];
    let more = [
        Step::Spans(0, 2),
        Step::Write(2, &rest),
        Step::Write(CHUNK, b"c"),
    ];
    let last = [Step::Spans(0, CHUNK + 1)];
    let right = holds(&rt, "media_file_tests_cut", &[&cut, &more, &last])?;
    assert!(rt; right);
    Ok(())
}

#[test]
fn a_start_that_is_no_number_is_no_log(rt: HostRuntime) -> Result<(), Fail> {
    let steps = [Step::PutFile("media_file_tests_start/log.start", b"1x")];
    let opens = holds(&rt, "media_file_tests_start", &[&steps, &[]])?;
    assert!(rt; !opens);
    Ok(())
}

/// Opens the log of a folder that is watched and makes these steps. Whether each comes out so, and files and folders were
/// synced so often behind it.
fn syncs<R: Files>(
    rt: &R,
    folder: &Folder<'_, R>,
    watch: &Watch,
    steps: &[(Step<'_>, u64, u64)],
) -> bool {
    match log_of(folder) {
        Some(mut disk) => steps.iter().all(|(step, files, folders)| {
            is_right(rt, &mut disk, *step) && watch.syncs() == (*files, *folders)
        }),
        None => false,
    }
}

/// The chunk is new at first, so the folder is synced too. The start is durable at once.
#[test]
fn a_sync_syncs_what_was_written_and_a_new_name_once(rt: HostRuntime) -> Result<(), Fail> {
    let steps = [
        (Step::Write(0, b"abc"), 0, 0),
        (Step::Sync, 1, 1),
        (Step::Write(3, b"de"), 1, 1),
        (Step::Sync, 2, 1),
        (Step::Sync, 2, 1),
        (Step::Discard(2), 3, 2),
    ];
    let watch = Watch::new();
    let files = Watched {
        rt: &rt,
        watch: &watch,
    };
    made(&rt, "media_file_tests_syncs")?;
    let folder = Folder::new(&files, rt.alloc(), "media_file_tests_syncs")?;
    assert!(rt; syncs(&files, &folder, &watch, &steps));
    fs::remove_dir_all(&rt, "media_file_tests_syncs")?;
    Ok(())
}

/// A file takes 1,000 bytes at a time.
#[test]
fn short_writes_are_gone_on_with(rt: HostRuntime) -> Result<(), Fail> {
    let bytes = counting(rt.alloc(), 3500)?;
    let steps = [
        (Step::Write(0, &bytes), 0, 0),
        (Step::Spans(0, 3500), 0, 0),
        (Step::Four(3263, [0, 1, 2, 3]), 0, 0),
    ];
    let watch = Watch::new();
    let files = Watched {
        rt: &rt,
        watch: &watch,
    };
    made(&rt, "media_file_tests_short")?;
    let folder = Folder::new(&files, rt.alloc(), "media_file_tests_short")?;
    assert!(rt; syncs(&files, &folder, &watch, &steps));
    fs::remove_dir_all(&rt, "media_file_tests_short")?;
    Ok(())
}

/// Writes where there is room for two bytes alone, and again where there is more. The count of faults behind each, the
/// length behind the first, and the bytes behind the second.
fn written_twice<R: Files>(
    disk: &mut FileDisk<'_, R>,
    watch: &Watch,
) -> Result<(u64, u64, [u8; 4], u64), Failed> {
    write(disk, 0, b"ab")?;
    watch.room.set(2);
    let _outcome = write(disk, 2, b"cdef");
    let (faults, len) = (disk.faults(), disk.len());
    watch.room.set(100);
    write(disk, 2, b"ghij")?;
    Ok((faults, len, four(disk, 1)?, disk.faults()))
}

#[test]
fn a_write_without_room_fails_and_is_counted(rt: HostRuntime) -> Result<(), Fail> {
    let watch = Watch::new();
    let files = Watched {
        rt: &rt,
        watch: &watch,
    };
    made(&rt, "media_file_tests_full")?;
    let mut disk = FileDisk::open(Folder::new(&files, rt.alloc(), "media_file_tests_full")?)?;
    let seen = written_twice(&mut disk, &watch);
    assert!(rt; seen == Ok((1, 2, *b"bghi", 1)));
    fs::remove_dir_all(&rt, "media_file_tests_full")?;
    Ok(())
}
