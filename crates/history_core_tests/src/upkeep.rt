//! Checkpoints, images written, backups, archive runs, and a loss with its restore.
use crate::audit::History;

/// A Checkpoint lists the open write of transaction 1, which then commits. It is lawful before the write too, and the write
/// is then the third record.
pub const A_CHECKPOINT: History<'static> = History {
    opening: "record 1 Format limit=8",
    entries: "\
began session=0 tx=1 | 0 | 0
lock tx=1 mode=exclusive key=x | 1 | 1
record 2 Write tx=1 prev=0 page=1 page_prev=1 key=x old none new=5 | 2 | 2
put session=0 tx=1 key=x new=5 was none | 3 | 3
record 3 Checkpoint next_tx=2 head=2 open=2 | 4 | 4
record 4 Commit tx=1 prev=2 | 5 | 5
acked session=0 tx=1 | last",
    changes: "\
record 3 Checkpoint next_tx=3 head=2 open=2 | 4 | 4
record 3 Checkpoint next_tx=2 head=1 open=2 | 4 | 4
record 3 Checkpoint next_tx=2 head=2 | 4 | 4
record 2 Checkpoint next_tx=2 head=1 | 1 | 1
record 2 Checkpoint next_tx=1 head=1 | 1 | 2",
};

/// Page 1 is written, repaired and backed up, records are archived, and the device is lost and restored. Changed are an image
/// and a page that aren't there; another backup, segment and image; runs with a gap, that end at themselves, that have half
/// of another one, and with a number that was given; a backup that the segment has.
pub const UPKEEP: History<'static> = History {
    opening: "record 1 Format limit=8",
    entries: "\
record 2 Written page=1 lsn=1 | 0 | 0
repaired page=1 | told | apart
record 3 BackupDone backup=1 segment=0 page=1 lsn=1 | 2 | 2
record 4 RunDone run=1 first=1 last=2 | 3 | 3
record 5 RunDone run=2 first=3 last=4 | 4 | 4
record 6 RunDone run=3 first=1 last=4 | 5 | 5
record 7 Lost pages=1 | 6 | 6
record 8 Restored segment=0 | last",
    changes: "\
record 2 Written page=1 lsn=2 | 0 | 0
repaired page=2 | 1 | 1
record 3 BackupDone backup=2 segment=0 page=1 lsn=1 | 2 | 2
record 3 BackupDone backup=1 segment=1 page=1 lsn=1 | 2 | 2
record 3 BackupDone backup=1 segment=0 page=1 lsn=2 | 2 | 2
record 4 RunDone run=1 first=2 last=2 | 3 | 3
record 4 RunDone run=1 first=1 last=4 | 3 | 3
record 6 RunDone run=3 first=2 last=4 | 5 | 5
record 6 RunDone run=2 first=1 last=4 | 5 | 5
record 6 BackupDone backup=1 segment=0 page=1 lsn=1 | 5 | 5
record 7 Lost pages=2 | 6 | 6
record 7 Restored segment=0 | 6 | 6
record 8 Restored segment=1 | 7 | 7
repaired page=1 | 7 | 7",
};
