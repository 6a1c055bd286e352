//! The lines of words that aren't requests.
use script::{Device, Name};
use std::str;
use std::test::Fail;
use transcript::{
    Stat, Upkeep, abort_ended, abort_failed, abort_line, archive_ended, archive_failed,
    archive_line, begin_refused, commit_ended, commit_failed, damage_line, fuse_line, renew_line,
    stat_ended, stat_failed, stat_line, upkeep_ended, upkeep_failed, upkeep_line,
};

/// These bytes, if they are text.
fn text_of(bytes: &[u8]) -> &str {
    str::from_utf8(bytes).unwrap_or("?")
}

#[test]
fn transactions(rt: HostRuntime) -> Result<(), Fail> {
    let alloc = rt.alloc();
    let name = Name::new(b"T".as_slice()).ok_or("a name")?;
    assert_eq!(rt; text_of(&begin_refused(alloc, &name)?), "T begin refused\n");
    assert_eq!(rt; text_of(&abort_line(alloc, &name)?), "T abort\n");
    let failed = abort_failed(alloc, &name, Device::Log)?;
    assert_eq!(rt; text_of(&failed), "T abort log failed\n");
    let failed = abort_failed(alloc, &name, Device::Vault)?;
    assert_eq!(rt; text_of(&failed), "T abort vault failed\n");
    assert_eq!(rt;
        text_of(&abort_ended(alloc, &name, 12)?),
        "T abort ended 12\n"
    );
    assert_eq!(rt;
        text_of(&commit_failed(alloc, &name)?),
        "T commit log failed\n"
    );
    assert_eq!(rt;
        text_of(&commit_ended(alloc, &name, 12)?),
        "T commit ended 12\n"
    );
    Ok(())
}

#[test]
fn words_answered_by_ok(rt: HostRuntime) -> Result<(), Fail> {
    let alloc = rt.alloc();
    for (word, ok, failed, ended) in [
        (
            Upkeep::Checkpoint,
            "checkpoint ok\n",
            "checkpoint log failed\n",
            "checkpoint ended 1\n",
        ),
        (
            Upkeep::Backup,
            "backup ok\n",
            "backup log failed\n",
            "backup ended 1\n",
        ),
        (
            Upkeep::Lose,
            "lose ok\n",
            "lose log failed\n",
            "lose ended 1\n",
        ),
        (
            Upkeep::Help,
            "help ok\n",
            "help log failed\n",
            "help ended 1\n",
        ),
        (
            Upkeep::Close,
            "close ok\n",
            "close log failed\n",
            "close ended 1\n",
        ),
    ] {
        assert_eq!(rt; text_of(&upkeep_line(alloc, word)?), ok);
        assert_eq!(rt; text_of(&upkeep_failed(alloc, word, Device::Log)?), failed);
        assert_eq!(rt; text_of(&upkeep_ended(alloc, word, 1)?), ended);
    }
    let vault = upkeep_failed(alloc, Upkeep::Help, Device::Vault)?;
    assert_eq!(rt; text_of(&vault), "help vault failed\n");
    Ok(())
}

#[test]
fn faults_that_a_script_asks_for(rt: HostRuntime) -> Result<(), Fail> {
    let alloc = rt.alloc();
    for (device, fuse, renew) in [
        (Device::Log, "fuse log 3\n", "renew log\n"),
        (Device::Data, "fuse data 3\n", "renew data\n"),
        (Device::Vault, "fuse vault 3\n", "renew vault\n"),
    ] {
        assert_eq!(rt; text_of(&fuse_line(alloc, device, 3)?), fuse);
        assert_eq!(rt; text_of(&renew_line(alloc, device)?), renew);
    }
    assert_eq!(rt; text_of(&damage_line(alloc, 16384)?), "damage 16384\n");
    Ok(())
}

#[test]
fn an_archive_tells_its_runs(rt: HostRuntime) -> Result<(), Fail> {
    let alloc = rt.alloc();
    assert_eq!(rt; text_of(&archive_line(alloc, 0)?), "archive runs=0\n");
    assert_eq!(rt; text_of(&archive_line(alloc, 12)?), "archive runs=12\n");
    let failed = archive_failed(alloc, Device::Vault)?;
    assert_eq!(rt; text_of(&failed), "archive vault failed\n");
    assert_eq!(rt; text_of(&archive_ended(alloc, 7)?), "archive ended 7\n");
    Ok(())
}

#[test]
fn a_stat_has_seven_numbers(rt: HostRuntime) -> Result<(), Fail> {
    let alloc = rt.alloc();
    let stat = Stat {
        commits: 1,
        losers: 2,
        undone: 0,
        repaired: 3,
        pages: 16384,
        lost: 5,
        restored: 4,
    };
    let expected = "stat commits=1 losers=2 undone=0 repaired=3 pages=16384 lost=5 restored=4\n";
    assert_eq!(rt; text_of(&stat_line(alloc, &stat)?), expected);
    assert_eq!(rt;
        text_of(&stat_failed(alloc, Device::Log)?),
        "stat log failed\n"
    );
    let last = u64::MAX;
    assert_eq!(rt;
        text_of(&stat_ended(alloc, last)?),
        "stat ended 18446744073709551615\n"
    );
    Ok(())
}
