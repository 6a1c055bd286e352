//! Backups of all pages, and runs of the log, in the vault.

use media::Devices;
use media_mem::{MemDisk, MemPages, MemVault};
use runner::Status;
use script_runs::{Case, run_devices, try_cases};
use std::test::Fail;

/// Backups and runs of a store of one page.
const STORED: [Case; 9] = [
    // Each backup has a number of its own, and none of them is a transaction.
    Case {
        script: "format\nopen\nbegin A\nput A x 1\nbackup\nput A x 2\nbackup\ncommit A\nstat\n",
        printed: "format ok\nopen commits=0 losers=0\nA begin\nA put x was none\nbackup ok\nA put x was = 1\n\
            backup ok\nA commit 1\nstat commits=1 losers=0 undone=0 repaired=0 pages=1 lost=0 restored=0\n",
    },
    // The record that names a run waits for the next one.
    Case {
        script: "format\nopen\nbegin A\nput A x 1\ncommit A\narchive\narchive\n",
        printed: "format ok\nopen commits=0 losers=0\nA begin\nA put x was none\nA commit 1\narchive runs=1\n\
            archive runs=1\n",
    },
    // A page that is damaged comes from its backup, and from the records behind that.
    Case {
        script: "format\nopen\nbegin A\nput A x 1\ncommit A\nbackup\nbegin B\nput B y 2\ncommit B\nclose\n\
            damage 1\nopen\nbegin C\nget C x\nget C y\nstat\n",
        printed: "format ok\nopen commits=0 losers=0\nA begin\nA put x was none\nA commit 1\nbackup ok\n\
            B begin\nB put y was none\nB commit 2\nclose ok\ndamage 1\nopen commits=2 losers=0\nC begin\n\
            C get x = 1\nC get y = 2\nstat commits=2 losers=0 undone=0 repaired=1 pages=1 lost=0 restored=0\n",
    },
    // What a stop leaves has the backup, and the next life reads it.
    Case {
        script: "format\nopen\nbegin A\nput A x 1\ncommit A\nbackup\narchive\nstop\nopen\nlose\nbegin B\n\
            get B x\nput B x 3\ncommit B\nbackup\nstop\nopen\nlose\nbegin C\nget C x\nstat\n",
        printed: "format ok\nopen commits=0 losers=0\nA begin\nA put x was none\nA commit 1\nbackup ok\n\
            archive runs=1\nstop\nopen commits=1 losers=0\nlose ok\nB begin\nB get x = 1\nB put x was = 1\n\
            B commit 2\nbackup ok\nstop\nopen commits=2 losers=0\nlose ok\nC begin\nC get x = 3\n\
            stat commits=2 losers=0 undone=0 repaired=0 pages=1 lost=1 restored=1\n",
    },
    // What isn't committed is in a backup, too, and is undone behind it.
    Case {
        script: "format\nopen\nbegin A\nput A x 1\nbackup\nstop\nopen\nlose\nbegin B\nget B x\nstat\n",
        printed: "format ok\nopen commits=0 losers=0\nA begin\nA put x was none\nbackup ok\nstop\n\
            open commits=0 losers=1\nlose ok\nB begin\nB get x none\n\
            stat commits=0 losers=0 undone=1 repaired=0 pages=1 lost=1 restored=1\n",
    },
    // The log fails as the backup is named: that ends the life, and the next one makes another.
    Case {
        script: "format\nopen\nbegin A\nput A x 1\ncommit A\nfuse log 0\nbackup\nbackup\nstop\nopen\n\
            backup\n",
        printed: "format ok\nopen commits=0 losers=0\nA begin\nA put x was none\nA commit 1\nfuse log 0\n\
            backup log failed\nbackup ended 3\nstop\nopen commits=1 losers=0\nbackup ok\n",
    },
    // So of a run.
    Case {
        script: "format\nopen\nbegin A\nput A x 1\ncommit A\nfuse log 0\narchive\narchive\nstop\nopen\n\
            archive\n",
        printed: "format ok\nopen commits=0 losers=0\nA begin\nA put x was none\nA commit 1\nfuse log 0\n\
            archive log failed\narchive ended 3\nstop\nopen commits=1 losers=0\narchive runs=1\n",
    },
    // A repair begins from the last backup, whatever was lost and restored since.
    Case {
        script: "format\nopen\nbegin A\nput A x 1\ncommit A\nbackup\nbegin B\nput B x 2\ncommit B\nlose\n\
            begin C\nget C x\nput C x 3\ncommit C\nclose\ndamage 1\nopen\nbegin D\nget D x\nstat\n",
        printed: "format ok\nopen commits=0 losers=0\nA begin\nA put x was none\nA commit 1\nbackup ok\n\
            B begin\nB put x was = 1\nB commit 2\nlose ok\nC begin\nC get x = 2\nC put x was = 2\n\
            C commit 3\nclose ok\ndamage 1\nopen commits=3 losers=0\nD begin\nD get x = 3\n\
            stat commits=3 losers=0 undone=0 repaired=1 pages=1 lost=1 restored=1\n",
    },
    // A backup beside eight transactions that write.
    Case {
        script: "format\nopen\nbegin T1\nbegin T2\nbegin T3\nbegin T4\nbegin T5\nbegin T6\n\
            begin T7\nbegin T8\nput T1 a1 1\nput T2 a2 2\nput T3 a3 3\nput T4 a4 4\n\
            put T5 a5 5\nput T6 a6 6\nput T7 a7 7\nput T8 a8 8\nbackup\nput T1 b1 1\n\
            put T2 b2 2\nput T3 b3 3\nput T4 b4 4\nput T5 b5 5\nput T6 b6 6\nput T7 b7 7\n\
            put T8 b8 8\ncommit T1\ncommit T2\ncommit T3\ncommit T4\ncommit T5\ncommit T6\n\
            commit T7\ncommit T8\nlose\nbegin R\nscan R % %\nstat\n",
        printed: "format ok\nopen commits=0 losers=0\nT1 begin\nT2 begin\nT3 begin\nT4 begin\n\
            T5 begin\nT6 begin\nT7 begin\nT8 begin\nT1 put a1 was none\nT2 put a2 was none\n\
            T3 put a3 was none\nT4 put a4 was none\nT5 put a5 was none\nT6 put a6 was none\n\
            T7 put a7 was none\nT8 put a8 was none\nbackup ok\nT1 put b1 was none\n\
            T2 put b2 was none\nT3 put b3 was none\nT4 put b4 was none\nT5 put b5 was none\n\
            T6 put b6 was none\nT7 put b7 was none\nT8 put b8 was none\nT1 commit 1\n\
            T2 commit 2\nT3 commit 3\nT4 commit 4\nT5 commit 5\nT6 commit 6\nT7 commit 7\n\
            T8 commit 8\nlose ok\nR begin\nR scan % % pairs=16\nR row a1 = 1\nR row a2 = 2\n\
            R row a3 = 3\nR row a4 = 4\nR row a5 = 5\nR row a6 = 6\nR row a7 = 7\nR row a8 = 8\n\
            R row b1 = 1\nR row b2 = 2\nR row b3 = 3\nR row b4 = 4\nR row b5 = 5\nR row b6 = 6\n\
            R row b7 = 7\nR row b8 = 8\n\
            stat commits=8 losers=0 undone=0 repaired=0 pages=1 lost=1 restored=1\n",
    },
];

#[test]
fn what_is_stored_in_the_vault_is_read_again(rt: HostRuntime) -> Result<(), Fail> {
    try_cases(&rt, rt.alloc(), &STORED)
}

/// What the vault's fuse refuses.
const FUSED: [Case; 6] = [
    // A backup that is refused is a line, and the life goes on.
    Case {
        script: "format\nopen\nfuse vault 0\nbackup\nrenew vault\nbackup\n",
        printed: "format ok\nopen commits=0 losers=0\nfuse vault 0\nbackup vault failed\nrenew vault\n\
            backup ok\n",
    },
    // So it is of a run whose bytes were put and aren't synced; what needs no vault is done.
    Case {
        script: "format\nopen\nbegin A\nput A x 1\ncommit A\nfuse vault 1\narchive\nbegin B\nput B x 2\n\
            commit B\ncheckpoint\nstat\nrenew vault\narchive\n",
        printed: "format ok\nopen commits=0 losers=0\nA begin\nA put x was none\nA commit 1\nfuse vault 1\n\
            archive vault failed\nB begin\nB put x was = 1\nB commit 2\ncheckpoint ok\n\
            stat commits=2 losers=0 undone=0 repaired=0 pages=1 lost=0 restored=0\nrenew vault\n\
            archive runs=1\n",
    },
    // A page that is damaged is in its backup alone.
    Case {
        script: "format\nopen\nbegin A\nput A x 1\ncommit A\nbackup\nclose\ndamage 1\nopen\nbegin B\n\
            fuse vault 0\nget B x\nput B x 2\ndel B x\nscan B % %\nop B add x 1\nrenew vault\nget B x\n\
            stat\n",
        printed: "format ok\nopen commits=0 losers=0\nA begin\nA put x was none\nA commit 1\nbackup ok\n\
            close ok\ndamage 1\nopen commits=1 losers=0\nB begin\nfuse vault 0\nB get x vault failed\n\
            B put x vault failed\nB del x vault failed\nB scan % % vault failed\n\
            B op add x vault failed\nrenew vault\nB get x = 1\n\
            stat commits=1 losers=0 undone=0 repaired=1 pages=1 lost=0 restored=0\n",
    },
    // So it is with a segment that was lost: an abort and a step of help want it.
    Case {
        script: "format\nopen\nbegin A\nput A x 1\ncommit A\nbackup\nbegin B\nput B x 2\nlose\n\
            fuse vault 0\nabort B\nhelp 1\nrenew vault\nabort B\nhelp 1\nbegin C\nget C x\nstat\n",
        printed: "format ok\nopen commits=0 losers=0\nA begin\nA put x was none\nA commit 1\nbackup ok\n\
            B begin\nB put x was = 1\nlose ok\nfuse vault 0\nB abort vault failed\nhelp vault failed\n\
            renew vault\nB abort\nhelp ok\nC begin\nC get x = 1\n\
            stat commits=1 losers=0 undone=1 repaired=0 pages=1 lost=1 restored=1\n",
    },
    // An opening and a close leave the fuse as it is. A stop renews it, also where no life is open.
    Case {
        script: "format\nfuse vault 0\nopen\nbackup\nclose\nopen\nbackup\nstop\nopen\nbackup\nfuse vault 0\n\
            close\nstop\nopen\nbackup\n",
        printed: "format ok\nfuse vault 0\nopen commits=0 losers=0\nbackup vault failed\nclose ok\n\
            open commits=0 losers=0\nbackup vault failed\nstop\nopen commits=0 losers=0\nbackup ok\n\
            fuse vault 0\nclose ok\nstop\nopen commits=0 losers=0\nbackup ok\n",
    },
    // It is renewed where no life is open, and no other device's fuse is it.
    Case {
        script: "format\nfuse vault 0\nrenew vault\nfuse data 0\nrenew log\nopen\nbackup\nfuse vault 0\n\
            renew data\nbackup\n",
        printed: "format ok\nfuse vault 0\nrenew vault\nfuse data 0\nrenew log\nopen commits=0 losers=0\n\
            backup ok\nfuse vault 0\nrenew data\nbackup vault failed\n",
    },
];

#[test]
fn a_call_of_the_vault_that_its_fuse_refused_is_a_line(rt: HostRuntime) -> Result<(), Fail> {
    try_cases(&rt, rt.alloc(), &FUSED)
}

#[test]
fn a_vault_that_fails_by_itself_ends_the_run_also_in_an_armed_fuse(
    rt: HostRuntime,
) -> Result<(), Fail> {
    let alloc = rt.alloc();
    let devices = Devices {
        log: MemDisk::new(alloc),
        pages: MemPages::new(alloc),
        vault: MemVault::failing(alloc, vec![in alloc; 1]?),
    };
    let script = "format\nopen\nfuse vault 9\nbackup\nstat\n";
    let left = run_devices(&rt, alloc, script, devices)?;
    assert_eq!(rt; left.status, Status::VaultFault);
    assert_eq!(rt;
        left.printed.as_str(),
        "format ok\nopen commits=0 losers=0\nfuse vault 9\n"
    );
    Ok(())
}
