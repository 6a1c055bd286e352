//! A bank with two accounts, over two lives.

use media_mem::MemDisk;
use script_runs::{is_done, run};
use std::test::Fail;

/// Accounts are opened, money moves between them, and the machine stops between the two puts of the next move.
const DAY: &str = "format\nopen\n\
    begin Open\nput Open alice 100\nput Open bob 50\ncommit Open\n\
    begin Move\nget Move alice\nget Move bob\nput Move alice 70\nput Move bob 80\ncommit Move\n\
    begin Half\nget Half alice\nput Half alice 0\nstop 4096\n";

const DAY_PRINTED: &str = "format ok\nopen commits=0 losers=0\n\
    Open begin\nOpen put alice was none\nOpen put bob was none\nOpen commit 1\n\
    Move begin\nMove get alice = 100\nMove get bob = 50\n\
    Move put alice was = 100\nMove put bob was = 50\nMove commit 2\n\
    Half begin\nHalf get alice = 70\nHalf put alice was = 70\nstop\n";

/// The accounts are read on the next day.
const AUDIT: &str =
    "open\nbegin Audit\nget Audit alice\nget Audit bob\nget Audit carol\ncommit Audit\n";

const AUDIT_PRINTED: &str = "open commits=2 losers=0\nAudit begin\nAudit get alice = 70\n\
    Audit get bob = 80\nAudit get carol none\nAudit commit 3\n";

#[test]
fn money_is_neither_made_nor_lost(rt: HostRuntime) -> Result<(), Fail> {
    let alloc = rt.alloc();
    let day = run(&rt, alloc, DAY, MemDisk::new(alloc))?;
    assert!(rt; is_done(alloc, &day, DAY_PRINTED)?);
    let audit = run(&rt, alloc, AUDIT, day.log)?;
    assert!(rt; is_done(alloc, &audit, AUDIT_PRINTED)?);
    Ok(())
}
