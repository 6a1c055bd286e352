//! One page in a pool: brought, written out and looked for.
ghost use Rattle.std.specs.Prelude.{◌≡◌, List, []};
ghost use Rattle.page_ops.specs.Names.{life_names};
ghost use Rattle.wal_record.specs.declared.record.Record.{Record};

use crate::life::{Begun, HEAD, begin};
use crate::supply::leaf_state;
use crate::telling::Telling;
use media::PageDevice;
use media_mem::MemPages;
use page_image::seal;
use page_ops::{Ground, Life, Pages, Taken, Tokens, Unnamed};
use std::alloc::Global;
use std::marker::Brand;
use std::sync::Wait;
use std::test::*;
use store_model::{Fault, Lsn, PageNo};

/// A step of a test.
#[derive(Clone, Copy, Debug, PartialEq, Eq)]
pub(crate) enum Step {
    /// The page is brought.
    Bring,
    /// The page is written out.
    Write,
    /// The data device is lost, and with it all that was written.
    Lose,
    /// Reads of the page from the data device fail verification until its next write.
    Damage,
    /// The page is taken and put back.
    Look,
    /// The page is taken, and brought anew.
    Renew,
}

/// What came of one page.
#[derive(Clone, Copy, Debug, PartialEq, Eq)]
pub(crate) struct Seen {
    /// Whether each step was done; of a look, whether the page was there.
    pub(crate) done: [bool; 4],
    /// The dirty page after the first step, and after the last.
    dirty: [Option<PageNo>; 2],
    /// The page that awaits redo after the last step.
    redo: Option<PageNo>,
    from_base: u32,
    from_nothing: u32,
    repairs: u32,
    writes: u32,
    flushed: Lsn,
}

/// What is tried.
#[derive(Clone, Copy, Debug)]
pub(crate) struct Case {
    /// As which LSN the page was written last.
    written: Lsn,
    /// Which of the calls that may want memory does.
    refuse_at: u32,
    steps: [Step; 4],
}

/// Takes one step: whether it was done.
fn take<N: Life, R: Wait>(rt: &R, alloc: Global, begun: &mut Begun<N>, step: Step) -> bool
    requires untold { (opening : List Record) → N.opens opening → ⊥ }
{
    let Begun {
        journal,
        pool,
        pass,
        ..
    } = begun;
    match step {
        Step::Bring => pool.bring(rt, alloc, journal, 1, pass).is_ok(),
        Step::Write => pool.write_out(rt, alloc, journal, 1, pass).is_ok(),
        Step::Lose => {
            journal.written = 0;
            pool.lose(rt).is_ok()
        }
        Step::Damage => pool.spoil(1).is_ok(),
        Step::Look => match Pages::<N, Telling<N>>::try_take(pool, rt, 1) {
            Taken::Page(held) => {
                Pages::<N, Telling<N>>::put_back(pool, rt, &mut Some(held));
                true
            }
            _ => false,
        },
        Step::Renew => match Pages::<N, Telling<N>>::try_take(pool, rt, 1) {
            Taken::Page(held) => pool
                .renew(rt, alloc, journal, &mut Some(held), pass)
                .is_ok(),
            _ => false,
        },
    }
}

/// Takes the steps of the case, one after the other.
fn in_turn<N: Life, R: Wait>(
    rt: &R,
    alloc: Global,
    ground: &Ground<N>,
    tokens: Tokens<N>,
    device: MemPages,
    case: Case,
) -> Result<Seen, Fault>
    requires untold { (opening : List Record) → N.opens opening → ⊥ }
    requires parts { (N.entries.parts ≡ 1) × (N.session_entries.parts ≡ 1) × (N.log_faults.parts ≡ 1) × (N.vault_faults.parts ≡ 1) × (N.made.parts ≡ 1) }
    requires front { tokens.front ≡ [] }
    requires mark { tokens.mark ≡ 0 }
    requires pages { tokens.books.pages ≡ [] }
    requires sessions { tokens.books.sessions ≡ [] }
    requires maint { tokens.books.maint ≡ [] }
{
    let mut begun = begin(alloc, ground, tokens, device, case.written, case.refuse_at)?;
    let [first, second, third, fourth] = case.steps;
    let one = take(rt, alloc, &mut begun, first);
    let dirty = begun.pool.next_dirty(0);
    let two = take(rt, alloc, &mut begun, second);
    let three = take(rt, alloc, &mut begun, third);
    let four = take(rt, alloc, &mut begun, fourth);
    let dirty = [dirty, begun.pool.next_dirty(0)];
    let redo = begun.pool.next_redo(0);
    let Begun { journal, pool, .. } = begun;
    let (_, supply) = pool.into_parts();
    Ok(Seen {
        done: [one, two, three, four],
        dirty,
        redo,
        from_base: supply.from_base,
        from_nothing: supply.from_nothing,
        repairs: journal.repairs,
        writes: journal.writes,
        flushed: journal.flushed,
    })
}

fn pool_life<N: Life, R: Wait>(
    rt: &R,
    alloc: Global,
    unnamed: Unnamed,
    device: MemPages,
    case: Case,
) -> Result<Seen, Fault>
    requires untold { (opening : List Record) → N.opens opening → ⊥ }
    requires named { unnamed ≡ life_names N.count N.pages N.sessions N.maint N.entries N.session_entries N.log_faults N.vault_faults N.data_faults N.made }
    requires parts { (N.entries.parts ≡ 1) × (N.session_entries.parts ≡ 1) × (N.log_faults.parts ≡ 1) × (N.vault_faults.parts ≡ 1) × (N.made.parts ≡ 1) }
{
    let (ground, tokens) = unnamed.split::<N>();
    in_turn(rt, alloc, &ground, tokens, device, case)
}

pub(crate) fn run_with<R: Wait>(
    rt: &R,
    alloc: Global,
    device: MemPages,
    case: Case,
) -> Result<Seen, Fault> {
    let unnamed = Unnamed::new(alloc, 1)?;
    pool_life::<Brand, R>(rt, alloc, unnamed, device, case)
}

/// A device to which this image was written for page 1: of that page, at this LSN, with a byte changed. The calls with these
/// numbers fail; that write is the first.
fn device_with(
    alloc: Global,
    page: PageNo,
    lsn: Lsn,
    changed: Option<usize>,
    failing: Vec<u64>,
) -> Result<MemPages, Fail> {
    let mut device = MemPages::failing(alloc, failing);
    if let Some(state) = leaf_state(alloc) {
        let mut bytes = seal(&state, page, lsn);
        if let Some(at) = changed {
            bytes[at % 4096] ^= 1;
        }
        device.write(1, &bytes).ok();
    }
    Ok(device)
}

/// The page is brought, written out, looked for and brought again.
const WRITE: [Step; 4] = [Step::Bring, Step::Write, Step::Look, Step::Bring];

/// The page is brought, and again.
pub(crate) const AGAIN: [Step; 4] = [Step::Bring, Step::Look, Step::Bring, Step::Look];

/// The page is brought and renewed.
const RENEW: [Step; 4] = [Step::Bring, Step::Renew, Step::Look, Step::Bring];

/// The device is lost behind the bring, and the page brought again.
const LOSE: [Step; 4] = [Step::Bring, Step::Lose, Step::Look, Step::Bring];

/// A page that the device gives as it is at its head.
const CURRENT: Seen = Seen {
    done: [true; 4],
    dirty: [None; 2],
    redo: None,
    from_base: 1,
    from_nothing: 0,
    repairs: 0,
    writes: 0,
    flushed: 0,
};

/// A page that the device gives as it was before.
const OLDER: Seen = Seen {
    dirty: [Some(1), None],
    writes: 1,
    flushed: HEAD,
    ..CURRENT
};

/// A page that is rebuilt from nothing.
const REPAIRED: Seen = Seen {
    from_base: 0,
    from_nothing: 1,
    repairs: 1,
    ..OLDER
};

/// The same, and not written out.
const UNWRITTEN: Seen = Seen {
    dirty: [Some(1); 2],
    writes: 0,
    flushed: 0,
    ..REPAIRED
};

/// The same, written out, where no image of it was written since the last loss.
const REDONE: Seen = Seen {
    repairs: 0,
    ..REPAIRED
};

/// A case in which no call wants memory.
pub(crate) fn written_as(written: Lsn, steps: [Step; 4]) -> Case {
    Case {
        written,
        refuse_at: 0,
        steps,
    }
}

#[test]
fn an_image_serves_from_the_written_lsn_to_the_head(rt: HostRuntime) -> Result<(), Fail> {
    let alloc = rt.alloc();
    for (page, lsn, changed, written, expected) in [
        (1, HEAD, None, HEAD, CURRENT),
        (1, 3, None, 3, OLDER),
        (1, 3, None, 0, OLDER),
        // Too old, too new, of another page, damaged in the digest, in the number and in the last byte.
        (1, 3, None, 4, REPAIRED),
        (1, HEAD + 1, None, HEAD, REPAIRED),
        (1, HEAD + 1, None, 0, REDONE),
        (2, HEAD, None, HEAD, REPAIRED),
        (1, HEAD, Some(0), HEAD, REPAIRED),
        (1, HEAD, Some(36), HEAD, REPAIRED),
        (1, HEAD, Some(4095), HEAD, REPAIRED),
    ] {
        let device = device_with(alloc, page, lsn, changed, Vec::new(alloc))?;
        let seen = run_with(&rt, alloc, device, written_as(written, WRITE))?;
        assert_eq!(rt; seen, expected);
    }
    Ok(())
}

/// Each byte in turn, of an image that is sealed once.
#[test]
fn an_image_with_a_changed_byte_is_repaired(rt: HostRuntime) -> Result<(), Fail> {
    let alloc = rt.alloc();
    let Some(state) = leaf_state(alloc) else {
        return Err(Fail::new("no leaf"));
    };
    let mut bytes = seal(&state, 1, HEAD);
    for at in 0..4096 {
        bytes[at] ^= 1;
        let mut device = MemPages::new(alloc);
        device.write(1, &bytes).ok();
        bytes[at] ^= 1;
        let seen = run_with(&rt, alloc, device, written_as(HEAD, AGAIN))?;
        assert_eq!(rt; seen, UNWRITTEN, "at {at}");
    }
    Ok(())
}

/// The page is brought behind the damage, and written out.
#[test]
fn a_damaged_page_is_repaired(rt: HostRuntime) -> Result<(), Fail> {
    let alloc = rt.alloc();
    let device = device_with(alloc, 1, HEAD, None, Vec::new(alloc))?;
    let steps = [Step::Damage, Step::Bring, Step::Write, Step::Look];
    let expected = Seen {
        dirty: [None; 2],
        ..REPAIRED
    };
    assert_eq!(rt;
        run_with(&rt, alloc, device, written_as(HEAD, steps))?,
        expected
    );
    Ok(())
}

/// The second call of the device reads the page, the third writes it, and where that failed the fourth reads it again. Each of
/// them fails, alone and with each other one.
#[test]
fn a_device_call_that_fails_is_no_fault_of_the_pool(rt: HostRuntime) -> Result<(), Fail> {
    let alloc = rt.alloc();
    // The image on the device stays as it was.
    let dropped = Seen {
        done: [true, true, false, true],
        dirty: [Some(1); 2],
        from_base: 2,
        writes: 0,
        ..OLDER
    };
    let repaired_once = Seen {
        from_base: 1,
        from_nothing: 1,
        repairs: 1,
        ..dropped
    };
    let repaired_twice = Seen {
        from_base: 0,
        from_nothing: 2,
        repairs: 2,
        ..dropped
    };
    for (failing, expected) in [
        ([0, 0, 0], OLDER),
        ([2, 0, 0], REPAIRED),
        ([0, 3, 0], dropped),
        ([0, 0, 4], OLDER),
        ([2, 3, 0], repaired_once),
        ([2, 0, 4], REPAIRED),
        ([0, 3, 4], repaired_once),
        ([2, 3, 4], repaired_twice),
    ] {
        let device = device_with(alloc, 1, 3, None, Vec::from_array(alloc, failing)?)?;
        let seen = run_with(&rt, alloc, device, written_as(3, WRITE))?;
        assert_eq!(rt; seen, expected, "{failing:?}");
    }
    Ok(())
}

/// A bring lists the page, has it rebuilt, and enters the repair; any of these may want memory.
#[test]
fn a_bring_that_wants_memory_leaves_the_right_at_home(rt: HostRuntime) -> Result<(), Fail> {
    let alloc = rt.alloc();
    let again = [false, false, true, true];
    for (refuse_at, done, from_nothing) in [
        (0, [true; 4], 1),
        (1, again, 1),
        (2, again, 1),
        // The page was rebuilt, and is rebuilt again.
        (3, again, 2),
        (4, [true; 4], 1),
    ] {
        let case = Case {
            written: HEAD,
            refuse_at,
            steps: AGAIN,
        };
        let expected = Seen {
            done,
            dirty: if done[0] {
                [Some(1); 2]
            } else {
                [None, Some(1)]
            },
            from_nothing,
            writes: 0,
            flushed: 0,
            ..REPAIRED
        };
        let seen = run_with(&rt, alloc, MemPages::new(alloc), case)?;
        assert_eq!(rt; seen, expected);
    }
    Ok(())
}

/// The page was written as this LSN, and is brought, where the bring isn't refused, or only looked for.
#[test]
fn a_page_awaits_redo_until_it_comes(rt: HostRuntime) -> Result<(), Fail> {
    let alloc = rt.alloc();
    for (written, first, refuse_at, expected) in [
        (3, Step::Look, 0, Some(1)),
        (3, Step::Bring, 1, Some(1)),
        (3, Step::Bring, 0, None),
        (HEAD, Step::Look, 0, None),
    ] {
        let case = Case {
            written,
            refuse_at,
            steps: [first, Step::Look, Step::Look, Step::Look],
        };
        let seen = run_with(&rt, alloc, MemPages::new(alloc), case)?;
        assert_eq!(rt; seen.redo, expected, "{written} {first:?}");
    }
    Ok(())
}

/// The device has the page as it is at its head, and isn't asked by a renewal, which counts as a repair. The rebuild or the
/// entry of the repair may want memory; the page is then away, and its right at home.
#[test]
fn a_page_is_renewed_without_its_image(rt: HostRuntime) -> Result<(), Fail> {
    let alloc = rt.alloc();
    let renewed = Seen {
        dirty: [None, Some(1)],
        from_nothing: 1,
        repairs: 1,
        ..CURRENT
    };
    let refused = Seen {
        done: [true, false, false, true],
        from_base: 2,
        ..CURRENT
    };
    let rebuilt_and_refused = Seen {
        from_nothing: 1,
        ..refused
    };
    for (refuse_at, expected) in [(0, renewed), (3, refused), (4, rebuilt_and_refused)] {
        let device = device_with(alloc, 1, HEAD, None, Vec::new(alloc))?;
        let case = Case {
            written: HEAD,
            refuse_at,
            steps: RENEW,
        };
        assert_eq!(rt; run_with(&rt, alloc, device, case)?, expected);
    }
    Ok(())
}

/// The image is written, and written again.
#[test]
fn a_write_that_cannot_be_entered_leaves_the_page_dirty(rt: HostRuntime) -> Result<(), Fail> {
    let alloc = rt.alloc();
    let device = device_with(alloc, 1, 3, None, Vec::new(alloc))?;
    let case = Case {
        written: 3,
        refuse_at: 3,
        steps: [Step::Bring, Step::Write, Step::Look, Step::Write],
    };
    let expected = Seen {
        done: [true, false, true, true],
        ..OLDER
    };
    assert_eq!(rt; run_with(&rt, alloc, device, case)?, expected);
    Ok(())
}

/// The second call of the device reads the page, the third replaces the device, and the fourth reads the page again. Each of
/// them fails, alone and with each other one. No image counts as written behind the loss, so nothing is repaired there.
#[test]
fn a_lost_device_takes_the_pages_along(rt: HostRuntime) -> Result<(), Fail> {
    let alloc = rt.alloc();
    let lost = Seen {
        done: [true, true, false, true],
        dirty: [None, Some(1)],
        from_nothing: 1,
        ..CURRENT
    };
    let repaired_and_lost = Seen {
        dirty: [Some(1); 2],
        from_base: 0,
        from_nothing: 2,
        repairs: 1,
        ..lost
    };
    // The old image stays, and serves.
    let stays = Seen {
        done: [true, false, false, true],
        from_base: 2,
        ..CURRENT
    };
    let repaired_and_stays = Seen {
        dirty: [Some(1), None],
        from_base: 1,
        from_nothing: 1,
        repairs: 1,
        ..stays
    };
    let stays_unread = Seen {
        dirty: [None, Some(1)],
        from_base: 1,
        from_nothing: 1,
        ..stays
    };
    let never_read = Seen {
        done: stays.done,
        ..repaired_and_lost
    };
    for (failing, expected) in [
        ([0, 0, 0], lost),
        ([2, 0, 0], repaired_and_lost),
        ([0, 3, 0], stays),
        ([0, 0, 4], lost),
        ([2, 3, 0], repaired_and_stays),
        ([2, 0, 4], repaired_and_lost),
        ([0, 3, 4], stays_unread),
        ([2, 3, 4], never_read),
    ] {
        let device = device_with(alloc, 1, HEAD, None, Vec::from_array(alloc, failing)?)?;
        let seen = run_with(&rt, alloc, device, written_as(HEAD, LOSE))?;
        assert_eq!(rt; seen, expected, "{failing:?}");
    }
    Ok(())
}
