//! Archive runs.
ghost use Rattle.std.specs.Prelude.{◌≡◌, ◌↔◌, ◌≤◌, ◌<◌, ◌+◌, ◌^◌, ◌||◌, ◌==◌, ◌&&◌, nat_le, ◌∷◌, ◌++◌, [], List, suc, length, filter, true, false, IsTrue, if◌then◌else◌};
ghost use Rattle.wal_record.specs.Sound.{RunRule, is_merge_of, is_next_run};
ghost use Rattle.wal_record.specs.Upkeep.{archived, in_range, last_run, standing_runs};
ghost use Rattle.wal_record.specs.declared.record.Record.{Record};
ghost use Rattle.wal_record.specs.declared.record.Record.TheVariants as kinds;
ghost use Rattle.upkeep_judge.specs.Runs.{IsSpan, is_above, is_below};

use checkpoint_form::MOST_RUNS;
use store_model::Lsn;
use wal_record::{Run, RunDone};

/// How many runs there are, with which LSN they begin, and with which they end.
#[derive(Clone, Copy)]
struct Span {
    count: usize,
    first: Lsn,
    last: Lsn,
}

/// Whether the run lies in the range of the new one.
fn is_in_range(done: &RunDone, run: &Run) -> bool
    ensures { result ≡ in_range done.now run.now }
{
    done.first <= run.first && run.last <= done.last
}

/// What is covered with one run more, if that lies in the range of the new one.
fn with_run(span: Span, done: &RunDone, run: &Run) -> Span
    requires { span.count < 2 ^ 63 }
    ensures inside { in_range done.now run.now ≡ true → result ≡ record { count = span.count + 1; first = (if span.count == 0 then run.now.first else span.first); last = run.now.last } }
    ensures outside { in_range done.now run.now ≡ false → result ≡ span }
{
    if !is_in_range(done, run) {
        return span;
    }
    let first = if span.count == 0 {
        run.first
    } else {
        span.first
    };
    Span {
        count: span.count + 1,
        first,
        last: run.last,
    }
}

/// What the runs in the range of a new one cover.
fn span_of(runs: &[Run], done: &RunDone) -> Span
    ensures { IsSpan (filter (in_range done.now) runs.now) result }
{
    let mut span = Span {
        count: 0,
        first: 0,
        last: 0,
    };
    for run in runs {
        span = with_run(span, done, run);
    }
    span
}

/// Whether the new run covers exactly these, two or more.
fn is_exact(span: Span, done: &RunDone) -> bool
    ensures { result ≡ (nat_le 2 span.count && (done.now.first == span.first && done.now.last == span.last)) }
{
    span.count >= 2 && (done.first == span.first && done.last == span.last)
}

/// Whether the new run covers exactly those in its range, two or more.
fn is_merge(runs: &[Run], done: &RunDone) -> bool
    ensures { result ≡ is_merge_of (filter (in_range done.now) runs.now) done.now }
{
    let span = span_of(runs, done);
    is_exact(span, done)
}

/// The last LSN that a run covers, 0 for none.
fn archived(runs: &[Run]) -> Lsn
    ensures { result ≡ archived runs.now }
{
    match runs.last() {
        Some(run) => run.last,
        None => 0,
    }
}

/// Whether the new run begins behind the last one.
fn is_next(runs: &[Run], done: &RunDone) -> bool
    ensures { result ≡ is_next_run runs.now done.now }
{
    done.first > 0 && done.first - 1 == archived(runs)
}

/// One more, if it is so.
fn count_more(count: usize, is: bool) -> usize
    requires { count < 2 ^ 63 }
    ensures { result ≡ count + (if is then 1 else 0) }
{
    if is { count + 1 } else { count }
}

/// How many runs end before this LSN.
fn count_below(runs: &[Run], lsn: Lsn) -> usize
    ensures { result ≡ length (filter (is_below lsn) runs.now) }
{
    let mut count = 0;
    for run in runs {
        count = count_more(count, run.last < lsn);
    }
    count
}

/// How many runs begin behind this LSN.
fn count_above(runs: &[Run], lsn: Lsn) -> usize
    ensures { result ≡ length (filter (is_above lsn) runs.now) }
{
    let mut count = 0;
    for run in runs {
        count = count_more(count, lsn < run.first);
    }
    count
}

/// Whether so many runs, and one between them, may stand.
fn is_few(below: usize, above: usize) -> bool
    ensures { IsTrue result ↔ (below + suc above ≤ 1024) }
{
    below < MOST_RUNS && above < MOST_RUNS - below
}

/// Whether no more runs stand than may, with the new one.
fn are_few(runs: &[Run], done: &RunDone) -> bool
    ensures { (log : List Record) → runs.now ≡ standing_runs log → IsTrue result ↔ (length (standing_runs (log ++ kinds.RunDone done.now ∷ [])) ≤ 1024) }
{
    let below = count_below(runs, done.first);
    let above = count_above(runs, done.last);
    is_few(below, above)
}

/// Whether the new run covers a record, and ends below its own LSN, where this is that of the last record.
fn is_covered(done: &RunDone, last: Lsn) -> bool
    ensures { IsTrue result ↔ ((done.now.first ≤ done.now.last) × (done.now.last ≤ last)) }
{
    done.first <= done.last && done.last <= last
}

/// Whether the new run is the next one, or covers those in its range.
fn has_place(runs: &[Run], done: &RunDone) -> bool
    ensures { result ≡ (is_next_run runs.now done.now || is_merge_of (filter (in_range done.now) runs.now) done.now) }
{
    is_next(runs, done) || is_merge(runs, done)
}

/// Whether the new run has its place among those that stand, and there is room for it.
fn may_join(runs: &[Run], done: &RunDone) -> bool
    ensures { (log : List Record) → runs.now ≡ standing_runs log → IsTrue result ↔ (IsTrue (is_next_run runs.now done.now || is_merge_of (filter (in_range done.now) runs.now) done.now) × (length (standing_runs (log ++ kinds.RunDone done.now ∷ [])) ≤ 1024)) }
{
    has_place(runs, done) && are_few(runs, done)
}

/// Whether this is the number of the new run.
fn is_numbered(done: &RunDone, next: u64) -> bool
    ensures { IsTrue result ↔ (done.now.run ≡ next) }
{
    done.run == next
}

/// Whether all but its number allows the new run.
fn suits(runs: &[Run], last: Lsn, done: &RunDone) -> bool
    ensures { (log : List Record) → runs.now ≡ standing_runs log → IsTrue result ↔ (((done.now.first ≤ done.now.last) × (done.now.last ≤ last)) × (IsTrue (is_next_run runs.now done.now || is_merge_of (filter (in_range done.now) runs.now) done.now) × (length (standing_runs (log ++ kinds.RunDone done.now ∷ [])) ≤ 1024))) }
{
    is_covered(done, last) && may_join(runs, done)
}

/// Whether a run may be told next, behind these that stand, where `last` is the LSN of the last record and `next` the next
/// number of a run.
pub fn may_stand(runs: &[Run], last: Lsn, next: u64, done: &RunDone) -> bool
    ensures { (log : List Record) → runs.now ≡ standing_runs log → last ≡ length log → next ≡ suc (last_run log) → IsTrue result ↔ RunRule log done.now }
{
    is_numbered(done, next) && suits(runs, last, done)
}
