//! Words that are a call, and words that are none.
use call_words::{Call, Mode, Refusal, call_of};
use std::alloc::{AllocError, Global};

/// Words one space apart.
fn words_of(alloc: Global, line: &str) -> Result<Vec<String>, AllocError> {
    let mut words = Vec::new(alloc);
    if !line.is_empty() {
        for word in line.split(' ') {
            words.push(String::from_str(alloc, word)?)?;
        }
    }
    Ok(words)
}

/// The call of such words.
fn read(alloc: Global, line: &str) -> Result<Call, Refusal> {
    call_of(alloc, &words_of(alloc, line)?)
}

/// Whether such words ask for this.
fn asks(alloc: Global, line: &str, mode: Mode, workers: u64, frames: u64) -> bool {
    let call = Call {
        mode,
        workers,
        frames,
    };
    read(alloc, line) == Ok(call)
}

#[test]
fn words_that_ask_for_a_run(rt: HostRuntime) {
    for (line, workers, frames) in [
        ("", 4, 64),
        ("run", 4, 64),
        ("--workers 14", 14, 64),
        ("run --workers 4 --frames 24", 4, 24),
        ("--frames=4096 run --workers=16", 16, 4096),
        ("--workers 1 --frames 12 -- run", 1, 12),
    ] {
        let right = asks(rt.alloc(), line, Mode::Run, workers, frames);
        assert!(rt; right, "{line}");
    }
}

#[test]
fn words_that_ask_for_a_script(rt: HostRuntime) {
    for (line, number) in [
        ("generate 7", 7),
        ("generate 18446744073709551615", u64::MAX),
    ] {
        let right = asks(rt.alloc(), line, Mode::Generate(number), 4, 64);
        assert!(rt; right, "{line}");
    }
}

/// One line for each rule.
const NO_CALLS: &str = "walk
Run
run 7
generate
generate seven
generate -7
generate 18446744073709551616
generate 7 8
run --workers 0
run --workers 17
run --workers four
run --workers
run --workers=
--workers 4 --workers 4
--frames 11
--frames 4097
--frames 64 --frames 64
run --workers 4 --frames 23
--workers 15
--workers 16
--seats 4
-w 4
--help
-h
help
run --help
--version
-- --workers 4";

#[test]
fn words_that_are_no_call(rt: HostRuntime) {
    for line in NO_CALLS.split('\n') {
        let refused = read(rt.alloc(), line) == Err(Refusal::Usage);
        assert!(rt; refused, "{line}");
    }
}
