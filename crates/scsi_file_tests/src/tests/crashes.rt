//! Writes cut off at each call of the medium, and each mixture of old and new blocks after that.

use super::{letters, read, same, spelled, write};
use scsi_disk::{BlockStore, StoreFault};
use scsi_file::{CrashMemory, FileStore, StopsAt};
use std::alloc::{AllocError, Global};
use std::process::Abort;
use std::test::Fail;

/// What comes of two writes and of a sync, if a medium stops after a number of calls.
///
/// The writes are of `XY` to blocks 2 and 3 and of `Z` to block 3. A store syncs its medium as the
/// store begins, and each write and sync asks the medium for one call.
struct Row {
    /// Whether the first write is synced before the second one.
    apart: bool,
    calls: u64,
    /// Of the first write, with its sync if it has one, of the second, and of the sync behind both.
    answers: [Result<(), StoreFault>; 3],
    /// What the medium has, if nothing crashes.
    seen: &'static [u8; 8],
    /// What a crash may leave.
    outcomes: &'static [&'static [u8; 8]],
}

const FAILED: Result<(), StoreFault> = Err(StoreFault::Device);

const ROWS: &[Row] = &[
    Row {
        apart: true,
        calls: 0,
        answers: [FAILED; 3],
        seen: b"abcdefgh",
        outcomes: &[b"abcdefgh"],
    },
    Row {
        apart: true,
        calls: 1,
        answers: [FAILED; 3],
        seen: b"abcdefgh",
        outcomes: &[b"abcdefgh"],
    },
    Row {
        apart: true,
        calls: 2,
        // the sync between the writes told that it failed
        answers: [FAILED, FAILED, Ok(())],
        seen: b"abXYefgh",
        outcomes: &[b"abcdefgh", b"abXdefgh", b"abcYefgh", b"abXYefgh"],
    },
    Row {
        apart: true,
        calls: 3,
        answers: [Ok(()), FAILED, FAILED],
        seen: b"abXYefgh",
        outcomes: &[b"abXYefgh"],
    },
    Row {
        apart: true,
        calls: 4,
        answers: [Ok(()), Ok(()), FAILED],
        seen: b"abXZefgh",
        outcomes: &[b"abXYefgh", b"abXZefgh"],
    },
    Row {
        apart: true,
        calls: 5,
        answers: [Ok(()); 3],
        seen: b"abXZefgh",
        outcomes: &[b"abXZefgh"],
    },
    Row {
        apart: false,
        calls: 1,
        answers: [FAILED; 3],
        seen: b"abcdefgh",
        outcomes: &[b"abcdefgh"],
    },
    Row {
        apart: false,
        calls: 2,
        answers: [Ok(()), FAILED, FAILED],
        seen: b"abXYefgh",
        outcomes: &[b"abcdefgh", b"abXdefgh", b"abcYefgh", b"abXYefgh"],
    },
    Row {
        apart: false,
        calls: 3,
        answers: [Ok(()), Ok(()), FAILED],
        seen: b"abXZefgh",
        outcomes: &[
            b"abcdefgh",
            b"abXdefgh",
            b"abcYefgh",
            b"abXYefgh",
            b"abcZefgh",
            b"abXZefgh",
        ],
    },
    Row {
        apart: false,
        calls: 4,
        answers: [Ok(()); 3],
        seen: b"abXZefgh",
        outcomes: &[b"abXZefgh"],
    },
];

/// The medium that the two writes and the sync leave, with their answers.
fn written(
    alloc: Global,
    row: &Row,
) -> Result<(Option<CrashMemory>, [Result<(), StoreFault>; 3]), AllocError> {
    let medium = StopsAt::new(letters(alloc)?, row.calls);
    match FileStore::new(medium) {
        Err(fault) => Ok((None, [Err(fault); 3])),
        Ok(mut store) => {
            let first = write_first(&mut store, row.apart);
            let second = write(&mut store, 3, b"Z");
            let last = store.sync();
            let medium = store.into_medium().into_medium();
            Ok((Some(medium), [first, second, last]))
        }
    }
}

/// The first write, and its sync if it has one.
fn write_first<S: BlockStore>(store: &mut S, apart: bool) -> Result<(), StoreFault> {
    write(store, 2, b"XY")?;
    if apart { store.sync() } else { Ok(()) }
}

/// Which outcome of the row a crash leaves, by how far each of blocks 2 and 3 goes back, and whether
/// a store on what is left reads just that.
fn crashed(
    alloc: Global,
    row: &Row,
    second: usize,
    third: usize,
) -> Result<Option<(usize, bool)>, AllocError> {
    let (Some(mut medium), _) = written(alloc, row)? else {
        return Ok(None);
    };
    medium.crash(&[0, 0, second, third]);
    let left = spelled(medium.bytes());
    let place = place_of(row.outcomes, &left);
    let again = match FileStore::new(medium) {
        Err(_) => false,
        Ok(mut store) => read(&mut store) == Ok(left),
    };
    Ok(Some((place, again)))
}

/// The place of an outcome, and the number of them where it is none.
fn place_of(outcomes: &[&[u8; 8]], left: &[u8; 8]) -> usize {
    let mut place = 0;
    for outcome in outcomes {
        if *outcome == left {
            return place;
        }
        if place < outcomes.len() {
            place += 1;
        }
    }
    place
}

#[test]
fn each_write_is_cut_off_at_each_call(rt: HostRuntime) -> Result<(), Fail> {
    for row in ROWS {
        let (medium, answers) = written(rt.alloc(), row)?;
        same(&rt, &answers, &row.answers, &(row.apart, row.calls));
        if let Some(medium) = medium {
            same(
                &rt,
                &spelled(medium.bytes()),
                row.seen,
                &(row.apart, row.calls),
            );
        }
    }
    Ok(())
}

/// Asserts that a crash leaves each outcome of the row, and no other.
fn check_crashes(rt: &impl Abort, alloc: Global, row: &Row) -> Result<(), AllocError> {
    let mut reached = [false; 6];
    for back in 0..9 {
        if let Some((place, again)) = crashed(alloc, row, back / 3, back % 3)? {
            same(
                rt,
                &(place < row.outcomes.len()),
                &true,
                &(row.apart, row.calls, back),
            );
            same(rt, &again, &true, &(row.apart, row.calls, back));
            if let Some(is) = reached.get_mut(place) {
                *is = true;
            }
        }
    }
    let count = reached.iter().filter(|is| **is).count();
    let due = if row.calls == 0 {
        0
    } else {
        row.outcomes.len()
    };
    same(rt, &count, &due, &(row.apart, row.calls));
    Ok(())
}

#[test]
fn a_crash_leaves_each_mixture_and_nothing_else(rt: HostRuntime) -> Result<(), Fail> {
    for row in ROWS {
        check_crashes(&rt, rt.alloc(), row)?;
    }
    Ok(())
}

/// What two syncs behind a write answer, where the first one fails.
fn synced_twice(
    alloc: Global,
    cached: bool,
) -> Result<Option<[Result<(), StoreFault>; 3]>, AllocError> {
    let Ok(store) = FileStore::new(StopsAt::new(letters(alloc)?, 2)) else {
        return Ok(None);
    };
    let mut store = if cached {
        store.with_write_back()
    } else {
        store
    };
    let first = write(&mut store, 2, b"XY");
    let second = store.sync();
    Ok(Some([first, second, store.sync()]))
}

#[test]
fn a_failed_sync_is_told_again_with_a_write_cache(rt: HostRuntime) -> Result<(), Fail> {
    let once = synced_twice(rt.alloc(), false)?;
    same(&rt, &once, &Some([Ok(()), FAILED, Ok(())]), &"without");
    let again = synced_twice(rt.alloc(), true)?;
    same(&rt, &again, &Some([Ok(()), FAILED, FAILED]), &"with");
    Ok(())
}
