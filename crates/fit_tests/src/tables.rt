// Questions with their answers.
use fit::either::Either;
use fit::exact::Exact;
use fit::linear::Linear;
use fit::question::FitTest;
use fit::surcharge::Surcharge;
use std::process::Abort;
use std::test::Fail;
use tasks::fault::ListFault;
use tasks::record::TaskRecord;

// Shorter than the literal, for the tables. Each crate of tests has its own: `tasks` offers no such call, since three numbers in a row are easily swapped.
fn task(work: u32, limit: u32, gap: u32) -> TaskRecord {
    TaskRecord { work, limit, gap }
}

// What linear over a grid, and exact, say to a question.
fn say(
    rt: &impl Abort,
    grid: u32,
    row: &[TaskRecord],
    asked: TaskRecord,
    by_linear: bool,
    by_exact: bool,
) -> Result<(), Fail> {
    assert_eq!(rt; Linear::new(grid)?.fits(row, asked), by_linear);
    assert_eq!(rt; Exact.fits(row, asked), by_exact);
    Ok(())
}

#[test]
fn worked_examples(rt: HostRuntime) -> Result<(), Fail> {
    let full = task(1, 1, 1);
    let both = [task(1, 4, 5), task(2, 6, 10)];
    say(&rt, 1, &[], full, true, true)?;
    say(&rt, 1, &[full], full, false, false)?;
    say(&rt, 60, &both[0..1], both[1], true, true)?;
    say(&rt, 60, &both, task(4, 12, 12), true, true)?;
    say(&rt, 60, &both, task(5, 12, 12), false, true)?;
    say(&rt, 60, &[], task(1, 6, 5), true, false)?;
    say(&rt, 5, &[task(3, 10, 5)], task(3, 20, 5), false, false)?;
    say(&rt, 60, &[], task(1, 7, 7), false, true)
}

// Cost 1: only exact has room for the raised works, so either does.
#[test]
fn switch_costs(rt: HostRuntime) -> Result<(), Fail> {
    let row = [task(1, 4, 5)];
    let asked = task(2, 6, 10);
    assert!(rt; !Surcharge::new(Linear::new(60)?, 1)?.fits(&row, asked));
    assert!(rt; Surcharge::new(Exact, 1)?.fits(&row, asked));
    let either = Either {
        first: Linear::new(60)?,
        second: Exact,
    };
    assert!(rt; either.fits(&row, asked));
    let dear = Surcharge::new(either, 1)?;
    assert!(rt; dear.fits(&row, asked));
    assert!(rt; dear.fits(&[], task(3, 4, 60)));
    assert!(rt; !dear.fits(&[], task(4, 4, 60)));
    assert!(rt; !dear.fits(&[], task(5, 8, 5)));
    assert!(rt; !dear.fits(&[], task(0, 4, 60)));
    assert!(rt; !dear.fits(&[task(4, 4, 60)], task(1, 60, 60)));
    assert!(rt; Surcharge::new(dear, 1)?.fits(&[], task(2, 4, 60)));
    Ok(())
}

// A row may have 31 tasks, and no more.
#[test]
fn long_rows(rt: HostRuntime) -> Result<(), Fail> {
    let row = [task(1, 128, 128); 32];
    say(&rt, 128, &row[0..31], row[31], true, true)?;
    say(&rt, 128, &row, row[31], false, false)?;
    let free = Surcharge::new(Exact, 0)?;
    assert!(rt; free.fits(&row[0..31], row[31]));
    assert!(rt; !free.fits(&row, row[31]));
    Ok(())
}

// Limits near the longest, and a lane that is used to the last slot.
#[test]
fn long_limits(rt: HostRuntime) {
    let row = [task(30_000, 1_048_576, 1_048_576); 31];
    let longest = 1_048_576;
    assert!(rt; Exact.fits(&row, task(118_576, longest, longest)));
    assert!(rt; !Exact.fits(&row, task(118_577, longest, longest)));
    let busy = [task(1, 3, 3), task(1, 1_048_573, 1_048_573)];
    assert!(rt; Exact.fits(&busy, task(699_048, longest, longest)));
    assert!(rt; !Exact.fits(&busy, task(699_049, longest, longest)));
}

// A bound kept and then broken by one: asked alone, and in the row above a task that wants next to nothing.
fn keeps(rt: &impl Abort, kept: TaskRecord, broken: TaskRecord) -> Result<(), Fail> {
    let test = Either {
        first: Linear::new(16_777_216)?,
        second: Exact,
    };
    let little = task(1, 1_048_576, 16_777_216);
    assert!(rt; test.fits(&[], kept));
    assert!(rt; !test.fits(&[], broken));
    assert!(rt; test.fits(&[kept], little));
    assert!(rt; !test.fits(&[broken], little));
    Ok(())
}

#[test]
fn bounds(rt: HostRuntime) -> Result<(), Fail> {
    keeps(&rt, task(1, 4, 4), task(0, 4, 4))?;
    keeps(&rt, task(4, 4, 8), task(5, 4, 8))?;
    let widest = 16_777_216;
    keeps(&rt, task(1, 1, widest), task(1, 1, 16_777_217))?;
    keeps(&rt, task(1, 1_048_576, widest), task(1, 1_048_577, widest))?;
    keeps(&rt, task(1, 16, 4), task(1, 17, 4))?;
    say(&rt, 4, &[], task(4, 8, 4), true, false)?;
    say(&rt, 4, &[], task(5, 8, 4), false, false)?;
    say(&rt, 4, &[], task(1, 0, 0), false, false)?;
    let most = u32::MAX;
    say(&rt, 4, &[], task(most, most, most), false, false)
}

// The number and the place of a refusal. Each layer's faults are a type of their own, and so is this in each crate of tests.
fn refused<T: Drop>(rt: &impl Abort, test: Result<T, ListFault>, place: usize) -> Result<(), Fail> {
    let fault = test.err().ok_or("a setting that is not refused")?;
    assert_eq!(rt; fault.number(), 7);
    assert_eq!(rt; fault.place(), place);
    Ok(())
}

#[test]
fn settings(rt: HostRuntime) -> Result<(), Fail> {
    refused(&rt, Linear::new(0), 0)?;
    refused(&rt, Linear::new(16_777_217), 0)?;
    refused(&rt, Surcharge::new(Exact, 1_001), 2)?;
    assert_eq!(rt; Linear::new(1)?.grid(), 1);
    assert_eq!(rt; Linear::new(16_777_216)?.grid(), 16_777_216);
    assert_eq!(rt; Surcharge::new(Exact, 0)?.cost(), 0);
    assert_eq!(rt; Surcharge::new(Exact, 1_000)?.cost(), 1_000);
    Ok(())
}
