// Lists with their plans, and plans with their faults.
use fit::either::Either;
use fit::exact::Exact;
use fit::linear::Linear;
use plan::check::check as check_plan;
use plan::fault::PlanFault;
use plan::place::place;
use std::process::Abort;
use std::test::Fail;
use tasks::fault::ListFault;
use tasks::list::TaskList;
use tasks::record::TaskRecord;

const GRID: u32 = 60;

// Shorter than the literal, for the tables. Each crate of tests has its own: `tasks` offers no such call, since three numbers in a row are easily swapped.
fn task(work: u32, limit: u32, gap: u32) -> TaskRecord {
    TaskRecord { work, limit, gap }
}

// The tasks of the example sheet: under linear the third only fits on lane 1, under exact also on lane 0.
fn office() -> [TaskRecord; 3] {
    [task(2, 6, 10), task(1, 4, 5), task(5, 12, 12)]
}

// A list of these tasks.
fn list_of(lanes: u8, tasks: &[TaskRecord]) -> Result<TaskList, Fail> {
    let mut list = TaskList::new();
    list.start(GRID, lanes)?;
    for numbers in tasks {
        list.add(*numbers)?;
    }
    Ok(list)
}

// The number and the place of a refusal.
type Refusal = (u32, usize);

// The answer is this refusal, or none.
fn answered(rt: &impl Abort, answer: Result<(), PlanFault>, wanted: Option<Refusal>) {
    let found = answer.err().map(|fault| (fault.number(), fault.place()));
    assert_eq!(rt; found, wanted);
}

// Linear places the tasks so, and the check passes what was placed.
fn placed(rt: &impl Abort, lanes: u8, tasks: &[TaskRecord], wanted: &[u8]) -> Result<(), Fail> {
    let test = Linear::new(GRID)?;
    let list = list_of(lanes, tasks)?;
    // An array with room for four: tests are handed no allocator here.
    let mut bytes = [9; 4];
    assert!(rt; wanted.len() <= 4);
    let plan = &mut bytes[0..wanted.len()];
    answered(rt, place(&list, &test, plan), None);
    answered(rt, check_plan(&list, plan, &test), None);
    assert!(rt; *plan == *wanted);
    Ok(())
}

// Linear refuses to place the tasks, and the plan stays.
fn not_placed(
    rt: &impl Abort,
    lanes: u8,
    tasks: &[TaskRecord],
    number: u32,
    at: usize,
) -> Result<(), Fail> {
    let test = Linear::new(GRID)?;
    let mut plan = [9; 3];
    answered(
        rt,
        place(&list_of(lanes, tasks)?, &test, &mut plan),
        Some((number, at)),
    );
    assert!(rt; plan == [9; 3]);
    Ok(())
}

// What the check says to a plan that was made by hand, under linear and under linear or exact.
fn checked(
    rt: &impl Abort,
    tasks: &[TaskRecord],
    plan: &[u8],
    linear: Option<Refusal>,
    either: Option<Refusal>,
) -> Result<(), Fail> {
    let list = list_of(2, tasks)?;
    let first = Linear::new(GRID)?;
    answered(rt, check_plan(&list, plan, &first), linear);
    let test = Either {
        first,
        second: Exact,
    };
    answered(rt, check_plan(&list, plan, &test), either);
    Ok(())
}

#[test]
fn places(rt: HostRuntime) -> Result<(), Fail> {
    placed(&rt, 2, &office(), &[0, 0, 1])?;
    placed(&rt, 4, &[], &[])?;
    let full = task(1, 1, 1);
    placed(&rt, 4, &[full; 4], &[0, 1, 2, 3])?;
    // equal limits: the lower number goes first
    placed(&rt, 2, &[task(3, 6, 6), task(4, 6, 6)], &[0, 1])?;
    placed(&rt, 2, &[task(4, 6, 6), task(3, 6, 6)], &[0, 1])
}

// As many tasks as a list may have: thirty fill the first lane.
#[test]
fn places_a_full_list(rt: HostRuntime) -> Result<(), Fail> {
    let test = Linear::new(GRID)?;
    let list = list_of(2, &[task(1, 60, 60); 32])?;
    let mut plan = [9; 32];
    answered(&rt, place(&list, &test, &mut plan), None);
    assert!(rt; plan[0] == 0 && plan[29] == 0 && plan[30] == 1 && plan[31] == 1);
    Ok(())
}

#[test]
fn places_nothing(rt: HostRuntime) -> Result<(), Fail> {
    not_placed(&rt, 1, &office(), 12, 2)?;
    not_placed(&rt, 2, &[task(1, 1, 1); 3], 12, 2)?;
    // the tight task goes first, so the first task is the one that finds no lane
    not_placed(
        &rt,
        1,
        &[task(2, 2, 2), task(1, 1, 1), task(1, 60, 60)],
        12,
        0,
    )?;
    not_placed(&rt, 2, &office()[0..2], 10, 3)?;
    not_placed(&rt, 2, &[], 10, 3)
}

#[test]
fn checks(rt: HostRuntime) -> Result<(), Fail> {
    checked(&rt, &office(), &[0, 0, 1], None, None)?;
    checked(&rt, &office(), &[1, 0, 1], None, None)?;
    checked(&rt, &office(), &[0, 0, 0], Some((12, 2)), None)?;
    checked(&rt, &[], &[], None, None)?;
    checked(&rt, &office(), &[0, 0], Some((10, 2)), Some((10, 2)))?;
    checked(&rt, &office(), &[0, 0, 1, 1], Some((10, 4)), Some((10, 4)))?;
    checked(&rt, &[], &[0], Some((10, 1)), Some((10, 1)))?;
    checked(&rt, &office(), &[0, 2, 255], Some((11, 1)), Some((11, 1)))?;
    checked(&rt, &office(), &[0, 0, 2], Some((11, 2)), Some((11, 2)))
}

// Of several tasks that do not fit, the first in order is named.
#[test]
fn names_the_first_in_order(rt: HostRuntime) -> Result<(), Fail> {
    let full = task(1, 1, 1);
    checked(&rt, &[full; 3], &[1, 1, 0], Some((12, 1)), Some((12, 1)))?;
    checked(&rt, &[full; 3], &[0, 1, 0], Some((12, 2)), Some((12, 2)))?;
    checked(
        &rt,
        &[task(3, 3, 3), task(2, 2, 2), full],
        &[0, 0, 0],
        Some((12, 1)),
        Some((12, 1)),
    )
}
