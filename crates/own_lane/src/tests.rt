// The test in use: each task gets a lane of its own, until there is none.
use crate::OwnLane;
use plan::fault::PlanFault;
use plan::place::place;
use tasks::fault::ListFault;
use tasks::list::TaskList;
use tasks::record::TaskRecord;

fn filled(list: &mut TaskList, count: u32) -> Result<(), ListFault> {
    list.start(60, 2)?;
    for _ in 0..count {
        list.add(TaskRecord {
            work: 5,
            limit: 6,
            gap: 10,
        })?;
    }
    Ok(())
}

#[test]
fn each_task_has_a_lane_of_its_own(rt: HostRuntime) {
    let mut list = TaskList::new();
    assert!(rt; filled(&mut list, 2).is_ok());
    let mut lanes = [9; 2];
    assert!(rt; place(&list, &OwnLane, &mut lanes).is_ok());
    assert_eq!(rt; lanes, [0, 1]);
}

#[test]
fn a_third_task_finds_no_lane(rt: HostRuntime) {
    let mut list = TaskList::new();
    assert!(rt; filled(&mut list, 3).is_ok());
    let mut lanes = [9; 3];
    assert_eq!(rt;
        place(&list, &OwnLane, &mut lanes),
        Err(PlanFault::NoFit(2))
    );
    assert_eq!(rt; lanes, [9, 9, 9]);
}
