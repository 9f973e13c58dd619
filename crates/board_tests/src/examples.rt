// The board by example: its calls, their answers and their refusals.
use board::board::Board;
use board::fault::BoardFault;
use fit::either::Either;
use fit::exact::Exact;
use fit::linear::Linear;
use std::process::Abort;
use std::test::Fail;
use tasks::fault::ListFault;
use tasks::list::TaskList;
use tasks::record::TaskRecord;

const CLOCK_END: u64 = 1_099_511_627_776;

// The number and the place of a refusal, as two arguments: in a list of calls they read better than pairs. Each layer's faults are a type
// of their own, and so is this in each crate of tests.
fn refused<T: Drop>(
    rt: &impl Abort,
    answer: Result<T, BoardFault>,
    number: u32,
    place: u64,
) -> Result<(), Fail> {
    let fault = answer.err().ok_or("accepted")?;
    assert_eq!(rt; fault.number(), number);
    assert_eq!(rt; fault.place(), place);
    Ok(())
}

// The office's tasks on two lanes: lock, journal, and one without a name.
fn office(list: &mut TaskList) -> Result<(), ListFault> {
    list.start(60, 2)?;
    list.add(TaskRecord {
        work: 2,
        limit: 6,
        gap: 10,
    })?;
    list.add(TaskRecord {
        work: 1,
        limit: 4,
        gap: 5,
    })?;
    list.add(TaskRecord {
        work: 5,
        limit: 12,
        gap: 12,
    })
}

fn set_up(board: &mut Board, plan: &[u8], start: u64) -> Result<(), BoardFault> {
    let mut list = TaskList::new();
    office(&mut list)?;
    board.set_up(
        &list,
        plan,
        start,
        &Either {
            first: Linear::new(60)?,
            second: Exact,
        },
    )
}

#[test]
fn a_board_that_no_set_up_has_filled(rt: HostRuntime) -> Result<(), Fail> {
    let mut board = Board::new();
    assert_eq!(rt; board.clock(), 0);
    refused(&rt, board.waiting(0), 13, 0)?;
    refused(&rt, board.post(0), 13, 0)?;
    refused(&rt, board.serving(0), 17, 0)?;
    assert_eq!(rt; board.begin(), Ok(0));
    assert_eq!(rt; board.serving(0), Ok(None));
    refused(&rt, board.serving(1), 11, 1)?;
    assert_eq!(rt; board.end(0), Ok(0));
    assert_eq!(rt; board.clock(), 1);
    Ok(())
}

#[test]
fn the_clocks_end(rt: HostRuntime) -> Result<(), Fail> {
    let mut board = Board::new();
    assert!(rt; set_up(&mut board, &[0, 0, 0], CLOCK_END).is_ok());
    refused(&rt, board.begin(), 19, CLOCK_END)?;
    assert!(rt; board.post(0).is_ok());
    refused(
        &rt,
        set_up(&mut board, &[0, 0, 0], CLOCK_END + 1),
        19,
        CLOCK_END + 1,
    )?;
    refused(&rt, set_up(&mut board, &[0, 0], CLOCK_END + 1), 10, 2)?;
    assert_eq!(rt; board.waiting(0), Ok(1));
    Ok(())
}

#[test]
fn codes_come_in_their_order(rt: HostRuntime) -> Result<(), Fail> {
    let mut board = Board::new();
    assert!(rt; set_up(&mut board, &[0, 0, 1], 0).is_ok());
    assert_eq!(rt; board.post(1), Ok(4));
    refused(&rt, board.post(1), 14, 5)?;
    refused(&rt, board.end(0), 17, 0)?;
    assert_eq!(rt; board.begin(), Ok(1));
    refused(&rt, board.begin(), 16, 0)?;
    refused(&rt, board.post(0), 16, 0)?;
    refused(&rt, board.post(3), 13, 3)?;
    refused(&rt, board.end(2), 18, 1)?;
    refused(&rt, board.end(128), 18, 7)?;
    assert_eq!(rt; board.serving(0), Ok(Some(1)));
    assert_eq!(rt; board.end(0), Ok(1));
    assert_eq!(rt; board.clock(), 1);
    Ok(())
}
