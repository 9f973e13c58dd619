// Sheets and lists by example: what is read, and what each damage is refused with.
use sheet::fault::Layer;
use sheet::part::Part;
use std::process::Abort;
use std::test::Fail;
use tasks::fault::ListFault;
use tasks::list::TaskList;
use tasks::order::Rank;
use tasks::read::name;
use tasks::record::TaskRecord;
use tasks::task::Task;

// Three tasks on two lanes with grid 60: lock (2, 6, 10), journal (1, 4, 5) and one without a name (5, 12, 12).
const OFFICE: [u8; 58] = [
    1, 0, 0x37, 0, 0, 0, 60, 2, 0x10, 0, 0, 0, 2, 0, 0, 0, 6, 0, 0, 0, 10, 0x6c, 0x6f, 0x63, 0x6b,
    0x13, 0, 0, 0, 1, 0, 0, 0, 4, 0, 0, 0, 5, 0x6a, 0x6f, 0x75, 0x72, 0x6e, 0x61, 0x6c, 0x0c, 0, 0,
    0, 5, 0, 0, 0, 12, 0, 0, 0, 12,
];

// Shorter than the literal, for the examples. Each crate of tests has its own: `tasks` offers no such call, since three numbers in a row are easily swapped.
fn numbers(work: u32, limit: u32, gap: u32) -> TaskRecord {
    TaskRecord { work, limit, gap }
}

fn task_is(
    rt: &impl Abort,
    list: &TaskList,
    number: usize,
    wanted: TaskRecord,
) -> Result<(), Fail> {
    let Some(task) = list.task(number) else {
        return Err(Fail::new("no such task"));
    };
    assert_eq!(rt; task.numbers(), wanted);
    Ok(())
}

// The number and the place of a refusal, as two arguments: in a list of calls they read better than pairs. Each layer's faults are a type
// of their own, and so is this in each crate of tests.
fn refused(
    rt: &impl Abort,
    answer: Result<(), ListFault>,
    number: u32,
    place: usize,
) -> Result<(), Fail> {
    let fault = answer.err().ok_or("accepted")?;
    assert_eq!(rt; fault.number(), number);
    assert_eq!(rt; fault.place(), place);
    Ok(())
}

// The bytes are refused with this number and place, and the list stays as it was.
fn unreadable(rt: &impl Abort, bytes: &[u8], number: u32, place: usize) -> Result<(), Fail> {
    let mut list = TaskList::new();
    list.start(12, 3)?;
    list.add(numbers(1, 2, 3))?;
    refused(rt, list.read(bytes), number, place)?;
    assert_eq!(rt; list.grid(), 12);
    assert_eq!(rt; list.lanes(), 3);
    assert_eq!(rt; list.len(), 1);
    Ok(())
}

// The office's sheet with another byte at one offset.
fn with_byte(at: usize, byte: u8) -> [u8; 58] {
    let mut sheet = OFFICE;
    if at < 58 {
        sheet[at] = byte;
    }
    sheet
}

// A name of the office's sheet, with the offset of its first byte.
fn named<'a>(bytes: &'a [u8], place: usize) -> Option<Part<'a>> {
    Some(Part { bytes, place })
}

#[test]
fn office_sheet_is_read(rt: HostRuntime) -> Result<(), Fail> {
    let mut list = TaskList::new();
    list.read(&OFFICE)?;
    assert_eq!(rt; list.len(), 3);
    assert_eq!(rt; list.lanes(), 2);
    assert_eq!(rt; list.grid(), 60);
    task_is(&rt, &list, 0, numbers(2, 6, 10))?;
    task_is(&rt, &list, 1, numbers(1, 4, 5))?;
    task_is(&rt, &list, 2, numbers(5, 12, 12))?;
    assert!(rt; list.task(3).is_none());
    assert_eq!(rt; name(&OFFICE, 0)?, named(b"lock", 21));
    assert_eq!(rt; name(&OFFICE, 1)?, named(b"journal", 38));
    assert_eq!(rt; name(&OFFICE, 2)?, None);
    Ok(())
}

#[test]
fn a_name_past_the_last_task_is_refused(rt: HostRuntime) -> Result<(), Fail> {
    let Err(fault) = name(&OFFICE, 3) else {
        return Err(Fail::new("named"));
    };
    assert_eq!(rt; fault.number(), 13);
    assert_eq!(rt; fault.place(), 3);
    assert_eq!(rt; fault.layer(), Layer::Sheet);
    let Err(earlier) = name(&with_byte(0, 2), 3) else {
        return Err(Fail::new("named in a damaged sheet"));
    };
    assert_eq!(rt; earlier.number(), 2);
    Ok(())
}

#[test]
fn damaged_frames_are_refused(rt: HostRuntime) -> Result<(), Fail> {
    unreadable(&rt, b"", 1, 0)?;
    unreadable(&rt, &[2, 0], 1, 2)?;
    unreadable(&rt, &OFFICE[0..57], 1, 57)?;
    unreadable(&rt, &with_byte(0, 2), 2, 0)?;
    unreadable(&rt, &with_byte(2, 0x36), 3, 57)?;
    unreadable(&rt, &[1, 0, 4, 0, 0, 0, 60], 4, 3)?;
    unreadable(&rt, &with_byte(6, 0), 7, 0)?;
    unreadable(&rt, &with_byte(3, 1), 7, 0)?;
    unreadable(&rt, &with_byte(7, 5), 7, 1)?;
    unreadable(&rt, &with_byte(7, 0), 7, 1)
}

#[test]
fn damaged_records_are_refused(rt: HostRuntime) -> Result<(), Fail> {
    unreadable(&rt, &with_byte(8, 11), 4, 8)?;
    unreadable(&rt, &with_byte(25, 33), 4, 25)?;
    unreadable(&rt, &with_byte(45, 13), 4, 45)?;
    unreadable(&rt, &with_byte(22, 0x20), 5, 22)?;
    unreadable(&rt, &with_byte(44, 0x7f), 5, 44)?;
    unreadable(&rt, &with_byte(12, 7), 8, 0)?;
    unreadable(&rt, &with_byte(29, 0), 8, 1)?;
    unreadable(&rt, &with_byte(57, 11), 9, 2)
}

#[test]
fn a_33rd_task_is_refused(rt: HostRuntime) -> Result<(), Fail> {
    // 33 records of task (1, 1, 1), the last with a length byte that would be refused too.
    let mut sheet = [0u8; 437];
    let head: [u8; 8] = [1, 1, 0xb2, 0, 0, 0, 1, 1];
    sheet[0..8].copy_from_slice(&head);
    for record in sheet[8..].chunks_exact_mut(13) {
        record.copy_from_slice(&[12, 0, 0, 0, 1, 0, 0, 0, 1, 0, 0, 0, 1]);
    }
    sheet[424] = 0;
    unreadable(&rt, &sheet, 6, 32)
}

#[test]
fn bounds_of_a_task(rt: HostRuntime) -> Result<(), Fail> {
    assert!(rt; Task::new(numbers(1, 20, 5)).is_some());
    assert!(rt; Task::new(numbers(1, 21, 5)).is_none());
    let mut list = TaskList::new();
    list.start(60, 2)?;
    list.add(numbers(1, 20, 5))?;
    refused(&rt, list.add(numbers(1, 21, 5)), 8, 1)?;
    refused(&rt, list.add(numbers(0, 20, 5)), 8, 1)?;
    refused(&rt, list.add(numbers(6, 20, 5)), 8, 1)?;
    refused(&rt, list.add(numbers(5, 4, 5)), 8, 1)?;
    refused(&rt, list.add(numbers(1, 4, 61)), 8, 1)?;
    refused(&rt, list.add(numbers(1, 4, 7)), 9, 1)?;
    refused(&rt, list.add(numbers(1, 4, 0)), 8, 1)?;
    assert_eq!(rt; list.len(), 1);
    list.start(16_777_216, 4)?;
    list.add(numbers(1, 1_048_576, 16_777_216))?;
    refused(&rt, list.add(numbers(1, 1_048_577, 16_777_216)), 8, 1)?;
    refused(&rt, list.start(16_777_217, 5), 7, 0)?;
    refused(&rt, list.start(1, 5), 7, 1)?;
    assert_eq!(rt; list.len(), 1);
    Ok(())
}

#[test]
fn the_lower_limit_goes_first(rt: HostRuntime) {
    let long = Rank {
        limit: 9,
        number: 0,
    };
    let short = Rank {
        limit: 4,
        number: 2,
    };
    let tie = Rank {
        limit: 4,
        number: 1,
    };
    assert!(rt; short.goes_before(&long));
    assert!(rt; !long.goes_before(&short));
    assert!(rt; tie.goes_before(&short));
    assert!(rt; !short.goes_before(&tie));
    assert!(rt; !tie.goes_before(&tie));
}
