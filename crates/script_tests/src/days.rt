// Inputs, and what is printed for them.
use script::day::replay;
use std::alloc::Global;
use std::process::Abort;
use std::test::Fail;

// The first heading, with the example sheet.
const SHEET: &[u8] =
    b"sheet 0100370000003c021000000002000000060000000a6c6f636b130000000100000004000000056a6f75726e616c0c000000050000000c0000000c\n";

// This is printed for the example sheet and then these lines.
fn prints(rt: &impl Abort, heap: Global, lines: &[u8], wanted: &[u8]) -> Result<(), Fail> {
    let mut input = Vec::new(heap);
    input.extend_from_slice(SHEET)?;
    input.extend_from_slice(lines)?;
    let text = replay(heap, input.as_slice())?;
    assert!(rt; text.as_slice() == wanted);
    Ok(())
}

#[test]
fn headings_that_are_missing(rt: HostRuntime) -> Result<(), Fail> {
    let heap = rt.alloc();
    let text = replay(heap, b"")?;
    assert!(rt; text.as_slice() == b"line 1 is not understood\n".as_slice());
    prints(&rt, heap, b"", b"line 2 is not understood\n")?;
    prints(&rt, heap, b"plan auto\n", b"line 3 is not understood\n")?;
    prints(
        &rt,
        heap,
        b"plan auto\nfit exact 0",
        b"line 4 is not understood\n",
    )?;
    prints(
        &rt,
        heap,
        b"fit exact 0\nplan auto\nstart 0",
        b"line 2 is not understood\n",
    )
}

#[test]
fn headings_that_are_misspelt(rt: HostRuntime) -> Result<(), Fail> {
    let heap = rt.alloc();
    let text = replay(heap, b"sheet 0\n")?;
    assert!(rt; text.as_slice() == b"line 1 is not understood\n".as_slice());
    prints(&rt, heap, b"plan 0g\n", b"line 2 is not understood\n")?;
    prints(
        &rt,
        heap,
        b"plan auto\nfit  exact 0\n",
        b"line 3 is not understood\n",
    )?;
    prints(
        &rt,
        heap,
        b"plan auto\nfit exact 4294967296\n",
        b"line 3 is not understood\n",
    )?;
    prints(
        &rt,
        heap,
        b"plan auto\nfit exact 0\nstart 18446744073709551616\n",
        b"line 4 is not understood\n",
    )?;
    prints(
        &rt,
        heap,
        b"plan auto\nfit exact 0\nstart \n",
        b"line 4 is not understood\n",
    )
}

#[test]
fn boards_that_are_not_set_up(rt: HostRuntime) -> Result<(), Fail> {
    let heap = rt.alloc();
    let text = replay(heap, b"sheet \nplan \nfit exact 1001\nstart 0\n")?;
    assert!(rt; text.as_slice() == b"set up = refused 1 0\n".as_slice());
    prints(
        &rt,
        heap,
        b"plan \nfit exact 1001\nstart 0\n",
        b"set up = refused 7 2\n",
    )?;
    prints(
        &rt,
        heap,
        b"plan \nfit exact 0\nstart 0\n",
        b"set up = refused 10 0\n",
    )?;
    prints(
        &rt,
        heap,
        b"plan 000003\nfit exact 0\nstart 0\n",
        b"set up = refused 11 2\n",
    )?;
    prints(
        &rt,
        heap,
        b"plan 000000\nfit linear 0\nstart 0\n",
        b"set up = refused 12 2\n",
    )?;
    prints(
        &rt,
        heap,
        b"plan auto\nfit linear 4\nstart 0\n",
        b"set up = refused 12 1\n",
    )?;
    prints(
        &rt,
        heap,
        b"plan 00000A\nfit linear 0\nstart 0\n",
        b"set up = refused 11 2\n",
    )?;
    prints(
        &rt,
        heap,
        b"plan auto\nfit exact 0\nstart 1099511627777\nno call",
        b"set up = refused 19 1099511627777\n",
    )
}

#[test]
fn calls_up_to_one_that_is_not_understood(rt: HostRuntime) -> Result<(), Fail> {
    let heap = rt.alloc();
    prints(
        &rt,
        heap,
        b"plan auto\nfit exact 0\nstart 0\nclock\n\nclock\n",
        b"set up = ok\nclock = 0\nline 6 is not understood\n",
    )?;
    prints(
        &rt,
        heap,
        b"plan auto\nfit exact 0\nstart 0\nend 256\n",
        b"set up = ok\nline 5 is not understood\n",
    )?;
    prints(
        &rt,
        heap,
        b"plan auto\nfit exact 0\nstart 0\nclock\r\n",
        b"set up = ok\nline 5 is not understood\n",
    )?;
    prints(
        &rt,
        heap,
        b"plan auto\nfit exact 0\nstart 0\npost 0001",
        b"set up = ok\npost 0001 = 4\n",
    )
}

#[test]
fn calls_that_are_refused(rt: HostRuntime) -> Result<(), Fail> {
    let heap = rt.alloc();
    prints(
        &rt,
        heap,
        b"plan auto\nfit exact 0\nstart 0\npost 300\nserving 7\nend 1\n",
        b"set up = ok\npost 300 = refused 13 300\nserving 7 = refused 11 7\nend 1 = refused 17 0\n",
    )?;
    prints(
        &rt,
        heap,
        b"plan auto\nfit exact 0\nstart 1099511627776\nbegin\n",
        b"set up = ok\nbegin = refused 19 1099511627776\n",
    )
}
