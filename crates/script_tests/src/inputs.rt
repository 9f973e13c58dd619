// The first bytes of an input.
use std::test::Fail;
use words::input::first_bytes;

#[test]
fn the_first_bytes_and_no_more(rt: HostRuntime) -> Result<(), Fail> {
    let mut input: &[u8] = b"abcdef";
    let bytes = first_bytes(rt.alloc(), &mut input, 4)?;
    assert!(rt; bytes.as_slice() == b"abcd".as_slice());
    assert!(rt; input == b"ef".as_slice());
    Ok(())
}

#[test]
fn an_input_that_is_shorter(rt: HostRuntime) -> Result<(), Fail> {
    let mut input: &[u8] = b"abc";
    let bytes = first_bytes(rt.alloc(), &mut input, 65_536)?;
    assert!(rt; bytes.as_slice() == b"abc".as_slice());
    let none = first_bytes(rt.alloc(), &mut input, 4)?;
    assert!(rt; none.is_empty());
    Ok(())
}

#[test]
fn no_byte_asked_for(rt: HostRuntime) -> Result<(), Fail> {
    let mut input: &[u8] = b"abc";
    let bytes = first_bytes(rt.alloc(), &mut input, 0)?;
    assert!(rt; bytes.is_empty());
    Ok(())
}
