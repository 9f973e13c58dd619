// The bytes of an input, up to a most.
ghost use Rattle.std.specs.Prelude.{◌≡◌, ◌≤◌, length, take, vec_len, IfOk, IfSome};
ghost use Rattle.std.specs.Io.KnownBytes.{Consumes};

use std::alloc::Global;
use std::io;
use std::io::Read;

// Fills the buffer from the input, as far as the input goes, and says how far.
// No `read_to_end`: its first read asks for less than may still come, and cuts a message of a socket that keeps its messages whole;
// and it goes on after a read that was interrupted, which here is an error.
fn fill<R: Read>(input: &mut R, buffer: &mut [u8]) -> io::Result<usize>
    ensures within { IfOk result (λ filled. filled ≤ length buffer.new) }
    ensures bytes { IfOk result (λ filled. IfSome (R.Read.remaining input.old) (λ all. take filled buffer.new ≡ take (length buffer.new) all)) }
    ensures rest { IfOk result (λ filled. Consumes (R.Read.remaining input.old) (R.Read.remaining input.new) (take filled buffer.new)) }
{
    let mut filled = 0;
    while filled < buffer.len() {
        let count = input.read(&mut buffer[filled..])?;
        if count == 0 {
            break;
        }
        filled += count;
    }
    Ok(filled)
}

// The first bytes that the input has, at most so many. The rest stays in it.
pub fn first_bytes<R: Read>(heap: Global, input: &mut R, most: usize) -> io::Result<Vec<u8>>
    ensures within { IfOk result (λ bytes. vec_len bytes ≤ most) }
    ensures bytes { IfOk result (λ bytes. IfSome (R.Read.remaining input.old) (λ all. bytes.items ≡ take most all)) }
    ensures rest { IfOk result (λ bytes. Consumes (R.Read.remaining input.old) (R.Read.remaining input.new) bytes.items) }
{
    let mut bytes = vec![in heap; 0; most]?;
    let filled = fill(input, bytes.as_mut_slice())?;
    bytes.truncate(filled);
    Ok(bytes)
}
