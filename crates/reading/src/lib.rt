// What the programs read from standard input.
#![tactic(auto)]

ghost use Rattle.std.specs.Prelude.{◌≤◌, length, IfOk};

use std::io::{self, Read};

// Reads until the buffer is full or the input ends, and answers how many bytes came. A `while`: each turn takes as many bytes as come, so there is no index to go over.
pub fn read_full<R: Read>(from: &mut R, buf: &mut [u8]) -> io::Result<usize>
    ensures { IfOk result (λ size. size ≤ length buf.new) }
{
    let mut size = 0;
    while size < buf.len() {
        let more = from.read(&mut buf[size..])?;
        if more == 0 {
            break;
        }
        size += more;
    }
    Ok(size)
}
