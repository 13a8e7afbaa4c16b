// Bytes read until there is no more room for them, or there are no more.
#![tactic(auto)]

ghost use Rattle.std.specs.Io.{ReadsAtMost};

use std::io;
use std::io::Read;

// Fills the lent bytes from the front, as far as what is read goes; how many there are. A read that fails ends it with
// its error.
pub fn fill(from: &mut impl Read, into: &mut [u8]) -> io::Result<usize>
    ensures { ReadsAtMost result into.new }
{
    let mut done = 0;
    // The step is as long as what was read.
    while done < into.len() {
        let n = from.read(&mut into[done..])?;
        if n == 0 {
            break;
        }
        done += n;
    }
    Ok(done)
}
