// The program `settle`: reads a sheet from standard input, lets it come to rest, and prints it with the two lines of
// the ledger, or prints a refusal. What it prints for an input is `settle_program::run`; here is the reading and the writing.
#![tactic(auto)]

ghost use Rattle.std.specs.Prelude.{◌≡◌, ◌≤◌, length, IfOk};

use model::MOST_PRINTED;
use std::io;
use std::io::{Read, Write};

// reads until the buffer is full or the input ends, and answers how many bytes there are
fn read_input<R: Read>(reader: &mut R, buf: &mut [u8]) -> io::Result<usize>
    ensures within { IfOk result (λ n. n ≤ length buf.new) }
    ensures same_length { length buf.new ≡ length buf.old }
{
    let mut done: usize = 0;
    // a loop: `read_to_end` needs memory, and `read_exact` takes no shorter input
    while done < buf.len() {
        let n = reader.read(&mut buf[done..])?;
        if n == 0 {
            break;
        }
        done += n;
    }
    Ok(done)
}

fn main(rt: HostRuntime) -> io::Result<()> {
    let mut input = [0u8; 32769];
    let mut reader = rt.reader();
    match read_input(&mut reader, &mut input) {
        Err(_) => eprintln!(rt; "settle: the input could not be read"),
        Ok(n) => {
            let mut out = [0u8; MOST_PRINTED];
            let k = settle_program::run(&input[..n], &mut out);
            let mut writer = io::writer(&rt);
            match writer.write_all(&out[..k]) {
                Err(_) => eprintln!(rt; "settle: the output could not be written"),
                Ok(()) => Ok(()),
            }
        }
    }
}
