// A sheet text on standard input; on standard output the merged text, or the row and the line that refuse it.
//
// It ends with status 0 also where reading or writing fails: a line on standard error says so.
#![tactic(auto)]

ghost use Rattle.std.specs.Prelude.{◌≤◌, length, IfOk};

use std::io;
use std::io::{Read, Stderr, Stdin, Write};

// One byte more than a text may have, so that a longer input shows.
const BYTES: usize = model::Model::BYTES + 1;

// Reads until the input ends or the bytes are full, and says how many were read.
fn read_all(mut stdin: Stdin, bytes: &mut [u8]) -> io::Result<usize>
    ensures { IfOk result (λ n. n ≤ length bytes.new) }
{
    let mut n = 0;
    // Stays a while: how far a round goes is what the read answers.
    while n < bytes.len() {
        let more = stdin.read(&mut bytes[n..])?;
        if more == 0 {
            break;
        }
        n += more;
    }
    Ok(n)
}

// What is lost where standard error takes no line is lost.
fn say(mut stderr: Stderr, line: &[u8]) {
    let _lost = stderr.write_all(line);
}

fn main(rt: HostRuntime) {
    let mut bytes = [0u8; BYTES];
    let Ok(n) = read_all(rt.stdin(), &mut bytes) else {
        say(rt.stderr(), b"linearize: a read failed\n");
        return;
    };
    let printed = merge_output::output(&bytes[..n]);
    if rt
        .stdout()
        .write_all(&printed.bytes[..printed.length])
        .is_err()
    {
        say(rt.stderr(), b"linearize: a write failed\n");
    }
}
