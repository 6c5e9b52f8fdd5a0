// The program: requests from standard input, answers to standard output. What is written is decided in `replay`; here
// is only input and output.
#![tactic(auto)]

ghost use Rattle.std.specs.Prelude.{◌*◌, ◌≤◌, length, take};
ghost use Rattle.std.specs.Io.KnownBytes.{Consumes};
ghost use Rattle.replay.specs.Reply.{longest};
ghost use Rattle.desk.specs.Limits.{more};

use replay::LONGEST;
use std::io::Read;

// How many bytes are read, with those that are kept.
const MOST_BYTES: usize = 1_048_576;

// How many times as much again is read, only to be counted.
const MORE: usize = MOST_BYTES / LONGEST - 1;

// Reads until the buffer is full, the input ends or a read fails; answers how many bytes came. They stand at its start.
fn read_full<R: Read>(input: &mut R, buffer: &mut [u8]) -> usize
    ensures within { result ≤ length buffer.old }
    ensures bytes { Consumes (R.remaining input.old) (R.remaining input.new) (take result buffer.new) }
{
    // No `read_exact`: it doesn't say how many bytes came where the input ends before the buffer is full.
    let mut done = 0;
    while done < buffer.len() {
        match input.read(&mut buffer[done..]) {
            Ok(0) | Err(_) => break,
            Ok(n) => done += n,
        }
    }
    done
}

// Reads on, and answers how many bytes came: fewer than a run takes only where the input ends or a read fails.
fn read_on(input: &mut impl Read) -> usize
    ensures { result ≤ longest }
{
    let mut passed = [0u8; LONGEST];
    read_full(input, &mut passed)
}

// How many bytes the input has past those that are kept, as far as they are counted.
fn count_rest(input: &mut impl Read) -> usize
    ensures { result ≤ more * longest }
{
    let mut counted = 0;
    for _ in 0..MORE {
        let got = read_on(input);
        counted += got;
        if got < LONGEST {
            break;
        }
    }
    counted
}

fn main(rt: HostRuntime) {
    let mut input = rt.stdin();
    let mut kept = [0u8; LONGEST];
    let n = read_full(&mut input, &mut kept);
    let rest = if n == LONGEST {
        count_rest(&mut input)
    } else {
        0
    };
    let mut out = [0u8; LONGEST];
    let length = replay::reply(&kept[..n], n + rest, &mut out);
    if rt.stdout().write_all(&out[..length]).is_err() {
        let _ = rt
            .stderr()
            .write_all(b"desk: the answers could not be written\n");
    }
}
