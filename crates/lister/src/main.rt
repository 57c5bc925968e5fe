// The lister: reads one message from standard input, whole, and prints what `listing` says of it.

#![tactic(auto)]

ghost use Rattle.std.specs.Prelude.{◌≤◌, length, IfOk};

use listing::list;
use std::io::{self, Read};

// A message over 4,096 bytes is refused whatever it says: of a longer input one byte more than that is kept.
const KEPT: usize = 4097;

const ROOM: usize = 8192;

// Reads until `held` is full or the input ends, and answers how many bytes it put.
// stays: no plainer: the lister and the test each have it, since what an input gives no promise of a library could say.
fn read_full(input: &mut impl Read, held: &mut [u8]) -> io::Result<usize>
    ensures { IfOk result (λ n. n ≤ length held.new) }
{
    let mut n = 0;
    while n < held.len() {
        let got = input.read(&mut held[n..])?;
        if got == 0 {
            break;
        }
        n += got;
    }
    Ok(n)
}

// Reads the input to its end, so that the sender is not cut off.
fn read_on(input: &mut impl Read) -> io::Result<()> {
    io::copy(input, &mut io::sink())?;
    Ok(())
}

// No listing is longer than the room.
fn print_listing(rt: &impl Print, message: &[u8]) -> io::Result<()> {
    let mut text = [0; ROOM];
    let n = list(message, &mut text);
    rt.write_all(&text[..n])
}

fn main(rt: HostRuntime) -> io::Result<()> {
    let mut input = rt.stdin();
    let mut held = [0; KEPT];
    let n = read_full(&mut input, &mut held)?;
    if n == KEPT {
        read_on(&mut input)?;
    }
    print_listing(&rt, &held[..n])
}
