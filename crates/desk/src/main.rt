// The desk: keeps one board and updates it report by report. It reads its input in pieces, hands each to the proved desk, and writes what that puts.

#![tactic(auto)]

ghost use Rattle.std.specs.Prelude.{◌≤◌, length};

use desktext::{Standing, State, feed, finish, start};
use std::io::{self, Read};

const PIECE: usize = 4096;

// No line is answered by more than 11 bytes, so no piece by more than this.
const ROOM: usize = 45056;

// A last line's answer and eight rows.
const LAST_ROOM: usize = 1195;

// The state after a piece whose answers are written.
fn take_piece(rt: &impl Print, before: State, piece: &[u8]) -> io::Result<State>
    requires { length piece.now ≤ 4096 }
{
    let mut text = [0; ROOM];
    let fed = feed(before, piece, &mut text, 0);
    rt.write_all(&text[..fed.behind])?;
    Ok(fed.state)
}

fn end(rt: &impl Print, state: State) -> io::Result<()> {
    let mut text = [0; LAST_ROOM];
    let n = finish(state, &mut text, 0);
    rt.write_all(&text[..n])
}

// The desk stops at the end of its input, when its opening was refused, and when nothing can be read or written any more. A proved loop has to
// end, and nothing says that the input does: it has more turns than any run uses up.
fn main(rt: HostRuntime) -> io::Result<()> {
    let mut input = rt.stdin();
    let mut piece = [0; PIECE];
    let mut state = start();
    for _ in 0..u64::MAX {
        let n = input.read(&mut piece)?;
        if n == 0 {
            return end(&rt, state);
        }
        state = take_piece(&rt, state, &piece[..n])?;
        if let Standing::Over = state.standing {
            return Ok(());
        }
    }
    Ok(())
}
