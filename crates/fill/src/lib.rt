// Texts and numbers put into the rest of a buffer.
// stays: may not change: `put` and the others are promised of a buffer and a place in it, as document 01 has its writers.

#![tactic(auto)]

ghost use Rattle.std.specs.Prelude.{◌≡◌, ℕ, ◌+◌, ◌%◌, ◌<◌, ◌≤◌, ◌||◌, leb, List, [], ◌∷◌, length};
ghost use Rattle.std.specs.Fn.{FnOnceReturnsAtMut};
ghost use Rattle.std.proofs.lemmas.List.Edits.{sets};
ghost use Rattle.text.specs.Piece.{canonical};
ghost use Rattle.text.specs.Numbers.{digits, number};
ghost use Rattle.text.specs.Put.{Put, told};
ghost use Rattle.fill.specs.Code.Writes.{Writes};

use text::place;

// Places are told so far past the buffer's end.
const PAST_END: usize = 65536;

// The place `n` bytes behind `at`, or the farthest that is told.
pub fn told_behind(out: &[u8], at: usize, n: usize) -> usize
    ensures { result ≡ told out.now (at + n) }
{
    at.saturating_add(n).min(out.len() + PAST_END)
}

// Stores `t` from `at` on; there is room for it.
fn store_whole(out: &mut [u8], at: usize, t: &[u8])
    requires { at + length t.now ≤ length out.old }
    ensures { out.new ≡ sets out.old at t.now }
{
    // not `copy_from_slice`: most texts have a few bytes, which a call costs more than
    for (i, &b) in t.iter().enumerate() {
        out[at + i] = b;
    }
}

// Puts the part of `t` that there is room for: not all of it.
fn put_part(out: &mut [u8], at: usize, t: &[u8]) -> usize
    requires { length out.old < at + length t.now }
    ensures { Put at t.now out.old out.new result }
{
    let behind = told_behind(out, at, t.len());
    if at < out.len() {
        let room = out.len() - at;
        store_whole(out, at, &t[..room]);
    }
    behind
}

// Puts `t` into the buffer from `at` on, as far as the buffer goes, and answers the place behind it. A text that fits, as nearly all do, takes two
// tests and no call.
pub fn put(out: &mut [u8], at: usize, t: &[u8]) -> usize
    ensures { Put at t.now out.old out.new result }
{
    if at <= out.len() && t.len() <= out.len() - at {
        store_whole(out, at, t);
        return at + t.len();
    }
    put_part(out, at, t)
}

fn digit_byte(x: u32) -> u8
    ensures { result ≡ x % 10 + 48 }
{
    (x % 10 + 48) as u8
}

// Stores the last `n` digits of `x`, the last of them first.
fn store_digits(out: &mut [u8], at: usize, n: u8, x: u32)
    ensures { out.new ≡ sets out.old at (canonical (digits n x)) }
{
    if out.len() <= at {
        return;
    }
    let mut y = x;
    for k in (0..n).rev() {
        let j = at + k as usize;
        if j < out.len() {
            out[j] = digit_byte(y);
        }
        y /= 10;
    }
}

// Puts the last `n` digits of `x`, and answers the place behind them.
pub fn put_digits(out: &mut [u8], at: usize, n: u8, x: u32) -> usize
    ensures { Put at (canonical (digits n x)) out.old out.new result }
{
    let behind = told_behind(out, at, n as usize);
    store_digits(out, at, n, x);
    behind
}

// Puts a number below 100: one digit, two from 10 on.
pub fn put_number(out: &mut [u8], at: usize, n: u8) -> usize
    ensures { Put at (canonical (number 1 n)) out.old out.new result }
{
    let count = if n < 10 { 1 } else { 2 };
    put_digits(out, at, count, n as u32)
}

// Lends the rest of the buffer from `at` on to a writer, which answers how many bytes it filled, and tells the place behind them: the text that the
// writer puts at the front of whatever it is lent stands at `at`.
pub fn in_rest<F: FnOnce(&mut [u8]) -> usize>(out: &mut [u8], at: usize, write: F) -> usize
    requires { F.IsAlwaysCallable write }
    ensures { (t : List ℕ) → Writes (FnOnceReturnsAtMut F.FnOnce write) t → Put at t out.old out.new result }
{
    let start = place(out, at);
    let n = write(&mut out[start..]);
    told_behind(out, at, n)
}

// The same in a new line, under the text that ends at `at`.
pub fn line_under<F: FnOnce(&mut [u8]) -> usize>(out: &mut [u8], at: usize, write: F) -> usize
    requires { F.IsAlwaysCallable write }
    ensures { (t : List ℕ) → Writes (FnOnceReturnsAtMut F.FnOnce write) t → Put at (10 ∷ t) out.old out.new result }
{
    let line = put(out, at, b"\n");
    in_rest(out, line, write)
}

// How many bytes the text of a writer has, as far as a buffer of one byte tells.
fn text_size<F: FnOnce(&mut [u8]) -> usize>(write: F) -> usize
    requires { F.IsAlwaysCallable write }
    ensures { (t : List ℕ) → Writes (FnOnceReturnsAtMut F.FnOnce write) t → result ≡ told (0 ∷ []) (length t) }
{
    // places are told past the end of any buffer, so that one byte is enough to measure in
    write(&mut [0; 1])
}

// The text of a writer fits into so many bytes: the longest that it can be is known, and only a shorter room is measured against the text. Of a
// text that is longer all the same, or too long to be told, the answer is what these two tests say.
#[tactic(auto, using(crate::proofs::Steps::byte_tells))]
pub fn has_room<F: FnOnce(&mut [u8]) -> usize>(room: usize, longest: usize, write: F) -> bool
    requires { F.IsAlwaysCallable write }
    ensures fits { (t : List ℕ) → Writes (FnOnceReturnsAtMut F.FnOnce write) t → length t ≤ longest → longest ≤ 65536 → result ≡ leb (length t) room }
    ensures always { (t : List ℕ) → Writes (FnOnceReturnsAtMut F.FnOnce write) t → result ≡ (leb longest room || leb (told (0 ∷ []) (length t)) room) }
{
    longest <= room || text_size(write) <= room
}
