// Texts, numbers and runs of bytes, read at a place in a message.
// stays: may not change: `word` and the others are promised of a text and a place in it, as document 01 has its readers.

#![tactic(auto)]

ghost use Rattle.std.specs.Prelude.{◌≡◌, ◌⊎◌, ◌-◌, MatchOption, ◌<◌, ◌≤◌, length, drop, nat_le};
ghost use Rattle.text.specs.Choice.{all, same_bytes};
ghost use Rattle.text.specs.Arrays.{is_zero};
ghost use Rattle.text.specs.Read.{guard, skip, read_word};
ghost use Rattle.text.specs.Numbers.{read_digits};
ghost use Rattle.text.specs.Names.{is_letter, is_name, is_plain_byte, in_class, run, past, read_count, is_space};
ghost use Rattle.text.specs.Code.Held.{Held, Reached, is_got};

use text::{BLOCK, Class, Found, block_passes, each, past, place};

const SPACE: u8 = b' ';

// Eight spaces as one number.
const EIGHT_SPACES: u64 = 0x2020202020202020;

// How many of eight bytes are spaces before the first that is none. They are taken as one number, the first of them the lowest: a space less a
// space leaves eight zeros.
fn leading_spaces(bytes: &[u8; 8]) -> usize
    ensures { result ≡ length (run is_space bytes.now) }
{
    let d = u64::from_le_bytes(*bytes).wrapping_sub(EIGHT_SPACES);
    (d.trailing_zeros() / 8) as usize
}

// Past spaces one by one.
fn last_spaces(s: &[u8], i: usize) -> usize
    ensures { Reached s.now (skip (drop i s.now)) result }
{
    past(s, i, |b| b == SPACE)
}

// Past spaces that are many: by blocks, then by eights, and the last ones before the end one by one.
fn far_spaces(s: &[u8], i: usize) -> usize
    ensures { Reached s.now (skip (drop i s.now)) result }
{
    let mut j = place(s, i);
    // stays: no plainer: both loops step by more than one, and the place is what is wanted
    while block_passes(s, j, |b| b == SPACE) {
        j += BLOCK;
    }
    while let Some(bytes) = s[j..].first_chunk::<8>() {
        let n = leading_spaces(bytes);
        if n < 8 {
            return j + n;
        }
        j += 8;
    }
    last_spaces(s, j)
}

// The first place from `i` on that holds no space. Most gaps are one space wide, which the caller has passed.
pub fn spaces(s: &[u8], i: usize) -> usize
    ensures { Reached s.now (skip (drop i s.now)) result }
{
    if s.len() <= i {
        return s.len();
    }
    if s[i] != SPACE {
        return i;
    }
    let j = i + 1;
    let Some(bytes) = s[j..].first_chunk::<8>() else {
        return last_spaces(s, j);
    };
    let n = leading_spaces(bytes);
    if n < 8 { j + n } else { far_spaces(s, j + 8) }
}

// The value `v` where the text `t` stands at `i`, each of its spaces typed as one or more. Each byte of `t` takes a byte or more, so that what is
// left is measured at the start and behind each gap, and not for every byte.
pub fn word(s: &[u8], i: usize, t: &[u8], v: u32) -> Option<Found>
    ensures { Held s.now (read_word t.now v (drop i s.now)) result }
{
    let mut j = place(s, i);
    if s.len() - j < t.len() {
        return None;
    }
    for (k, &b) in t.iter().enumerate() {
        if s[j] != b {
            return None;
        }
        j += 1;
        if b == SPACE {
            j = spaces(s, j);
            if s.len() - j < t.len() - (k + 1) {
                return None;
            }
        }
    }
    Some(Found { value: v, next: j })
}

fn digit(b: u8) -> Option<u32>
    ensures { MatchOption result ((b < 48) ⊎ (57 < b)) (λ d. (48 ≤ b) × (b ≤ 57) × (d ≡ b - 48)) }
{
    if matches!(b, b'0'..=b'9') {
        Some(u32::from(b - b'0'))
    } else {
        None
    }
}

// The number in `n` digits at `i`; more than nine are none.
pub fn digits(s: &[u8], i: usize, n: usize) -> Option<Found>
    ensures { Held s.now (guard (nat_le n 9) (read_digits n (drop i s.now))) result }
{
    let start = place(s, i);
    if 9 < n || s.len() - start < n {
        return None;
    }
    let mut value = 0;
    for &b in &s[start..start + n] {
        value = value * 10 + digit(b)?;
    }
    Some(Found {
        value,
        next: start + n,
    })
}

fn is_letter(c: u8) -> bool
    ensures { result ≡ is_letter c }
{
    matches!(c, b'A'..=b'Z')
}

fn is_name(c: u8) -> bool
    ensures { result ≡ is_name c }
{
    matches!(c, b'0'..=b'9' | b'A'..=b'Z')
}

// The bytes of plain language lie in three stretches: the space, `+` to `:` with the digits among them, and the letters.
fn is_plain(c: u8) -> bool
    ensures { result ≡ is_plain_byte c }
{
    matches!(c, b' ' | b'+'..=b':' | b'A'..=b'Z')
}

fn in_class(class: Class, c: u8) -> bool
    ensures { result ≡ in_class class c }
{
    match class {
        Class::Letters => is_letter(c),
        Class::Names => is_name(c),
    }
}

// The place behind the longest run of bytes of a class from `i` on.
pub fn run(s: &[u8], i: usize, class: Class) -> usize
    ensures { Reached s.now (past (in_class class) (drop i s.now)) result }
{
    past(s, i, |c| in_class(class, c))
}

// Whether `n` bytes of a class stand at `i`.
pub fn counted(s: &[u8], i: usize, class: Class, n: usize) -> bool
    ensures { result ≡ is_got (read_count (in_class class) n (drop i s.now)) }
{
    let rest = &s[place(s, i)..];
    n <= rest.len() && rest[..n].iter().all(|&c| in_class(class, c))
}

// Whether all bytes are those of plain language.
pub fn all_plain(s: &[u8]) -> bool
    ensures { result ≡ all is_plain_byte s.now }
{
    each(s, is_plain)
}

// Whether only zeros stand from `i` on.
pub fn zeros_from(s: &[u8], i: usize) -> bool
    ensures { result ≡ all is_zero (drop i s.now) }
{
    each(&s[place(s, i)..], |b| b == 0)
}

// Whether the bytes of both are the same.
pub fn same_bytes(a: &[u8], b: &[u8]) -> bool
    ensures { result ≡ same_bytes a.now b.now }
{
    a == b
}
