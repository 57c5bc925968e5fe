// What stands below the rows of a notice: the awareness line and the plain language, read, judged and put.

#![tactic(auto)]

ghost use Rattle.std.specs.Prelude.{◌≡◌, ◌≤◌, [], length, cond};
ghost use Rattle.text.specs.Choice.{◌and◌, is_empty};
ghost use Rattle.text.specs.Lines.{cuts, under};
ghost use Rattle.text.specs.Put.{Put};
ghost use Rattle.text.specs.Out.{finished, more};
ghost use Rattle.items.specs.Parts.{items_of, language_of, make_language};
ghost use Rattle.remarks.specs.Remarks.{language_lines, remark_lines, remarks, read_remarks};
ghost use Rattle.remarks.specs.Code.Held.{kept, RemarksHeld, answered, RemarksLeft};

use awareness::read_awareness;
use fill::{line_under, put, told_behind};
use items::{Items, Language, blank_item, put_language, valid_language};
use text::refusal::{Fault, Refusal};
use text::{first_line, is_closed, line_text};
use wording::put_awareness;

// Neither items nor plain language.
#[tactic(auto, using(crate::proofs::Arrays::nothing_said, text::specs::Laws::Tests::and_is))]
fn says_nothing(items: Items, language: Language) -> bool
    ensures { result ≡ (is_empty (items_of items) and is_empty (language_of language)) }
{
    items.count == 0 && language.length == 0
}

// The plain language under the awareness line, if there is any.
fn language_under(out: &mut [u8], at: usize, l: Language) -> usize
    ensures { Put at (under (language_lines (language_of l))) out.old out.new result }
{
    if l.length == 0 {
        told_behind(out, at, 0)
    } else {
        line_under(out, at, |rest| put_language(rest, l.text()))
    }
}

// Puts the empty line, the awareness line and the plain language, each under the line before it.
pub fn put_remarks(out: &mut [u8], at: usize, items: Items, language: Language) -> usize
    ensures { Put at (under (remark_lines (items_of items) (language_of language))) out.old out.new result }
{
    if says_nothing(items, language) {
        return told_behind(out, at, 0);
    }
    let empty = put(out, at, b"\n");
    let behind = line_under(out, empty, |rest| put_awareness(rest, 0, items.listed()));
    language_under(out, behind, language)
}

// What stands below the rows: nothing of either where the count or the length is 0.
#[derive(Clone, Copy)]
pub struct Remarks {
    pub items: Items,
    pub language: Language,
}

fn no_language() -> Language
    ensures { result ≡ make_language [] }
{
    Language {
        length: 0,
        bytes: [0; 400],
    }
}

// Neither items nor plain language.
pub fn no_remarks() -> Remarks
    ensures { result ≡ kept (remarks [] []) }
{
    let blank = blank_item();
    Remarks {
        items: Items {
            count: 0,
            items: [blank; 32],
        },
        language: no_language(),
    }
}

// Keeps plain language, in an array of zeros.
fn keep_language(kept: &mut Language, text: &[u8])
    requires blank { kept.old ≡ make_language [] }
    requires short { length text.now ≤ 400 }
    ensures { kept.new ≡ make_language text.now }
{
    put(&mut kept.bytes, 0, text);
    kept.length = text.len() as u16;
}

// Reads `m` below the empty line that ended the rows into structs that hold nothing, line by line: the awareness line, and the plain language unless
// `)` closed that. The first line that does not fit decides. Where no line follows, both are empty, and that gives 4. A wrong line is told at its
// first byte, a missing line or `)` at the end, and bytes after the end at the first of them.
fn remarks_into(read: &mut Remarks, m: &[u8]) -> Result<(), Fault>
    requires { read.old ≡ kept (remarks [] []) }
    ensures { RemarksHeld m.now (read_remarks (more (cuts m.now))) (answered read.new result) }
{
    // whether the awareness line is read: plain language comes next
    let mut below = false;
    let mut at = 0;
    'lines: loop {
        let first = first_line(&m[at..]);
        let line = &m[at..at + first.size];
        let text = line_text(line);
        let next = at + first.next;
        if below {
            if !is_closed(line) {
                break 'lines Err(Refusal::Outline.at(m.len()));
            }
            if !valid_language(text) {
                break 'lines Err(Refusal::WrongLanguage.at(at));
            }
            if next < m.len() {
                break 'lines Err(Refusal::Outline.at(next));
            }
            keep_language(&mut read.language, text);
            break 'lines Ok(());
        }
        let Some(()) = read_awareness(text, &mut read.items) else {
            break 'lines Err(Refusal::WrongItems.at(at));
        };
        if is_closed(line) {
            if read.items.count == 0 {
                break 'lines Err(Refusal::WrongItems.at(at));
            }
            if next < m.len() {
                break 'lines Err(Refusal::Outline.at(next));
            }
            break 'lines Ok(());
        }
        below = true;
        at = next;
    }
}

// What stands behind the rows, in the structs that are lent, since each hand would copy them: nothing where `)` closed the rows, or where a line is
// refused.
pub fn read_remarks(closed: bool, m: &[u8], read: &mut Remarks) -> Result<(), Fault>
    ensures { RemarksLeft m.now (read_remarks (cond closed finished (more (cuts m.now)))) read.new result }
{
    *read = no_remarks();
    if closed {
        return Ok(());
    }
    let answer = remarks_into(read, m);
    if answer.is_err() {
        *read = no_remarks();
    }
    answer
}
