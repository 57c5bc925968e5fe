// Items put into words: the text of an item, and the awareness line that items make.

#![tactic(auto)]

ghost use Rattle.std.specs.Prelude.{◌++◌};
ghost use Rattle.text.specs.Numbers.{number};
ghost use Rattle.text.specs.Piece.{canonical, spell, bytes};
ghost use Rattle.text.specs.Put.{Put};
ghost use Rattle.items.specs.Awareness.{awareness_pieces};
ghost use Rattle.items.specs.Item.{name_at_front};
ghost use Rattle.items.specs.ItemText.{edge_name, of_runway, length_text, bank_text, of_taxiways, poor_taxiways, poor_apron, item_text, item_pieces};
ghost use Rattle.wording.specs.Code.Slots.{taxiway_names};

use fill::{put, put_digits, told_behind};
use items::{Item, first_slot, is_named, words};
use runway::put_runway;
use scan::run;
use text::Class;

// ---- Writing an item

// 1 L, 2 R, 3 LR.
fn put_edge(out: &mut [u8], at: usize, edge: u8) -> usize
    ensures { Put at (canonical (spell (edge_name edge))) out.old out.new result }
{
    // stays: C interface: the edge is a number
    match edge {
        1 => put(out, at, &words::L),
        2 => put(out, at, &words::R),
        3 => put(out, at, &words::LR),
        _ => put(out, at, b""),
    }
}

// Three digits, or four from 1000 on.
fn put_number(out: &mut [u8], at: usize, x: u16) -> usize
    ensures { Put at (canonical (number 3 x)) out.old out.new result }
{
    let digits = if 1000 <= x { 4 } else { 3 };
    put_digits(out, at, digits, u32::from(x))
}

// The runway of an item, and behind a space what is said of it.
fn put_of_runway(out: &mut [u8], at: usize, i: Item, said: &[u8]) -> usize
    ensures { Put at (canonical (of_runway i (bytes " " ++ said.now))) out.old out.new result }
{
    let at = put(out, at, &words::RWY);
    let at = put(out, at, b" ");
    let at = put_runway(out, at, i.number, i.side);
    let at = put(out, at, b" ");
    put(out, at, said)
}

// Item I.
fn put_length(out: &mut [u8], at: usize, i: Item) -> usize
    ensures { Put at (canonical (length_text i)) out.old out.new result }
{
    let at = put_of_runway(out, at, i, &words::REDUCED_TO);
    let at = put(out, at, b" ");
    put_number(out, at, i.amount)
}

// Item M.
fn put_bank(out: &mut [u8], at: usize, i: Item) -> usize
    ensures { Put at (canonical (bank_text i)) out.old out.new result }
{
    let at = put_of_runway(out, at, i, &words::SNOWBANK);
    let at = put(out, at, b" ");
    let at = put_edge(out, at, i.edge);
    let at = put_digits(out, at, 2, u32::from(i.amount));
    put(out, at, &words::FM_CL)
}

// The name at the front of `f`.
fn put_name(out: &mut [u8], at: usize, f: &[u8]) -> usize
    ensures { Put at (name_at_front f.now) out.old out.new result }
{
    let n = run(f, 0, Class::Names);
    put(out, at, &f[..n])
}

// The names in the first `n` slots of `t`, a space before each.
fn put_taxiways(out: &mut [u8], at: usize, t: &[u8], n: u8) -> usize
    ensures { Put at (canonical (taxiway_names n t.now)) out.old out.new result }
{
    let mut behind = told_behind(out, at, 0);
    let mut rest = t;
    for _ in 0..n {
        let (slot, others) = first_slot(rest);
        let name = put(out, behind, b" ");
        behind = put_name(out, name, slot);
        rest = others;
    }
    behind
}

// The taxiways of an item, and behind a space what is said of them.
fn put_of_taxiways(out: &mut [u8], at: usize, i: Item, said: &[u8]) -> usize
    ensures { Put at (canonical (of_taxiways i (bytes " " ++ said.now))) out.old out.new result }
{
    let at = put(out, at, &words::TWY);
    let at = put_taxiways(out, at, &i.taxiways, i.count);
    let at = put(out, at, b" ");
    put(out, at, said)
}

// Item P.
fn put_poor_taxiways(out: &mut [u8], at: usize, i: Item) -> usize
    ensures { Put at (canonical (poor_taxiways i)) out.old out.new result }
{
    if i.count == 0 {
        put(out, at, &words::ALL_TWY_POOR)
    } else {
        put_of_taxiways(out, at, i, &words::POOR)
    }
}

// Item R.
fn put_poor_apron(out: &mut [u8], at: usize, i: Item) -> usize
    ensures { Put at (canonical (poor_apron i)) out.old out.new result }
{
    if is_named(&i.name) {
        let at = put(out, at, &words::APRON);
        let at = put(out, at, b" ");
        let at = put_name(out, at, &i.name);
        let at = put(out, at, b" ");
        put(out, at, &words::POOR)
    } else {
        put(out, at, &words::ALL_APRON_POOR)
    }
}

// An item without its full stop.
fn put_text(out: &mut [u8], at: usize, i: Item) -> usize
    ensures { Put at (canonical (item_text i)) out.old out.new result }
{
    match i.letter {
        b'I' => put_length(out, at, i),
        b'J' => put(out, at, &words::DRIFTING_SNOW),
        b'K' => put_of_runway(out, at, i, &words::LOOSE_SAND),
        b'L' => put_of_runway(out, at, i, &words::CHEMICALLY_TREATED),
        b'M' => put_bank(out, at, i),
        b'N' => put_of_taxiways(out, at, i, &words::SNOWBANK),
        b'O' => put_of_runway(out, at, i, &words::ADJ_SNOWBANK),
        b'P' => put_poor_taxiways(out, at, i),
        _ => put_poor_apron(out, at, i),
    }
}

// An item, ended by a full stop.
pub fn put_item(out: &mut [u8], at: usize, item: Item) -> usize
    ensures { Put at (canonical (item_pieces item)) out.old out.new result }
{
    let at = put_text(out, at, item);
    put(out, at, &words::FULL_STOP)
}

// ---- Writing a line

// Puts these items, one space between two.
pub fn put_awareness(out: &mut [u8], at: usize, items: &[Item]) -> usize
    ensures { Put at (canonical (awareness_pieces items.now)) out.old out.new result }
{
    let Some((first, others)) = items.split_first() else {
        return told_behind(out, at, 0);
    };
    let mut behind = put_item(out, at, *first);
    for item in others {
        let start = put(out, behind, b" ");
        behind = put_item(out, start, *item);
    }
    behind
}
