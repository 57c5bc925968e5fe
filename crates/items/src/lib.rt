// Awareness items and plain language: what a record may hold of them.

#![tactic(auto)]

ghost use Rattle.std.specs.Prelude.{not, eqb, ◌≡◌, take, drop};
ghost use Rattle.text.specs.Choice.{◌and◌, member, head_is};
ghost use Rattle.text.specs.Names.{is_name};
ghost use Rattle.text.specs.Piece.{canonical, verbatim};
ghost use Rattle.text.specs.Put.{Put};
ghost use Rattle.text.specs.Arrays.{slots};
ghost use Rattle.items.specs.Item.{taxiway_size, letters, on_runway, highest_for, runway_fits, amount_fits, edge_fits, count_fits, valid_slot, is_new, slots_fit, taxiways_fit, name_fits, numbers_fit, valid_item};
ghost use Rattle.items.specs.Awareness.{same_runway, other_apron, may_repeat, may_follow, in_order, sound_items, blank_item, is_blank_item};
ghost use Rattle.items.specs.Parts.{items_of, language_of, holds_items, holds_language};
ghost use Rattle.items.specs.Language.{space_byte, full_stop, last_is, valid_language};

pub mod words;

use fill::put;
use runway::valid_runway;
use scan::{all_plain, counted, run, zeros_from};
use text::Class;

// At most eight taxiways, in slots of three bytes.
pub const MOST_TAXIWAYS: u8 = 8;

pub const TAXIWAY_SIZE: usize = 3;

pub const TAXIWAY_BYTES: usize = 24;

pub const APRON_SIZE: usize = 16;

pub const MOST_ITEMS: u8 = 32;

pub const MOST_LANGUAGE: usize = 400;

// An awareness item, zeros in every field that its letter does not use.
#[repr(C)]
#[derive(Clone, Copy, PartialEq, Eq)]
pub struct Item {
    // I: the length; M: the distance
    pub amount: u16,
    // b'I' to b'P' and b'R'
    pub letter: u8,
    // the runway of I K L M O: number, and 0 none, 1 L, 2 C, 3 R
    pub number: u8,
    pub side: u8,
    // M: 1 L, 2 R, 3 LR
    pub edge: u8,
    // N and P: how many taxiways; P with none is ALL TWY
    pub count: u8,
    // three bytes for each
    pub taxiways: [u8; TAXIWAY_BYTES],
    // R: the apron's name; none is ALL APRON
    pub name: [u8; APRON_SIZE],
}

// Up to 32 items, zeros past the count.
#[repr(C)]
#[derive(Clone, Copy)]
pub struct Items {
    pub count: u8,
    pub items: [Item; 32],
}

// Up to 400 bytes of plain language, zeros past the length.
#[repr(C)]
#[derive(Clone, Copy, PartialEq, Eq)]
pub struct Language {
    pub length: u16,
    pub bytes: [u8; MOST_LANGUAGE],
}

impl Items {
    // The items that count; the array is all that a wrong count can show.
    pub fn listed(&self) -> &[Item]
        ensures { result.now ≡ items_of self.now }
    {
        if self.count <= MOST_ITEMS {
            &self.items[..usize::from(self.count)]
        } else {
            &self.items
        }
    }
}

impl Language {
    // The bytes that count; the array is all that a wrong length can show.
    pub fn text(&self) -> &[u8]
        ensures { result.now ≡ language_of self.now }
    {
        let length = usize::from(self.length);
        if length <= MOST_LANGUAGE {
            &self.bytes[..length]
        } else {
            &self.bytes
        }
    }
}

// ---- What an item may hold

fn is_item(letter: u8) -> bool
    ensures { result ≡ member letters letter }
{
    matches!(letter, b'I'..=b'P' | b'R')
}

#[tactic(auto, unfolding(crate::specs::Item::on_runway))]
fn on_runway(letter: u8) -> bool
    ensures { result ≡ on_runway letter }
{
    matches!(letter, b'I' | b'K' | b'L' | b'M' | b'O')
}

// Runways of item I go up to 36.
fn highest_runway(letter: u8) -> u8
    ensures { result ≡ highest_for letter }
{
    if letter == b'I' { 36 } else { 18 }
}

fn runway_fits(i: Item) -> bool
    ensures { result ≡ runway_fits i }
{
    if on_runway(i.letter) {
        valid_runway(highest_runway(i.letter), i.number, i.side)
    } else {
        i.number == 0 && i.side == 0
    }
}

fn amount_fits(i: Item) -> bool
    ensures { result ≡ amount_fits i }
{
    match i.letter {
        b'I' => (100..=9999).contains(&i.amount),
        b'M' => (1..=99).contains(&i.amount),
        _ => i.amount == 0,
    }
}

fn edge_fits(i: Item) -> bool
    ensures { result ≡ edge_fits i }
{
    match i.letter {
        b'M' => (1..=3).contains(&i.edge),
        _ => i.edge == 0,
    }
}

#[tactic(auto, unfolding(crate::specs::Item::count_fits))]
fn count_fits(i: Item) -> bool
    ensures { result ≡ count_fits i }
{
    match i.letter {
        b'N' => 1 <= i.count,
        b'P' => true,
        _ => i.count == 0,
    }
}

// The first slot of three bytes, or all that is left, and what lies behind it.
pub fn first_slot(t: &[u8]) -> (&[u8], &[u8])
    ensures slot { result.0.now ≡ take taxiway_size t.now }
    ensures rest { result.1.now ≡ drop taxiway_size t.now }
{
    t.split_at(TAXIWAY_SIZE.min(t.len()))
}

fn valid_slot(s: &[u8]) -> bool
    ensures { result ≡ valid_slot s.now }
{
    s.len() == TAXIWAY_SIZE
        && counted(s, 0, Class::Letters, 1)
        && zeros_from(s, run(s, 0, Class::Names))
}

// Whether `w` is none of the `n` taxiways at the front of `t`.
fn is_new(w: &[u8], t: &[u8], n: u8) -> bool
    ensures { result ≡ is_new w.now (slots 3 n t.now) }
{
    let mut rest = t;
    for _ in 0..n {
        let (slot, others) = first_slot(rest);
        if w == slot {
            return false;
        }
        rest = others;
    }
    true
}

// The `n` taxiways at the front of `t`, none twice, and zeros behind them.
fn slots_fit(n: u8, t: &[u8]) -> bool
    ensures { result ≡ slots_fit n t.now }
{
    let mut rest = t;
    for k in 0..n {
        let (slot, others) = first_slot(rest);
        if !(valid_slot(slot) && is_new(slot, others, n - k - 1)) {
            return false;
        }
        rest = others;
    }
    zeros_from(rest, 0)
}

fn taxiways_fit(n: u8, t: &[u8; TAXIWAY_BYTES]) -> bool
    ensures { result ≡ taxiways_fit n t.now }
{
    n <= MOST_TAXIWAYS && slots_fit(n, t)
}

fn name_fits(letter: u8, name: &[u8; APRON_SIZE]) -> bool
    ensures { result ≡ name_fits letter name.now }
{
    let end = if letter == b'R' {
        run(name, 0, Class::Names)
    } else {
        0
    };
    zeros_from(name, end)
}

// The numbers of an item.
pub fn numbers_fit(i: Item) -> bool
    ensures { result ≡ numbers_fit i }
{
    is_item(i.letter) && runway_fits(i) && amount_fits(i) && edge_fits(i) && count_fits(i)
}

pub fn valid_item(i: Item) -> bool
    ensures { result ≡ valid_item i }
{
    numbers_fit(i) && taxiways_fit(i.count, &i.taxiways) && name_fits(i.letter, &i.name)
}

// ---- Which items may stand together

// Whether a name stands in the field.
pub fn is_named(name: &[u8]) -> bool
    ensures { result ≡ head_is is_name name.now }
{
    counted(name, 0, Class::Names, 1)
}

// Two items R: both have names, and not the same.
fn other_apron(a: Item, b: Item) -> bool
    ensures { result ≡ other_apron a b }
{
    is_named(&a.name) && is_named(&b.name) && a.name != b.name
}

fn same_runway(a: Item, b: Item) -> bool
    ensures { result ≡ same_runway a b }
{
    a.number == b.number && a.side == b.side
}

// Whether two items of one letter may stand in one line.
#[tactic(auto, unfolding(crate::specs::Awareness::may_repeat))]
fn may_repeat(a: Item, b: Item) -> bool
    ensures { result ≡ may_repeat a b }
{
    if on_runway(a.letter) {
        !same_runway(a, b)
    } else {
        a.letter == b'R' && other_apron(a, b)
    }
}

// Whether `b` may stand somewhere behind `a`.
#[tactic(auto, unfolding(crate::specs::Awareness::may_follow))]
pub fn may_follow(a: Item, b: Item) -> bool
    ensures { result ≡ may_follow a b }
{
    if a.letter == b.letter {
        may_repeat(a, b)
    } else {
        a.letter < b.letter
    }
}

// ---- Items that are not there

pub const BLANK_ITEM: Item = Item {
    letter: 0,
    number: 0,
    side: 0,
    amount: 0,
    edge: 0,
    count: 0,
    taxiways: [0; TAXIWAY_BYTES],
    name: [0; APRON_SIZE],
};

pub fn blank_item() -> Item
    ensures { result ≡ blank_item }
{
    BLANK_ITEM
}

pub fn is_blank_item(i: Item) -> bool
    ensures { result ≡ is_blank_item i }
{
    i == BLANK_ITEM
}

// ---- The items of a record

// Each of these items may stand behind all before it.
fn in_order(items: &[Item]) -> bool
    ensures { result ≡ in_order items.now }
{
    let mut rest = items;
    while let Some((a, others)) = rest.split_first() {
        if !others.iter().all(|b| may_follow(*a, *b)) {
            return false;
        }
        rest = others;
    }
    true
}

// These items are valid and in order.
fn sound_items(items: &[Item]) -> bool
    ensures { result ≡ sound_items items.now }
{
    items.iter().all(|i| valid_item(*i)) && in_order(items)
}

// Valid items in order, and zeros past the count.
pub fn holds_items(i: Items) -> bool
    ensures { result ≡ holds_items i }
{
    if MOST_ITEMS < i.count {
        return false;
    }
    let (listed, rest) = i.items.split_at(usize::from(i.count));
    sound_items(listed) && rest.iter().all(|item| is_blank_item(*item))
}

// ---- Plain language

// No leading space, and last a full stop.
fn is_sentence(part: &[u8]) -> bool
    ensures { result ≡ (not (head_is (eqb space_byte) part.now) and last_is full_stop part.now) }
{
    !part.starts_with(b" ") && part.ends_with(b".")
}

pub fn valid_language(part: &[u8]) -> bool
    ensures { result ≡ valid_language part.now }
{
    (2..=MOST_LANGUAGE).contains(&part.len()) && all_plain(part) && is_sentence(part)
}

// No plain language, or plain language that is valid; zeros past the length.
pub fn holds_language(l: Language) -> bool
    ensures { result ≡ holds_language l }
{
    let length = usize::from(l.length);
    if MOST_LANGUAGE < length {
        return false;
    }
    let (text, rest) = l.bytes.split_at(length);
    (length == 0 || valid_language(text)) && zeros_from(rest, 0)
}

// Plain language is put as it stands.
pub fn put_language(out: &mut [u8], language: &[u8]) -> usize
    ensures { Put 0 (canonical (verbatim language.now)) out.old out.new result }
{
    put(out, 0, language)
}
