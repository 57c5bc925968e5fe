// The awareness line and its items, read at their place in a message.

#![tactic(auto)]

ghost use Rattle.std.specs.Prelude.{true, ◌≡◌, ◌*◌, ◌≤◌, [], length, drop, replicate};
ghost use Rattle.std.proofs.lemmas.List.Edits.{sets};
ghost use Rattle.text.specs.Choice.{all};
ghost use Rattle.text.specs.Code.Held.{Spanned, Held};
ghost use Rattle.text.specs.Names.{is_name, read_run, read_name};
ghost use Rattle.text.specs.Numbers.{read_number};
ghost use Rattle.text.specs.Read.{read_as, read_if, read_gap, read_text};
ghost use Rattle.items.specs.Awareness.{in_order, stands_behind, whole_awareness};
ghost use Rattle.items.specs.Item.{is_taxiway, valid_item};
ghost use Rattle.items.specs.ItemText.{edge_name};
ghost use Rattle.items.specs.Parts.{make_items};
ghost use Rattle.items.specs.ReadItem.{sayings, saying, taxi_sayings, taxi_saying, edges, read_length, read_bank, read_detail, read_runway_form, bare_item, read_taxiway, read_some_taxiways, read_taxi_form, is_apron, apron_item, read_apron_form, read_body};
ghost use Rattle.awareness.specs.Code.Held.{HeldText, HeldDetail, HeldItem, items_answer, answered, ItemsLeft};
ghost use Rattle.awareness.specs.Code.Named.{in_slots, HeldTaxiways};

use fill::put;
use items::{
    APRON_SIZE, BLANK_ITEM, Item, Items, MOST_ITEMS, MOST_TAXIWAYS, TAXIWAY_BYTES, TAXIWAY_SIZE,
    blank_item, may_follow, numbers_fit, valid_item, words,
};
use runway::read_runway;
use scan::{counted, digits, run, spaces, word};
use text::{Class, Found, Span, place};

// An item at a place of a text, and the place behind it.
#[derive(Clone, Copy)]
struct ItemFound {
    item: Item,
    next: usize,
}

// What a runway's item says besides its letter.
#[derive(Clone, Copy)]
struct Detail {
    edge: u8,
    amount: u16,
    next: usize,
}

// Taxiways one behind the other, three bytes for each and zeros behind them.
#[derive(Clone, Copy)]
struct Taxiways {
    count: u8,
    taxiways: [u8; TAXIWAY_BYTES],
    next: usize,
}

// ---- Reading an item

// The place behind the text `t`, where that stands at `i`.
fn behind(s: &[u8], i: usize, t: &[u8]) -> Option<usize>
    ensures { HeldText s.now (read_text t.now (drop i s.now)) result }
{
    let found = word(s, i, t, 0)?;
    Some(found.next)
}

// What is said of a runway.
fn saying(s: &[u8], i: usize) -> Option<Found>
    ensures { Held s.now (read_name saying sayings (drop i s.now)) result }
{
    let at = behind(s, i, b" ")?;
    word(s, at, &words::REDUCED_TO, u32::from(b'I'))
        .or_else(|| word(s, at, &words::LOOSE_SAND, u32::from(b'K')))
        .or_else(|| word(s, at, &words::CHEMICALLY_TREATED, u32::from(b'L')))
        .or_else(|| word(s, at, &words::SNOWBANK, u32::from(b'M')))
        .or_else(|| word(s, at, &words::ADJ_SNOWBANK, u32::from(b'O')))
}

// What is said of taxiways.
fn taxi_saying(s: &[u8], i: usize) -> Option<Found>
    ensures { Held s.now (read_name taxi_saying taxi_sayings (drop i s.now)) result }
{
    let at = behind(s, i, b" ")?;
    word(s, at, &words::SNOWBANK, u32::from(b'N')).or_else(|| word(
        s,
        at,
        &words::POOR,
        u32::from(b'P'),
    ))
}

// LR is tried before L.
fn edge(s: &[u8], i: usize) -> Option<Found>
    ensures { Held s.now (read_name edge_name edges (drop i s.now)) result }
{
    word(s, i, &words::LR, 3)
        .or_else(|| word(s, i, &words::L, 1))
        .or_else(|| word(s, i, &words::R, 2))
}

// Three digits, or four from 1000 on.
fn number(s: &[u8], i: usize) -> Option<Found>
    ensures { Held s.now (read_number 3 (drop i s.now)) result }
{
    match digits(s, i, 4) {
        Some(four) if 1000 <= four.value => Some(four),
        _ => digits(s, i, 3),
    }
}

fn read_length(s: &[u8], i: usize) -> Option<Detail>
    ensures { HeldDetail s.now (read_length (drop i s.now)) result }
{
    let at = behind(s, i, b" ")?;
    let length = number(s, at)?;
    Some(Detail {
        edge: 0,
        amount: length.value as u16,
        next: length.next,
    })
}

fn read_bank(s: &[u8], i: usize) -> Option<Detail>
    ensures { HeldDetail s.now (read_bank (drop i s.now)) result }
{
    let at = behind(s, i, b" ")?;
    let edge = edge(s, at)?;
    let distance = digits(s, edge.next, 2)?;
    let next = behind(s, distance.next, &words::FM_CL)?;
    Some(Detail {
        edge: edge.value as u8,
        amount: distance.value as u16,
        next,
    })
}

fn read_detail(letter: u8, s: &[u8], i: usize) -> Option<Detail>
    requires { i ≤ length s.now }
    ensures { HeldDetail s.now (read_detail letter (drop i s.now)) result }
{
    match letter {
        b'I' => read_length(s, i),
        b'M' => read_bank(s, i),
        _ => Some(Detail {
            edge: 0,
            amount: 0,
            next: i,
        }),
    }
}

// The valid item behind RWY, without its full stop.
fn read_runway_item(s: &[u8], i: usize) -> Option<ItemFound>
    ensures { HeldItem s.now (read_if valid_item read_runway_form (drop i s.now)) result }
{
    let at = behind(s, i, b" ")?;
    let runway = read_runway(s, at)?;
    let said = saying(s, runway.next)?;
    let letter = said.value as u8;
    let detail = read_detail(letter, s, said.next)?;
    let item = Item {
        letter,
        number: runway.number,
        side: runway.side,
        edge: detail.edge,
        amount: detail.amount,
        ..BLANK_ITEM
    };
    if numbers_fit(item) {
        Some(ItemFound {
            item,
            next: detail.next,
        })
    } else {
        None
    }
}

// The capitals and digits behind a gap, perhaps none.
fn gap_name(s: &[u8], i: usize) -> Option<Span>
    ensures { Spanned s.now (read_gap (read_run is_name) (drop i s.now)) result }
{
    let start = behind(s, i, b" ")?;
    Some(Span {
        start,
        next: run(s, start, Class::Names),
    })
}

// Whether a name is a taxiway: it starts with a letter, and is not too long.
fn is_taxiway(name: &[u8]) -> bool
    requires { all is_name name.now ≡ true }
    ensures { result ≡ is_taxiway name.now }
{
    counted(name, 0, Class::Letters, 1) && name.len() <= TAXIWAY_SIZE
}

// The taxiway behind a gap.
fn taxiway(s: &[u8], i: usize) -> Option<Span>
    ensures { Spanned s.now (read_gap read_taxiway (drop i s.now)) result }
{
    let name = gap_name(s, i)?;
    if is_taxiway(&s[name.start..name.next]) {
        Some(name)
    } else {
        None
    }
}

// Puts one more taxiway behind the `count` that the array holds.
fn put_taxiway(taxiways: &mut [u8], count: u8, name: &[u8])
    ensures { taxiways.new ≡ sets taxiways.old (count * 3) (sets (replicate 3 0) 0 name.now) }
{
    let mut slot = [0; TAXIWAY_SIZE];
    put(&mut slot, 0, name);
    put(taxiways, usize::from(count) * TAXIWAY_SIZE, &slot);
}

// Up to 8 taxiways, a gap before each; the first word that is none ends them.
fn some_taxiways(s: &[u8], i: usize) -> Taxiways
    ensures { HeldTaxiways s.now (read_as in_slots (read_some_taxiways 8) (drop i s.now)) result }
{
    let mut taxiways = [0; TAXIWAY_BYTES];
    let mut count: u8 = 0;
    let mut at = place(s, i);
    // stays: no plainer: the count is part of the answer, also where a name ends the loop
    while count < MOST_TAXIWAYS {
        let Some(name) = taxiway(s, at) else {
            break;
        };
        put_taxiway(&mut taxiways, count, &s[name.start..name.next]);
        count += 1;
        at = name.next;
    }
    Taxiways {
        count,
        taxiways,
        next: at,
    }
}

// The valid item behind TWY, without its full stop.
fn read_taxi_item(s: &[u8], i: usize) -> Option<ItemFound>
    ensures { HeldItem s.now (read_if valid_item read_taxi_form (drop i s.now)) result }
{
    let named = some_taxiways(s, i);
    if named.count == 0 {
        return None;
    }
    let said = taxi_saying(s, named.next)?;
    let taxiways = named.taxiways;
    let item = Item {
        letter: said.value as u8,
        count: named.count,
        taxiways,
        ..BLANK_ITEM
    };
    if valid_item(item) {
        Some(ItemFound {
            item,
            next: said.next,
        })
    } else {
        None
    }
}

// Whether a name is an apron's: not empty, and not too long.
fn is_apron(name: &[u8]) -> bool
    ensures { result ≡ is_apron name.now }
{
    (1..=APRON_SIZE).contains(&name.len())
}

// The item of one apron, zeros behind its name.
fn apron_item(name: &[u8]) -> Item
    requires { length name.now ≤ 16 }
    ensures { result ≡ apron_item name.now }
{
    let mut field = [0; APRON_SIZE];
    put(&mut field, 0, name);
    Item {
        letter: b'R',
        name: field,
        ..BLANK_ITEM
    }
}

// The item behind APRON, without its full stop: what fits there is valid.
fn read_apron_item(s: &[u8], i: usize) -> Option<ItemFound>
    ensures { HeldItem s.now (read_if valid_item read_apron_form (drop i s.now)) result }
{
    let span = gap_name(s, i)?;
    let name = &s[span.start..span.next];
    if !is_apron(name) {
        return None;
    }
    let at = behind(s, span.next, b" ")?;
    let next = behind(s, at, &words::POOR)?;
    Some(ItemFound {
        item: apron_item(name),
        next,
    })
}

// The item of fixed words, which end at `next`.
fn bare_item(letter: u8, next: usize) -> ItemFound
    ensures item { result.item ≡ bare_item letter }
    ensures next { result.next ≡ next }
{
    ItemFound {
        item: Item {
            letter,
            ..BLANK_ITEM
        },
        next,
    }
}

// A valid item without its full stop: its first words tell what stands behind them.
fn read_body(s: &[u8], i: usize) -> Option<ItemFound>
    ensures { HeldItem s.now (read_if valid_item read_body (drop i s.now)) result }
{
    if let Some(at) = behind(s, i, &words::RWY) {
        read_runway_item(s, at)
    } else if let Some(at) = behind(s, i, &words::DRIFTING_SNOW) {
        Some(bare_item(b'J', at))
    } else if let Some(at) = behind(s, i, &words::TWY) {
        read_taxi_item(s, at)
    } else if let Some(at) = behind(s, i, &words::ALL_TWY_POOR) {
        Some(bare_item(b'P', at))
    } else if let Some(at) = behind(s, i, &words::APRON) {
        read_apron_item(s, at)
    } else {
        let at = behind(s, i, &words::ALL_APRON_POOR)?;
        Some(bare_item(b'R', at))
    }
}

// ---- Reading a line

// Whether an item may stand behind others that are in order: from the last one back, up to one of a lower letter.
fn stands_behind(items: &[Item], item: Item) -> bool
    requires { in_order items.now ≡ true }
    ensures { result ≡ stands_behind items.now item }
{
    let mut before = items;
    while let Some((last, others)) = before.split_last() {
        if last.letter < item.letter {
            return true;
        }
        if !may_follow(*last, item) {
            return false;
        }
        before = others;
    }
    true
}

// No items.
fn no_items() -> Items
    ensures { result ≡ make_items [] }
{
    // stays: a call, with which the machine clears the array at once; the constant is stored 32 times
    let blank = blank_item();
    Items {
        count: 0,
        items: [blank; 32],
    }
}

// Reads the items that a line is into an array that holds none: the first at its start, each other behind any number of spaces. The first misfit ends
// it.
fn items_into(read: &mut Items, line: &[u8]) -> Option<()>
    requires { read.old ≡ make_items [] }
    ensures { answered read.new result ≡ items_answer (whole_awareness line.now) }
{
    // where the last item ends, and where the next would start
    let mut end = 0;
    let mut at = 0;
    'items: loop {
        if line.len() <= end {
            break 'items Some(());
        }
        if MOST_ITEMS <= read.count {
            break 'items None;
        }
        let Some(found) = read_body(line, at) else {
            break 'items None;
        };
        let Some(stop) = behind(line, found.next, &words::FULL_STOP) else {
            break 'items None;
        };
        if !stands_behind(read.listed(), found.item) {
            break 'items None;
        }
        read.items[usize::from(read.count)] = found.item;
        read.count += 1;
        end = stop;
        at = spaces(line, stop);
    }
}

// The items that a line is, in the array that is lent, since each hand would copy them; none where it is no awareness line.
pub fn read_awareness(line: &[u8], read: &mut Items) -> Option<()>
    ensures { ItemsLeft (whole_awareness line.now) read.new result }
{
    *read = no_items();
    let whole = items_into(read, line);
    if whole.is_none() {
        *read = no_items();
    }
    whole
}
