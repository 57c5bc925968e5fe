// Whether two parts of a record are the same in every field.

#![tactic(auto, using(crate::proofs::Equal::equal))]

ghost use Rattle.std.specs.Prelude.{◌≡◌};
ghost use Rattle.std.specs.List.{list_all, zip};
ghost use Rattle.sameness.specs.Same.{same_addresses, same_filing, same_title, same_row, same_rows, same_items, same_language};

use body::Rows;
use frontlines::{Addresses, Filing, Title};
use items::{Items, Language};
use row::Row;

// Line 1: what stands past the count is compared too, so that the same means equal.
pub fn same_addresses(a: Addresses, b: Addresses) -> bool
    ensures { result ≡ same_addresses a b }
{
    a == b
}

// Line 2.
pub fn same_filing(a: Filing, b: Filing) -> bool
    ensures { result ≡ same_filing a b }
{
    a == b
}

// Line 3 without its time.
pub fn same_title(a: Title, b: Title) -> bool
    ensures { result ≡ same_title a b }
{
    a == b
}

// A row of a runway.
#[tactic(auto, using(text::specs::Laws::Tests::and_is, crate::proofs::Equal::thirds_equal), unfolding(crate::specs::Same::same_row))]
fn same_row(x: Row, y: Row) -> bool
    ensures { result ≡ same_row x y }
{
    x == y
}

// One by one, as far as both go.
fn all_same(a: &[Row], b: &[Row]) -> bool
    ensures { result ≡ list_all (λ p. same_row p.0 p.1) (zip a.now b.now) }
{
    a.iter().zip(b).all(|(&x, &y)| same_row(x, y))
}

// As many as the count says: what stands past it is blank in every record that is read.
pub fn same_rows(a: Rows, b: Rows) -> bool
    ensures { result ≡ same_rows a b }
{
    a.count == b.count && all_same(a.shown(), b.shown())
}

// As many as the count says, as with the rows.
pub fn same_items(a: Items, b: Items) -> bool
    ensures { result ≡ same_items a b }
{
    a.count == b.count && a.listed() == b.listed()
}

// The length tells most texts apart before their 400 bytes are looked at.
pub fn same_language(a: Language, b: Language) -> bool
    ensures { result ≡ same_language a b }
{
    a == b
}
