ghost use Rattle.std.specs.Prelude.{◌≡◌, ◌≤◌, ◌<◌, true, false, List, length};
ghost use Rattle.std.specs.List.{AllWithin};
ghost use Rattle.std.specs.List.Sorted.{IsPartitionPoint, IsPartitionedBy};
ghost use Rattle.bl_format.specs.Nodes.{Mark};
ghost use Rattle.bl_format.specs.Words.{last_place};
ghost use Rattle.bl_addresses.specs.Marks.{is_up_to, is_at, is_found, place_of};
ghost use Rattle.bl_addresses.specs.Order.{AreSorted, EndsWithin, IsOrder};

use crate::marks::{Place, Row, Scope, place_of};
use crate::spans::Span;

/// The last node at a place among the sorted rows of a scope, where those up to the place are
/// guessed to end in a span of them.
pub fn last_at(rows: &[Row], span: Span, place: Place) -> Option<u32>
    requires { AreSorted rows.now }
    ensures { (scope : Scope) (marks : List Mark) → IsOrder scope marks rows.now →
        result ≡ last_place (is_found scope place) marks }
{
    let end = end_of(rows, span, place);
    let last = *rows[..end].last()?;
    if is_at(place, place_of(last)) {
        Some(last.node)
    } else {
        None
    }
}

// Where the rows end that stand up to a place. Only the span is searched where they end in it.
fn end_of(rows: &[Row], span: Span, place: Place) -> usize
    requires { AreSorted rows.now }
    ensures bound { result ≤ length rows.now }
    ensures split { IsPartitionPoint (λ r. is_up_to place (place_of r) ≡ true)
        (λ r. is_up_to place (place_of r) ≡ false) rows.now result }
{
    if ends_within(rows, span, place) {
        span.from + end_in(&rows[span.from..span.to], place)
    } else {
        end_in(rows, place)
    }
}

// Where the rows end that stand up to a place, of some that are split by it.
fn end_in(rows: &[Row], place: Place) -> usize
    requires { IsPartitionedBy (λ r. is_up_to place (place_of r)) rows.now }
    ensures bound { result ≤ length rows.now }
    ensures split { IsPartitionPoint (λ r. is_up_to place (place_of r) ≡ true)
        (λ r. is_up_to place (place_of r) ≡ false) rows.now result }
{
    rows.partition_point(|row| is_up_to(place, place_of(*row)))
}

// Whether the rows that stand up to a place end in a span.
fn ends_within(rows: &[Row], span: Span, place: Place) -> bool
    requires { AreSorted rows.now }
    ensures { result ≡ true → EndsWithin rows.now span.from span.to place }
{
    span.from <= span.to
        && span.to <= rows.len()
        && are_up_to(rows, span.from, place)
        && are_beyond(rows, span.to, place)
}

// Whether all rows before one stand up to a place.
fn are_up_to(rows: &[Row], from: usize, place: Place) -> bool
    requires rows { AreSorted rows.now }
    requires inside { from ≤ length rows.now }
    ensures { result ≡ true → AllWithin (λ r. is_up_to place (place_of r) ≡ true) rows.now 0 from }
{
    from == 0 || is_up_to(place, place_of(rows[from - 1]))
}

// Whether no row from one on stands up to a place.
fn are_beyond(rows: &[Row], to: usize, place: Place) -> bool
    requires rows { AreSorted rows.now }
    requires inside { to ≤ length rows.now }
    ensures { result ≡ true →
        AllWithin (λ r. is_up_to place (place_of r) ≡ false) rows.now to (length rows.now) }
{
    to == rows.len() || !is_up_to(place, place_of(rows[to]))
}

fn is_up_to(bound: Place, place: Place) -> bool
    ensures { result ≡ is_up_to bound place }
{
    place.part < bound.part || (place.part == bound.part && place.address <= bound.address)
}

fn is_at(bound: Place, place: Place) -> bool
    ensures { result ≡ is_at bound place }
{
    place.part == bound.part && place.address == bound.address
}
