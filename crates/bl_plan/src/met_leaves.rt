// Which leaf of its namesake under another catalogue each leaf of a struct meets, member by member.
ghost use Rattle.std.specs.Prelude.{◌≡◌, ◌<◌, ◌≤◌, ◌+◌, ◌*◌, ◌^◌, ◌++◌, All, IfOk, IfSome, OnOk, None, length, map, flat_map, replicate};
ghost use Rattle.std.specs.Option.{option_and_then};
ghost use Rattle.bl_format.specs.Words.{numbers_below};
ghost use Rattle.bl_format.specs.Layout.{HasLayout, member_count, member_leaves, named_leaves, struct_name};
ghost use Rattle.bl_plan.specs.SourcePlaces.{HasFirstLeaves, source_place, leaf_in, element_places};

use crate::source_members::{
    SourceElements, elements_of, first_leaves, own_leaf_of, source_member,
};
use bl_layout::Layout;
use bl_num::NoMemory;
use bl_sdna::struct_name;
use std::alloc::Global;
use std::collections::BTreeMap;

/// For each leaf of struct `t`, the number of the leaf of struct `s` that it meets, if there is one.
// It calls itself for structs by value, as deep as they are nested in `t`; a layout has a limit on that.
#[cycle(places)]
pub fn source_places(
    alloc: Global,
    from: &Layout,
    s: u32,
    to: &Layout,
    t: u32,
) -> Result<Vec<Option<u32>>, NoMemory>
    requires s { s < length from.now.catalogue.structs }
    requires t { t < length to.now.catalogue.structs }
    requires name { struct_name from.now.catalogue s ≡ struct_name to.now.catalogue t }
    ensures { IfOk result (λ found. found.items
        ≡ map (source_place (named_leaves from.now.catalogue from.now.width s))
        (named_leaves to.now.catalogue to.now.width t)) }
{
    let table = first_leaves(alloc, from, s)?;
    let leaves = to.leaves(t);
    let mut places = Vec::with_capacity(alloc, leaves.len())?;
    while places.len() < leaves.len() {
        let member = leaves[places.len()].member;
        push_member(alloc, from, s, &table, to, t, member, &mut places)?;
    }
    Ok(places)
}

// Puts what the leaves of a member meet at the end.
#[cycle(places)]
fn push_member<'a>(
    alloc: Global,
    from: &'a Layout,
    s: u32,
    table: &BTreeMap<&'a [u8], u32>,
    to: &'a Layout,
    t: u32,
    member: u32,
    places: &mut Vec<Option<u32>>,
) -> Result<(), NoMemory>
    requires s { s < length from.now.catalogue.structs }
    requires t { t < length to.now.catalogue.structs }
    requires name { struct_name from.now.catalogue s ≡ struct_name to.now.catalogue t }
    requires has_layout { HasLayout from.now.catalogue from.now.width }
    requires table { HasFirstLeaves from.now.catalogue from.now.width s table.now }
    requires member { member < member_count to.now.catalogue t }
    requires leaves { 0 < length (member_leaves
        (named_leaves to.now.catalogue to.now.width) to.now.catalogue to.now.width t member) }
    ensures { OnOk result (places.new.items ≡ places.old.items
        ++ map (source_place (named_leaves from.now.catalogue from.now.width s)) (member_leaves
        (named_leaves to.now.catalogue to.now.width) to.now.catalogue to.now.width t member)) }
{
    let source = source_member(from, s, table, to.member_key(t, member));
    let target = to.member_shape(t, member);
    let Some(inner) = target.inner else {
        places.push(own_leaf_of(source))?;
        return Ok(());
    };
    match elements_of(from, struct_name(to.catalogue(), inner), source) {
        Some(elements) => {
            let found = source_places(alloc, from, elements.s, to, inner)?;
            push_elements(elements, found.as_slice(), target.count, places)
        }
        None => push_none(to.leaves(inner).len() * target.count as usize, places),
    }
}

// Puts so many leaves that meet none at the end.
fn push_none(count: usize, places: &mut Vec<Option<u32>>) -> Result<(), NoMemory>
    ensures { OnOk result (places.new.items ≡ places.old.items ++ replicate count None) }
{
    for _ in 0..count {
        places.push(None)?;
    }
    Ok(())
}

// Puts what the leaves of all elements meet at the end. `found` has what those inside one element meet
// inside one.
fn push_elements(
    elements: SourceElements,
    found: &[Option<u32>],
    count: u32,
    places: &mut Vec<Option<u32>>,
) -> Result<(), NoMemory>
    requires near { elements.first + elements.count * elements.leaves < 2 ^ 32 }
    requires inside { All (λ o. IfSome o (λ p. p < elements.leaves)) found.now }
    ensures { OnOk result (places.new.items ≡ places.old.items
        ++ flat_map (element_places elements found.now) (numbers_below count)) }
{
    for element in 0..count {
        push_element(elements, found, element, places)?;
    }
    Ok(())
}

// Puts what the leaves of one element meet at the end.
fn push_element(
    elements: SourceElements,
    found: &[Option<u32>],
    element: u32,
    places: &mut Vec<Option<u32>>,
) -> Result<(), NoMemory>
    requires near { elements.first + elements.count * elements.leaves < 2 ^ 32 }
    requires inside { All (λ o. IfSome o (λ p. p < elements.leaves)) found.now }
    ensures { OnOk result (places.new.items ≡ places.old.items
        ++ element_places elements found.now element) }
{
    for place in found {
        places.push(leaf_in(elements, element, *place))?;
    }
    Ok(())
}

// The leaf in an element that has a number among those of one element, if the source has the element.
fn leaf_in(elements: SourceElements, element: u32, place: Option<u32>) -> Option<u32>
    requires near { elements.first + elements.count * elements.leaves < 2 ^ 32 }
    requires inside { IfSome place (λ p. p < elements.leaves) }
    ensures { result ≡ option_and_then (leaf_in elements element) place }
{
    let place = place?;
    if element < elements.count {
        Some(elements.first + element * elements.leaves + place)
    } else {
        None
    }
}
