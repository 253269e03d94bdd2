ghost use Rattle.std.specs.Prelude.{◌≡◌, ◌<◌, ◌⊎◌, None, Some, All, IfOk, IfErr, OnOk, length};
ghost use Rattle.bl_format.specs.Schema.{CanBeRead, IsCatalogue};
ghost use Rattle.bl_layout.specs.BasicTypes.{content_meant};
ghost use Rattle.bl_layout.specs.ShapeTables.{IsLayoutTables};
ghost use Rattle.bl_layout.specs.LaidOut.{IsLaidOut};
ghost use Rattle.bl_layout.specs.LeafFacts.{AreApart, IsSized, EndsAtZero};
ghost use Rattle.bl_format.specs.Nodes.{pointed_length};
ghost use Rattle.bl_format.specs.Layout.{HasLayout, basic_named, content_of, first_fault, type_entry, depth_fault, layout_fault, leaves_of, struct_length, shape_of, member_count, member_entry, name_of};

use crate::basic_types::Content;
use crate::copy::copy_of;
use crate::leaf_counts::{leaf_counts, leaves_fault};
use crate::leaf_levels::leaf_table;
use crate::member_parts::{member_content, member_count, member_key};
use crate::pointees::pointee_length;
use crate::shape_tables::{LayoutTables, ShapeTables, layout_tables_of};
use crate::shapes::{member_shape, struct_count, struct_length};
use bl_format::{Catalogue, LayoutFault, Leaf, Shape};
use bl_num::Width;
use std::alloc::Global;
use std::marker::Model;

/// Where the members of a catalogue's structs stand, and what leaves they have: Blender's `SDNA` with
/// what `DNA_genfile` works out of it. It has the catalogue too.
#[derive(Drop)]
pub struct Layout {
    catalogue: Catalogue,
    width: Width,
    shape_tables: ShapeTables,
    leaves: Vec<Vec<Leaf>>,
}

impl Model for Layout {
    ghost use Rattle.bl_layout.specs.LaidOut.{LaidOut, IsLaidOut};

    ghost Value = { LaidOut };

    ghost view = { λ l. record { catalogue = l.catalogue; width = l.width } };

    ghost invariant = { λ l. IsLaidOut l.catalogue l.width l.shape_tables l.leaves.items };
}

/// A catalogue that is given back, and the first check of a layout that it fails.
#[derive(Drop)]
pub struct RefusedCatalogue {
    pub catalogue: Catalogue,
    pub fault: LayoutFault,
}

impl Layout {
    /// Lays out all structs of a copy of a catalogue, or says which check fails first.
    pub fn new(alloc: Global, catalogue: &Catalogue, width: Width) -> Result<Layout, LayoutFault>
        requires { CanBeRead catalogue.now }
        ensures made { IfOk result (λ layout.
            layout ≡ record { catalogue = catalogue.now; width = width }) }
        ensures passes { OnOk result (layout_fault catalogue.now width ≡ None) }
        ensures refuses { IfErr result (λ fault. (fault ≡ LayoutFault.NoMemory)
            ⊎ (layout_fault catalogue.now width ≡ Some fault)) }
    {
        let copy = copy_of(alloc, catalogue)?;
        match Layout::from_catalogue(alloc, copy, width) {
            Ok(layout) => Ok(layout),
            Err(refused) => Err(refused.fault),
        }
    }

    /// Lays out all structs of a catalogue, or says which check fails first and gives it back.
    pub fn from_catalogue(
        alloc: Global,
        catalogue: Catalogue,
        width: Width,
    ) -> Result<Layout, RefusedCatalogue>
        requires { CanBeRead catalogue }
        ensures made { IfOk result (λ layout.
            layout ≡ record { catalogue = catalogue; width = width }) }
        ensures passes { OnOk result (layout_fault catalogue width ≡ None) }
        ensures given_back { IfErr result (λ refused. refused.catalogue ≡ catalogue) }
        ensures refuses { IfErr result (λ refused. (refused.fault ≡ LayoutFault.NoMemory)
            ⊎ (layout_fault catalogue width ≡ Some refused.fault)) }
    {
        match tables_and_leaves(alloc, &catalogue, width) {
            Ok((layout_tables, leaves)) => Ok(Layout {
                catalogue,
                width,
                shape_tables: layout_tables.shape_tables,
                leaves,
            }),
            Err(fault) => Err(RefusedCatalogue { catalogue, fault }),
        }
    }

    /// The catalogue that is laid out.
    pub fn catalogue(&self) -> &Catalogue
        ensures is { result.now ≡ self.now.catalogue }
        ensures has_layout { HasLayout self.now.catalogue self.now.width }
    {
        &self.catalogue
    }

    /// The width of pointers.
    pub fn width(&self) -> Width
        ensures { result ≡ self.now.width }
    {
        self.width
    }

    /// How many structs there are.
    pub fn struct_count(&self) -> u32
        ensures { result ≡ length self.now.catalogue.structs }
    {
        struct_count(&self.catalogue)
    }

    /// How many members a struct has.
    pub fn member_count(&self, s: u32) -> u32
        requires { s < length self.now.catalogue.structs }
        ensures { result ≡ member_count self.now.catalogue s }
    {
        member_count(&self.catalogue, s)
    }

    /// The leaves of a struct, in order.
    pub fn leaves(&self, s: u32) -> &[Leaf]
        requires { s < length self.now.catalogue.structs }
        ensures leaves { result.now ≡ leaves_of self.now.catalogue self.now.width s }
        ensures apart { AreApart 0 result.now (struct_length self.now.catalogue s) }
        ensures sized { All (IsSized self.now.width) result.now }
        ensures last_step { All EndsAtZero result.now }
        ensures has_layout { HasLayout self.now.catalogue self.now.width }
    {
        self.leaves[s as usize].as_slice()
    }

    /// The bytes of one value of a struct.
    pub fn length(&self, s: u32) -> u32
        requires { s < length self.now.catalogue.structs }
        ensures { result ≡ struct_length self.now.catalogue s }
    {
        struct_length(&self.catalogue, s)
    }

    /// The bytes of what a pointer to a type points to, if that is a basic type: those that Blender
    /// gives it, and where it may have two lengths, the one that it has here.
    pub fn pointee_length(&self, type_number: u16) -> Option<u8>
        ensures { result ≡ pointed_length self.now.catalogue type_number
            (basic_named (type_entry self.now.catalogue type_number).name) }
    {
        pointee_length(&self.catalogue, &self.shape_tables.tables, type_number)
    }

    /// What is known of a member by its name and its place.
    pub fn member_shape(&self, s: u32, member: u32) -> Shape
        requires s { s < length self.now.catalogue.structs }
        requires member { member < member_count self.now.catalogue s }
        ensures shape { result ≡ shape_of self.now.catalogue self.now.width s member }
        ensures has_layout { HasLayout self.now.catalogue self.now.width }
    {
        member_shape(&self.catalogue, self.width, &self.shape_tables, s, member)
    }

    /// The key of a member, by which it meets one of another catalogue: its name without brackets.
    pub fn member_key(&self, s: u32, member: u32) -> &[u8]
        requires s { s < length self.now.catalogue.structs }
        requires member { member < member_count self.now.catalogue s }
        ensures { result.now ≡ (name_of self.now.catalogue s member).key }
    {
        member_key(&self.catalogue, &self.shape_tables.tables, s, member)
    }

    /// What the type of a member holds.
    pub fn member_content(&self, s: u32, member: u32) -> Content
        requires s { s < length self.now.catalogue.structs }
        requires member { member < member_count self.now.catalogue s }
        ensures { content_meant result
            ≡ content_of self.now.catalogue (member_entry self.now.catalogue s member).type_number }
    {
        member_content(&self.catalogue, &self.shape_tables.tables, s, member)
    }
}

// The tables of a layout that passes all checks, and the leaves of each struct.
fn tables_and_leaves(
    alloc: Global,
    catalogue: &Catalogue,
    width: Width,
) -> Result<(LayoutTables, Vec<Vec<Leaf>>), LayoutFault>
    requires { CanBeRead catalogue.now }
    ensures laid_out { IfOk result (λ made.
        IsLaidOut catalogue.now width made.0.shape_tables made.1.items) }
    ensures passes { OnOk result (layout_fault catalogue.now width ≡ None) }
    ensures refuses { IfErr result (λ fault. (fault ≡ LayoutFault.NoMemory)
        ⊎ (layout_fault catalogue.now width ≡ Some fault)) }
{
    let layout_tables = checked_layout_tables(alloc, catalogue, width)?;
    let leaves = leaf_table(alloc, catalogue, width, &layout_tables)?;
    Ok((layout_tables, leaves))
}

// The tables of a layout that passes all checks.
fn checked_layout_tables(
    alloc: Global,
    catalogue: &Catalogue,
    width: Width,
) -> Result<LayoutTables, LayoutFault>
    requires { IsCatalogue catalogue.now }
    ensures stands { IfOk result (IsLayoutTables catalogue.now width) }
    ensures members { OnOk result (first_fault catalogue.now width ≡ None) }
    ensures depth { OnOk result (depth_fault catalogue.now ≡ None) }
    ensures passes { OnOk result (layout_fault catalogue.now width ≡ None) }
    ensures refuses { IfErr result (λ fault. (fault ≡ LayoutFault.NoMemory)
        ⊎ (layout_fault catalogue.now width ≡ Some fault)) }
{
    let layout_tables = layout_tables_of(alloc, catalogue, width)?;
    let counts = leaf_counts(alloc, catalogue, width, &layout_tables)?;
    match leaves_fault(catalogue, width, &counts) {
        Some(fault) => Err(fault),
        None => Ok(layout_tables),
    }
}
