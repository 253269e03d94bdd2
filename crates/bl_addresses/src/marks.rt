ghost use Rattle.std.specs.Prelude.{◌≡◌, ◌<◌, length};
ghost use Rattle.bl_addresses.specs.Marks.{mark_at, mark_of, marks_by, is_member, place_in, place_of, row_of};

/// What an address is compared with in a node.
#[derive(Clone, Copy)]
pub struct Mark {
    pub address: u64,
    pub group: u32,
    pub is_an_id: bool,
}

/// Among which nodes an address is looked up.
#[derive(Clone, Copy)]
pub enum Scope {
    /// Those of a group.
    Group,
    /// The IDs of the file.
    File,
}

/// Where a node is found in a scope.
#[derive(Clone, Copy)]
pub struct Place {
    /// The group, or 0 in the file.
    pub part: u32,
    pub address: u64,
}

/// A node where it is looked up: its part, its address and its number.
#[derive(Clone, Copy)]
pub struct Row {
    pub address: u64,
    pub part: u32,
    pub node: u32,
}

/// The mark of a node, of several by their groups, their addresses and whether they are IDs.
pub fn mark_at(groups: &[u32], addresses: &[u64], ids: &[bool], n: usize) -> Mark
    requires addresses { length addresses.now ≡ length groups.now }
    requires ids { length ids.now ≡ length groups.now }
    requires inside { n < length groups.now }
    ensures { mark_of result ≡ mark_at (marks_by groups.now addresses.now ids.now) n }
{
    Mark {
        address: addresses[n],
        group: groups[n],
        is_an_id: ids[n],
    }
}

/// Whether a node is looked up in a scope.
pub fn is_member(scope: Scope, mark: Mark) -> bool
    ensures { result ≡ is_member scope (mark_of mark) }
{
    match scope {
        Scope::Group => true,
        Scope::File => mark.is_an_id,
    }
}

/// Where a node is found in a scope.
pub fn place_in(scope: Scope, mark: Mark) -> Place
    ensures { result ≡ place_in scope (mark_of mark) }
{
    let part = match scope {
        Scope::Group => mark.group,
        Scope::File => 0,
    };
    Place {
        part,
        address: mark.address,
    }
}

/// A node where it is looked up in a scope, by its mark and its number.
pub fn row_of(scope: Scope, mark: Mark, node: u32) -> Row
    ensures { result ≡ row_of scope (mark_of mark) node }
{
    let place = place_in(scope, mark);
    Row {
        address: place.address,
        part: place.part,
        node,
    }
}

/// Where the node of a row is found.
pub fn place_of(row: Row) -> Place
    ensures { result ≡ place_of row }
{
    Place {
        part: row.part,
        address: row.address,
    }
}
