use bl_addresses::Table;
use bl_format::{Head, Header, RawKind};
use bl_layout::Layout;
use bl_num::Items;

/// What is read of a file beside its payloads.
#[derive(Drop)]
pub struct Outline {
    pub header: Header,
    /// The catalogue, laid out at the header's width.
    pub layout: Layout,
    /// All blocks but the catalogue's, in order.
    pub nodes: Items<Head>,
    /// For each node whether it is an ID.
    pub ids: Items<bool>,
    /// Which nodes addresses name.
    pub table: Table,
    /// For each node its kind as raw data; a struct node counts as bytes.
    pub kinds: Items<RawKind>,
    /// The file's size in bytes.
    pub size: u64,
}

/// A file that is opened: what is read of it, and its bytes.
#[derive(Drop)]
pub struct Opened<P> {
    pub outline: Outline,
    pub payload: P,
}
