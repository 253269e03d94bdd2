use bl_draft::TargetStructs;
use bl_format::{Head, Header, RawKind};
use bl_layout::Layout;

/// What is written of one source under a header and a catalogue: the nodes by their heads, as they
/// stand in the source, their kinds, and what becomes of elements of structs.
#[derive(Drop)]
pub struct Output<'a> {
    /// The source's header.
    pub from: Header,
    /// The source's catalogue, laid out.
    pub source: &'a Layout,
    /// The header that is written.
    pub header: Header,
    /// The source's structs under the catalogue that is written.
    pub structs: &'a TargetStructs<'a>,
    pub nodes: &'a [Head],
    /// For each node its kind as raw data; a struct node counts as bytes.
    pub kinds: &'a [RawKind],
}
