// A draft of an opened file, with what is known of it before anything is read.
use crate::structs::TargetStructs;
use bl_file::{Head, Outline};
use bl_selection::Draft;

/// A draft of an opened file, the file's structs under its catalogue, and the heads of its entries.
#[derive(Clone, Copy)]
pub struct Prepared<'a> {
    pub draft: &'a Draft,
    pub outline: &'a Outline,
    pub structs: &'a TargetStructs<'a>,
    pub heads: &'a [Head],
}
