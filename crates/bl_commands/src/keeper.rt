/// What keeps datablocks (`ID` in Blender) when a file is purged.
#[derive(Clone, Copy, Debug, PartialEq, Eq)]
pub enum Keeper {
    /// A code of two letters, which all datablocks of one sort have (as `ID_OB`).
    Code([u8; 2]),
    /// A fake user (`LIB_FAKEUSER`).
    Fake,
    /// A reference from a group that no datablock heads.
    Other,
}
