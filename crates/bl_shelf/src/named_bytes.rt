// Files in memory, the newest first.
ghost use Rattle.std.specs.Prelude.{◌≡◌, option_copied};
ghost use Rattle.std.specs.FinMap.{get};
ghost use Rattle.bl_shelf.specs.NamedBytes.{held_in};

#[derive(Drop)]
pub(crate) struct NamedBytes {
    pub name: Vec<u8>,
    pub bytes: Vec<u8>,
}

// The bytes of the first file of this name.
pub(crate) fn bytes_in<'a>(files: &'a [NamedBytes], name: &[u8]) -> Option<&'a [u8]>
    ensures { option_copied result ≡ get (held_in files.now) name.now }
{
    for file in files {
        if name == file.name.as_slice() {
            return Some(file.bytes.as_slice());
        }
    }
    None
}
