// A file that is held whole.
ghost use Rattle.std.specs.Prelude.{◌≡◌, ◌<◌, All, length};

use crate::Payload;
use bl_num::{Text, copy_part};
use bl_shelf::{Shelf, ShelfFault};
use std::alloc::Global;

/// A file that is held whole.
#[derive(Drop)]
pub struct WholePayload {
    name: Text,
    bytes: Text,
}

impl Payload for WholePayload {
    ghost use Rattle.std.proofs.Common.{ap};

    ghost file_name = { λ p. p.name };

    ghost file_size = { λ p. length p.bytes };

    ghost agrees = { λ p bytes. (bytes ≡ p.bytes) × All (λ byte. byte < 256) bytes };

    ghost agreed_size = { λ p bytes agrees. ap length agrees.0 };

    ghost agreed_bytes = { λ p bytes agrees. agrees.1 };

    fn start<S: Shelf>(
        alloc: Global,
        shelf: &mut S,
        name: &str,
        size: u64,
    ) -> Result<Self, ShelfFault> {
        let file = Vec::from_slice(alloc, name.as_bytes())?;
        let mut bytes = vec![in alloc; 0; size as usize]?;
        shelf.read_at(name, 0, &mut bytes)?;
        Ok(WholePayload {
            name: Text::from_vec(file),
            bytes: Text::from_vec(bytes),
        })
    }

    fn copy_out<S: Shelf>(
        &mut self,
        shelf: &mut S,
        at: u64,
        dst: &mut [u8],
    ) -> Result<(), ShelfFault> {
        copy_part(self.bytes.as_slice(), at, dst);
        Ok(())
    }
}
