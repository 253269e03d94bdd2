ghost use Rattle.std.specs.Prelude.{◌≡◌, ◌<◌, ◌^◌, None};
ghost use Rattle.bl_format.specs.Graph.{Target, Naming};
ghost use Rattle.bl_selection.specs.Written.{address_of};

/// What addresses become in the output: Blender's old pointers as new ones.
pub trait Images {
    /// What an address names in the output.
    ghost names: { Self → Naming Target };

    /// The address that what an address names has in the output: it fits either width.
    fn image(&self, address: u64) -> u64
        ensures image { result ≡ address_of (names self.now address) }
        ensures small { result < 2 ^ 32 };

    /// The address 0 names nothing, so that null stays null.
    ghost null_names_nothing: { (i : Self) → names i 0 ≡ None };
}
