// Parts of bytes.
ghost use Rattle.std.specs.Prelude.{◌≡◌, ◌+◌, ◌<◌, ◌≤◌, All, length, take, drop};

/// Fills all of `dst` with the bytes from the place `at` on.
pub fn copy_part(bytes: &[u8], at: u64, dst: &mut [u8])
    requires { at + length dst.old ≤ length bytes.now }
    ensures copied { dst.new ≡ take (length dst.old) (drop at bytes.now) }
    ensures below { All (λ byte. byte < 256) bytes.now }
{
    let rest = &bytes[at as usize..];
    dst.copy_from_slice(&rest[..dst.len()]);
}
