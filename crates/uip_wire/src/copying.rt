ghost use Rattle.std.specs.Prelude.{◌≡◌, length};

/// Copies bytes. It is not inlined, since each caller would contain a loop of its own.
#[inline(never)]
pub fn copy_bytes(out: &mut [u8], from: &[u8])
    requires { length out.old ≡ length from.now }
    ensures long { length out.new ≡ length out.old }
    ensures bytes { out.new ≡ from.now }
{
    out.copy_from_slice(from);
}
