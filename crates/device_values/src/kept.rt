ghost use Rattle.std.specs.Prelude.{◌≡◌, ◌≤◌, length, take};

/// A copy of a value's bytes.
#[derive(Drop)]
pub struct Kept {
    pub len: u8,
    pub bytes: [u8; 32],
    pub ghost within: { len ≤ 32 },
}

impl Kept {
    /// Returns the bytes.
    pub(crate) fn text(&self) -> &[u8]
        ensures text { result.now ≡ take self.now.len self.now.bytes }
        ensures short { length result.now ≤ 32 }
    {
        &self.bytes[..self.len as usize]
    }
}
