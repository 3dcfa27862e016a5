// Fields of files: little-endian numbers at a place.
#![tactic(auto, unfolding(crate::specs::Fields::u16_at, crate::specs::Fields::u32_at))]

ghost use Rattle.std.specs.Prelude.{◌≡◌, ◌+◌, ◌≤◌, ◌<◌, length};
ghost use Rattle.fields.specs.Fields.{u8_at, u16_at, u32_at};

pub fn u8_at(b: &[u8], i: usize) -> u32
    requires { i + 1 ≤ length b.now }
    ensures { (result ≡ u8_at b.now i) × (result < 256) }
{
    u32::from(b[i])
}

pub fn u16_at(b: &[u8], o: usize) -> u32
    requires { o + 2 ≤ length b.now }
    ensures { (result ≡ u16_at b.now o) × (result < 65536) }
{
    u32::from(u16::from_le_bytes([b[o], b[o + 1]]))
}

pub fn u32_at(b: &[u8], o: usize) -> u32
    requires { o + 4 ≤ length b.now }
    ensures { result ≡ u32_at b.now o }
{
    u32::from_le_bytes([b[o], b[o + 1], b[o + 2], b[o + 3]])
}
