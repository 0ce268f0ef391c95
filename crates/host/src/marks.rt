// Buffers that are filled with one byte before they are lent, so that what a call writes there shows.
ghost use Rattle.std.specs.Prelude.{◌≡◌};
ghost use Rattle.host.specs.Marks.{all_marked};

pub const MARK: u8 = 85;

// Whether every byte is still the mark.
pub fn untouched(bytes: &[u8]) -> bool
    ensures { result ≡ all_marked bytes.now }
{
    bytes.iter().all(|byte| *byte == MARK)
}
