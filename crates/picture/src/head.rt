// The head of a picture file.
ghost use Rattle.std.specs.Prelude.{◌≡◌};
ghost use Rattle.picture.specs.Header.{header_bytes};

// A binary PPM, 640 by 512, with a byte for each of red, green and blue.
pub fn header() -> [u8; 15]
    ensures { result ≡ header_bytes }
{
    *b"P6\n640 512\n255\n"
}
