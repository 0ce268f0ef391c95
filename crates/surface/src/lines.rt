// The lines of the surface and of the display in it.
ghost use Rattle.std.specs.Prelude.{◌≡◌};
ghost use Rattle.surface.specs.Lines.{is_line, in_display, display_line};

// A line of the surface, counted from the top; any number, until a call has judged it.
#[derive(Clone, Copy)]
pub struct LineNumber(pub usize);

pub fn is_line(l: LineNumber) -> bool
    ensures { result ≡ is_line l }
{
    l.0 <= 255
}

pub fn in_display(l: LineNumber) -> bool
    ensures { result ≡ in_display l }
{
    (32 <= l.0) & (l.0 <= 223)
}

pub fn display_line(l: LineNumber) -> usize
    ensures { result ≡ display_line l }
{
    if l.0 < 32 { 0 } else { l.0 - 32 }
}
