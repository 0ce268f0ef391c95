// The columns of the bank's picture that the display shows. Cells and offsets are small, so that the sums fit.
ghost use Rattle.std.specs.Prelude.{◌≡◌, ◌*◌, ◌/◌, ◌<◌};
ghost use Rattle.ula_scroll.specs.Scrolls.{pixel_read, dot_read, lores_read};
ghost use Rattle.ula_scroll.specs.Columns.{PixelsRead, DotsRead};

// The column of 32 that cell i of a row shows. The offset is rounded down to whole cells, so that one byte has a cell's eight pixels.
pub fn cell_column(i: usize, offset: usize) -> usize
    requires { (i < 32) × (offset < 256) }
    ensures { (result ≡ pixel_read (i * 8) offset / 8) × (PixelsRead i offset result) × (result < 32) }
{
    (i + offset / 8) % 32
}

// Mode 6: the column of 64 that column c of the display shows.
pub fn hires_column(c: usize, offset: usize) -> usize
    requires { (c < 64) × (offset < 256) }
    ensures { (result ≡ dot_read (c * 8) offset / 8) × (DotsRead c offset result) × (result < 64) }
{
    (c + offset / 8 * 2) % 64
}

// LoRes: the column of 128 that pixel x of the display shows.
pub fn lores_column(x: usize, offset: usize) -> usize
    requires { (x < 256) × (offset < 256) }
    ensures { (result ≡ lores_read x offset / 2) × (result < 128) }
{
    (x + offset) % 256 / 2
}
