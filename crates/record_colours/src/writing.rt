// A palette put into a record.
ghost use Rattle.std.specs.Prelude.{◌≡◌, ◌+◌, ◌*◌, ◌≤◌, length};
ghost use Rattle.lists.specs.Placed.{placed};
ghost use Rattle.record_layout.specs.Fields.{pair, row_bytes};

// Two bytes a colour, high first.
pub fn put_colours(target: &mut [u8], at: usize, src: &[u16])
    requires { at + 2 * length src.now ≤ length target.old }
    ensures { target.new ≡ placed target.old at (row_bytes pair src.now) }
{
    for (i, c) in src.iter().enumerate() {
        let o = at + 2 * i;
        target[o] = (*c / 256) as u8;
        target[o + 1] = (*c % 256) as u8;
    }
}
