// Draws what the outside cases do not reach: the stored sums are those of `bindings/rust/model`, an independent implementation.
// README.md has what each record shows.
#![tactic(auto)]

use line_sums::draw_case;
use std::io;

// A record and the tile bank under it: the ULA bank is `bank`, which serves as both, or differs from the other bank in every byte.
const CASES: [(&str, &str); 34] = [
    ("timex_off.rec", "bank"),
    ("offset_13_mode_0.rec", "bank"),
    ("offset_13_mode_6.rec", "bank"),
    ("map_scroll_255.rec", "bank"),
    ("stencil.rec", "bank"),
    ("bit_8_ula_off.rec", "bank"),
    ("bit_8_ula_on.rec", "bank"),
    ("one_byte_entries.rec", "bank"),
    ("mask_1.rec", "bank"),
    ("mask_63.rec", "bank"),
    ("mask_127.rec", "bank"),
    ("mask_255.rec", "bank"),
    ("lores_plus.rec", "bank"),
    ("lores_clip.rec", "bank"),
    ("lores_timex_6.rec", "bank"),
    ("lores_mask_255.rec", "bank"),
    ("border_6_plain.rec", "bank"),
    ("border_6_next.rec", "bank"),
    ("border_6_plus.rec", "bank"),
    ("transparent_plus.rec", "bank"),
    ("flash.rec", "bank"),
    ("flash_plus.rec", "bank"),
    ("last_entry.rec", "bank"),
    ("far_offset.rec", "bank"),
    ("no_mode.rec", "bank"),
    ("bit_8_ula_on.rec", "other_bank"),
    ("one_byte_entries.rec", "other_bank"),
    ("stencil.rec", "other_bank"),
    ("ula_clip_crossed.rec", "bank"),
    ("tile_clip_80.rec", "other_bank"),
    ("tile_clip_crossed.rec", "other_bank"),
    ("two_scrolls_mode_0.rec", "bank"),
    ("two_scrolls_mode_6.rec", "bank"),
    ("two_scrolls_lores.rec", "bank"),
];

fn main(rt: HostRuntime) -> io::Result<()> {
    for (record, tile) in CASES {
        draw_case(&rt, record.as_bytes(), b"bank", tile.as_bytes())?;
    }
    Ok(())
}
