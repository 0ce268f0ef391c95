// The walk over the parts of a record, in the order of the layout, written from the back: what a part tells where it is sound is what the
// parts behind it tell.
ghost use Rattle.std.specs.Prelude.{◌≡◌, cond, ◌≤◌, length, take, drop};
ghost use Rattle.record_layout.specs.declared.Version.TheVariants.{Version1};
ghost use Rattle.record_layout.specs.Parts.{first_bad_in};
ghost use Rattle.record_layout.specs.Layout.{before_scrolls, scrolls, after_scrolls};
ghost use Rattle.record_layout.specs.Places.{parts_place, ula_clip_place, ula_turn_place, ula_first_place};
ghost use Rattle.record_layout.specs.Record.{record_length, first_bad};

use record_colours::bad_colour;
use record_layout::Version;
use record_places::{added, places};
use register_bounds::{
    base_fits, border_fits, half_fits, is_choice, is_mask, offset_y_fits, select_fits,
    tile_control_fits, tile_transparent_fits, turn_fits, ula_control_fits, x_high_fits,
};

// The place of a field that does not fit, else what the fields behind it tell.
fn unless(fits: bool, place: usize, next: usize) -> usize
    ensures { result ≡ cond fits next place }
{
    if fits { next } else { place }
}

// The parts up to $33, which stand at the same places in every version.
fn bad_before_scrolls(b: &[u8], next: usize) -> usize
    requires { ula_clip_place Version1 ≤ length b.now }
    ensures { result ≡ first_bad_in before_scrolls b.now parts_place next }
{
    let next = unless(offset_y_fits(b[places::LORES_Y]), places::LORES_Y, next);
    let next = unless(base_fits(b[places::DEFINITIONS]), places::DEFINITIONS, next);
    let next = unless(base_fits(b[places::MAP]), places::MAP, next);
    let next = unless(
        x_high_fits(b[places::TILE_X_HIGH]),
        places::TILE_X_HIGH,
        next,
    );
    let next = unless(
        tile_control_fits(b[places::TILE_CONTROL]),
        places::TILE_CONTROL,
        next,
    );
    let next = unless(
        ula_control_fits(b[places::ULA_CONTROL]),
        places::ULA_CONTROL,
        next,
    );
    let next = unless(
        tile_transparent_fits(b[places::TILE_TRANSPARENT]),
        places::TILE_TRANSPARENT,
        next,
    );
    let next = unless(is_mask(b[places::MASK]), places::MASK, next);
    unless(
        is_choice(b[places::PALETTE_CONTROL]),
        places::PALETTE_CONTROL,
        next,
    )
}

// $26 and $27, where the version has them.
fn bad_scrolls(b: &[u8], v: Version, next: usize) -> usize
    requires { ula_first_place v ≤ length b.now }
    ensures { result ≡ first_bad_in (scrolls v) b.now (ula_clip_place Version1) next }
{
    match v {
        Version::Version1 => next,
        Version::Version2 => {
            let place = places::LORES_Y + added(Version::Version2);
            unless(offset_y_fits(b[place]), place, next)
        }
    }
}

// The four palettes.
fn bad_palettes(b: &[u8], v: Version, next: usize) -> usize
    requires { length b.now ≡ record_length v }
    ensures { result ≡ first_bad_in (drop 12 after_scrolls) b.now (ula_first_place v) next }
{
    let n = added(v);
    let next = bad_colour(b, places::TILE_SECOND + n, next);
    let next = bad_colour(b, places::TILE_FIRST + n, next);
    let next = bad_colour(b, places::ULA_SECOND + n, next);
    bad_colour(b, places::ULA_FIRST + n, next)
}

// The nine parts after the clips. Port $FF and the frame may be any bytes.
fn bad_after_clips(b: &[u8], v: Version, next: usize) -> usize
    requires { ula_first_place v ≤ length b.now }
    ensures { result ≡ first_bad_in (take 9 (drop 2 after_scrolls)) b.now (ula_turn_place v) next }
{
    let n = added(v);
    let next = unless(b[places::PLUS_ON + n] <= 1, places::PLUS_ON + n, next);
    let next = unless(select_fits(b[places::SELECT + n]), places::SELECT + n, next);
    let next = unless(border_fits(b[places::BORDER + n]), places::BORDER + n, next);
    let held = b[places::HELD + n];
    let next = unless(
        half_fits(held == 1, b[places::HALF + n]),
        places::HALF + n,
        next,
    );
    let next = unless(held <= 1, places::HELD + n, next);
    let next = unless(
        turn_fits(b[places::TILE_TURN + n]),
        places::TILE_TURN + n,
        next,
    );
    unless(
        turn_fits(b[places::ULA_TURN + n]),
        places::ULA_TURN + n,
        next,
    )
}

// The place of the first bad field, or the length where none is bad. The clips and the ULAplus registers may be any bytes.
pub fn first_bad(b: &[u8], v: Version) -> usize
    requires { length b.now ≡ record_length v }
    ensures { result ≡ first_bad v b.now }
{
    let next = bad_palettes(b, v, b.len());
    let next = bad_after_clips(b, v, next);
    let next = bad_scrolls(b, v, next);
    bad_before_scrolls(b, next)
}
