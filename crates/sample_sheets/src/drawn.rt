// A map and definitions set in a bank, and drawn by the tilemap's rule.
ghost use Rattle.std.specs.Prelude.{◌≡◌, ◌<◌, length};
ghost use Rattle.tilemap_entries.specs.Bounds.{SetupBounds};
ghost use Rattle.pack_rule.specs.Sheet.{sheet_setup};
ghost use Rattle.sample_sheets.specs.Counted.{bank_of, right_at, wrong_in};

use lists::put;
use tilemap_entries::TileSetup;

// The index at pixel i of 81,920 is that of the picture, with palette offset 0.
fn is_right(picture: &[u8], bank: &[u8], t: TileSetup, i: usize) -> bool
    requires { (length picture.now ≡ 40960) × (length bank.now ≡ 16384) × (SetupBounds t) × (i < 81920) }
    ensures { result ≡ right_at picture.now bank.now t i }
{
    let x = i % 320;
    let y = i / 320;
    tilemap_rule::index_at(t, bank, x, y)
        == tilemap_turns::half(x, usize::from(picture[y * 160 + x / 2]))
}

fn count_wrong(picture: &[u8], bank: &[u8], t: TileSetup) -> u64
    requires { (length picture.now ≡ 40960) × (length bank.now ≡ 16384) × (SetupBounds t) }
    ensures { result ≡ wrong_in picture.now bank.now t }
{
    let mut wrong = 0;
    for i in 0..81920 {
        if !is_right(picture, bank, t, i) {
            wrong += 1;
        }
    }
    wrong
}

// How many pixels differ, with the definitions at the bank's start and the map at its end: 40 columns, two bytes an entry,
// unscrolled, the ULA on.
pub fn differ(picture: &[u8], map: &[u8], definitions: &[u8]) -> u64
    requires { (length picture.now ≡ 40960) × (length map.now ≡ 2560) × (length definitions.now ≡ 8192) }
    ensures { result ≡ wrong_in picture.now (bank_of map.now definitions.now) (sheet_setup 0 13824 0) }
{
    let mut bank = [0u8; 16384];
    put(&mut bank, 0, definitions);
    put(&mut bank, 13824, map);
    let t = TileSetup {
        columns80: false,
        single: false,
        attribute: 0,
        ula: true,
        map: 13824,
        definitions: 0,
        x: 0,
        y: 0,
    };
    count_wrong(picture, &bank, t)
}
