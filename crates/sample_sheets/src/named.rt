// How many different tile numbers a map has.
ghost use Rattle.std.specs.Prelude.{◌≡◌, ◌<◌, length};
ghost use Rattle.pack_rule.specs.Sheet.{named};
ghost use Rattle.sample_sheets.specs.Counted.{is_first};

// No entry before c has its tile number.
fn is_first(map: &[u8], c: usize) -> bool
    requires { (length map.now ≡ 2560) × (c < 1280) }
    ensures { result ≡ is_first map.now c }
{
    for i in 0..c {
        if map[i * 2] == map[c * 2] {
            return false;
        }
    }
    true
}

pub fn named(map: &[u8]) -> u64
    requires { length map.now ≡ 2560 }
    ensures { result ≡ named map.now }
{
    let mut n = 0;
    for c in 0..1280 {
        if is_first(map, c) {
            n += 1;
        }
    }
    n
}
