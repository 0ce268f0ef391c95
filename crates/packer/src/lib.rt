// The tile packer: the map and the definitions of a picture, and the fewest tiles that draw it. `pack` and `fewest` ask for nothing;
// the functions of the module ask for what `judge` has established.
#![tactic(auto)]

ghost use Rattle.std.specs.Prelude.{◌≡◌, MatchResult};
ghost use Rattle.reply.specs.declared.Reply.TheVariants.{Done};
ghost use Rattle.reply.specs.Reply.{reply_number};
ghost use Rattle.pack_rule.specs.Answer.{judged};
ghost use Rattle.pack_rule.specs.Packs.{Packs, CountsFewest};

mod sheet;

use reply::Reply;
use sheet::{count, write};

// The refusals that come before any cell is looked at, from the three lengths and the two numbers.
fn judge(pic: usize, map: usize, defs: usize, allowed: usize, offset: usize) -> Result<(), Reply>
    ensures { MatchResult result (λ _. judged pic map defs allowed offset ≡ Done) (λ r. (r ≡ judged pic map defs allowed offset) × (reply_number r ≡ 0 → ⊥)) }
{
    if (pic == 40960) & (map == 2560) & (defs == 8192) {
        if (allowed <= 256) & (offset <= 15) {
            Ok(())
        } else {
            Err(Reply::PackingBounds)
        }
    } else {
        Err(Reply::BufferLength)
    }
}

// Packs a picture into a map and definitions of at most `allowed` tiles, with a palette offset. How many tiles the map names.
pub fn pack(
    picture: &[u8],
    allowed: usize,
    offset: usize,
    map: &mut [u8],
    definitions: &mut [u8],
) -> Result<usize, Reply>
    ensures { Packs picture.now allowed offset map.old definitions.old map.new definitions.new result }
{
    judge(picture.len(), map.len(), definitions.len(), allowed, offset)?;
    write(picture, allowed, offset, map, definitions).ok_or(Reply::TooManyTiles)
}

// The fewest tiles that draw a picture: the answer of `pack` with 256 allowed and buffers of the right lengths. By `let .. else`, so that an edit
// can give a picture of more tiles a count.
pub fn fewest(picture: &[u8]) -> Result<usize, Reply>
    ensures { CountsFewest picture.now result }
{
    judge(picture.len(), 2560, 8192, 256, 0)?;
    let Some(n) = count(picture, 256) else {
        return Err(Reply::TooManyTiles);
    };
    Ok(n)
}
