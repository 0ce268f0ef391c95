// The calls that move a record to the other version.
ghost use Rattle.std.specs.Prelude.{◌≡◌, length};
ghost use Rattle.reply.specs.Reply.{reply_number};
ghost use Rattle.record_layout.specs.declared.Version.TheVariants.{Version1, Version2};
ghost use Rattle.record_moves.specs.Moves.{move_reply, move_place, moved_in};

// Puts the record of version 2 of the state in the old record `bytes` into `target`: its $26 and $27 are $32 and $33.
// Refused by 3 (`target` is not 2,152 bytes), 16, 17 (a record of version 2 too) or 18, in this order, it leaves `target`. `place` becomes
// the place that 16, 17 or 18 tells, else 0.
#[unsafe(no_mangle)]
pub extern "C" fn narephon_move_up(bytes: &[u8], target: &mut [u8], place: &mut u32) -> u8
    ensures { (result ≡ reply_number (move_reply Version1 bytes.now (length target.old)))
        × (target.new ≡ moved_in Version1 bytes.now target.old)
        × (place.new ≡ move_place Version1 bytes.now (length target.old)) }
{
    let moved = record_moves::move_up(bytes, target);
    *place = moved.place as u32;
    let r = moved.reply;
    u8::from(r)
}

// Puts the record of version 1 of the state in the record `bytes`, which is of version 2, into `target`.
// Refused by 3 (`target` is not 2,150 bytes), 16, 17 (an old record too), 18 or 15 ($26 is not $32, or $27 is not $33), in this order, it
// leaves `target`. `place` becomes the place that 16, 17 or 18 tells, else 0.
#[unsafe(no_mangle)]
pub extern "C" fn narephon_move_back(bytes: &[u8], target: &mut [u8], place: &mut u32) -> u8
    ensures { (result ≡ reply_number (move_reply Version2 bytes.now (length target.old)))
        × (target.new ≡ moved_in Version2 bytes.now target.old)
        × (place.new ≡ move_place Version2 bytes.now (length target.old)) }
{
    let back = record_moves::move_back(bytes, target);
    *place = back.place as u32;
    let r = back.reply;
    u8::from(r)
}
