// The calls that only read a lent record, of either version.
ghost use Rattle.std.specs.Prelude.{◌≡◌};
ghost use Rattle.reply.specs.Reply.{reply_number};
ghost use Rattle.record_layout.specs.Record.{judged_record};
ghost use Rattle.registers.specs.Registers.{read_register, read_port};
ghost use Rattle.reply.specs.Answered.{reply_of, value_of};
ghost use Rattle.lent.specs.Lent.{lent_reading};

use lent::Query;
use reply::reply_of;

// Says whether `bytes` are a record of a lawful state: 0, or 16, 17 or 18, in this order, and puts the place of what is wrong into `place`,
// counted from the front; 0 where nothing is. Every call that takes a record judges it so by itself; this one does nothing else.
#[unsafe(no_mangle)]
pub extern "C" fn narephon_check_record(bytes: &[u8], place: &mut u32) -> u8
    ensures { (result ≡ reply_number (judged_record bytes.now).reply) × (place.new ≡ (judged_record bytes.now).place) }
{
    let judgement = record::judge_record(bytes);
    *place = judgement.place as u32;
    let r = judgement.reply;
    u8::from(r)
}

// Reads the register of this number in the record `bytes` into `value`; nothing in the record moves.
// Refused by 16, 17, 18 or 9, it sets `value` to 0.
#[unsafe(no_mangle)]
pub extern "C" fn narephon_read_register(bytes: &[u8], register: u8, value: &mut u8) -> u8
    ensures { (result ≡ reply_number (reply_of (lent_reading (λ s. read_register s register) bytes.now)))
        × (value.new ≡ value_of (lent_reading (λ s. read_register s register) bytes.now)) }
{
    let got = lent::query_record(bytes, Query::Register(register));
    *value = got.unwrap_or(0);
    u8::from(reply_of(got))
}

// Reads the port of this whole number in the record `bytes` into `byte`; nothing in the record moves.
// Refused by 16, 17, 18 or 9, it sets `byte` to 0. $00FE and $BF3B cannot be read, $00FF only while $08 bit 2 is set.
#[unsafe(no_mangle)]
pub extern "C" fn narephon_read_port(bytes: &[u8], port: u16, byte: &mut u8) -> u8
    ensures { (result ≡ reply_number (reply_of (lent_reading (λ s. read_port s port) bytes.now)))
        × (byte.new ≡ value_of (lent_reading (λ s. read_port s port) bytes.now)) }
{
    let got = lent::query_record(bytes, Query::Port(port));
    *byte = got.unwrap_or(0);
    u8::from(reply_of(got))
}
