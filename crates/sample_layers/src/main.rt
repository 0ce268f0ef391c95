// Lines with lent layers: the six orders, over a composed line that shows and over one that is transparent; what each number of a lent
// line does; and what is refused by 3, 4, 19 and 20. After a reply stand dots of the line, 65535 where it is as it was.
#![tactic(auto)]

mod asked;

use asked::{ask_lengths, ask_number, ask_order};
use std::io;

// $14: a colour that the screen does not have, and the one that it shows, which then is transparent.
const OTHER: u8 = 0xE3;

const SAME: u8 = 0x1C;

// The values of $15, whose bits 4 to 2 are the order.
const ORDERS: [(&str, u8); 8] = [
    ("000 SLU", 0),
    ("001 LSU", 4),
    ("010 SUL", 8),
    ("011 LUS", 12),
    ("100 USL", 16),
    ("101 ULS", 20),
    ("110", 24),
    ("111", 28),
];

fn print_orders(rt: &impl Print, transparent: u8) -> io::Result<()> {
    for (label, order) in ORDERS {
        ask_order(rt, label, order, transparent)?;
    }
    Ok(())
}

// Bit 0, which shows the sprites of the machine itself, and bits 6, 5 and 1 do not matter.
fn print_other_bits(rt: &impl Print) -> io::Result<()> {
    ask_order(rt, "001 LSU, other bits", 0x67, OTHER)
}

fn print_layer2(rt: &impl Print) -> io::Result<()> {
    for n in [511, 512, 513, 1023, 1024, 1535, 1536, 65535] {
        ask_number(rt, format_args!("Layer 2 {n}"), n, 512, 0, 0)?;
    }
    Ok(())
}

fn print_sprites(rt: &impl Print) -> io::Result<()> {
    for n in [511, 512, 513, 1024, 65535] {
        ask_number(rt, format_args!("sprites {n}"), 512, n, 0, 0)?;
    }
    Ok(())
}

// Numbers that would not show.
fn print_hidden(rt: &impl Print) -> io::Result<()> {
    ask_number(rt, "Layer 2 600 below a sprite", 600, 7, 0, 0)?;
    ask_number(rt, "sprites 600 below Layer 2", 7, 600, 4, 0)?;
    ask_number(rt, "both below the screen", 600, 600, 16, 0)
}

fn print_lengths(rt: &impl Print) -> io::Result<()> {
    ask_lengths(rt, "Layer 2 of 639", 639, 640, 640)?;
    ask_lengths(rt, "sprites of 641", 640, 641, 640)?;
    ask_lengths(rt, "639 dots", 640, 640, 639)?;
    ask_lengths(rt, "none of 640", 0, 641, 641)
}

// A border of 8 is not lawful.
fn print_first(rt: &impl Print) -> io::Result<()> {
    ask_number(rt, "19 before 20", 513, 513, 24, 0)?;
    ask_number(rt, "4 before 19", 513, 512, 28, 8)?;
    ask_number(rt, "4 before 20", 512, 513, 0, 8)
}

fn main(rt: HostRuntime) -> io::Result<()> {
    print_orders(&rt, OTHER)?;
    print_orders(&rt, SAME)?;
    print_other_bits(&rt)?;
    print_layer2(&rt)?;
    print_sprites(&rt)?;
    print_hidden(&rt)?;
    print_lengths(&rt)?;
    print_first(&rt)
}
