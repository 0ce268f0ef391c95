// Draws the cases of an outside emulator, which are numbered 00, 02, .. 38, and four of them again over two different banks: the
// stored sums are that emulator's, one for each line of each case. README.md has what the cases show.
#![tactic(auto)]

use line_sums::draw_case;
use std::io;

// The record, the ULA bank and the tile bank of each case: one bank serves as both in all but the last four.
const CASES: [(&str, &str, &str); 24] = [
    ("00.rec", "00.bank", "00.bank"),
    ("02.rec", "02.bank", "02.bank"),
    ("04.rec", "04.bank", "04.bank"),
    ("06.rec", "06.bank", "06.bank"),
    ("08.rec", "08.bank", "08.bank"),
    ("10.rec", "10.bank", "10.bank"),
    ("12.rec", "12.bank", "12.bank"),
    ("14.rec", "14.bank", "14.bank"),
    ("16.rec", "16.bank", "16.bank"),
    ("18.rec", "18.bank", "18.bank"),
    ("20.rec", "20.bank", "20.bank"),
    ("22.rec", "22.bank", "22.bank"),
    ("24.rec", "24.bank", "24.bank"),
    ("26.rec", "26.bank", "26.bank"),
    ("28.rec", "28.bank", "28.bank"),
    ("30.rec", "30.bank", "30.bank"),
    ("32.rec", "32.bank", "32.bank"),
    ("34.rec", "34.bank", "34.bank"),
    ("36.rec", "36.bank", "36.bank"),
    ("38.rec", "38.bank", "38.bank"),
    ("28.rec", "28.ula", "28.tile"),
    ("30.rec", "30.ula", "30.tile"),
    ("32.rec", "32.ula", "32.tile"),
    ("36.rec", "36.ula", "36.tile"),
];

fn main(rt: HostRuntime) -> io::Result<()> {
    for (record, ula, tile) in CASES {
        draw_case(&rt, record.as_bytes(), ula.as_bytes(), tile.as_bytes())?;
    }
    Ok(())
}
