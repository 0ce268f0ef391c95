// Four pictures packed and drawn by the tilemap's rule at every pixel, and the sheets that rgbgfx packed for the same
// pictures drawn likewise. rgbgfx knows mirrors and no rotation.
#![tactic(auto)]

mod drawn;
mod named;

use drawn::differ;
use host::files::bytes_of;
use named::named;
use std::io;
use std::rt::Files;

fn print(rt: &impl Print, label: &str, tiles: u64, wrong: u64) -> io::Result<()> {
    println!(rt; "{label}: tiles {tiles}, pixels that differ {wrong}")
}

fn print_picture(rt: &impl Print, label: &str, picture: &[u8]) -> io::Result<()> {
    if picture.len() != 40960 {
        return println!(rt; "no picture");
    }
    let mut map = [0u8; 2560];
    let mut definitions = [0u8; 8192];
    let tiles = packer::pack(picture, 256, 0, &mut map, &mut definitions).unwrap_or(0);
    let wrong = differ(picture, &map, &definitions);
    print(rt, label, tiles as u64, wrong)
}

// The packing of a picture.
fn print_packed(rt: &(impl Print + Files), label: &str, path: &str) -> io::Result<()> {
    let mut picture = [0u8; 40961];
    let n = bytes_of(rt, path.as_bytes(), &mut picture)?;
    print_picture(rt, label, &picture[..n])
}

fn print_parts(rt: &impl Print, label: &str, picture: &[u8], sheet: &[u8]) -> io::Result<()> {
    if picture.len() != 40960 {
        return println!(rt; "no picture");
    }
    if sheet.len() != 10752 {
        return println!(rt; "no sheet");
    }
    let start = 0;
    let seam = 2560;
    let map = &sheet[start..seam];
    let definitions = &sheet[seam..];
    let wrong = differ(picture, map, definitions);
    print(rt, label, named(map), wrong)
}

// A sheet, map first, and the picture it was made for.
fn print_sheet(rt: &(impl Print + Files), label: &str, path: &str, from: &str) -> io::Result<()> {
    let mut picture = [0u8; 40961];
    let n = bytes_of(rt, path.as_bytes(), &mut picture)?;
    let mut sheet = [0u8; 10753];
    let m = bytes_of(rt, from.as_bytes(), &mut sheet)?;
    print_parts(rt, label, &picture[..n], &sheet[..m])
}

fn main(rt: HostRuntime) -> io::Result<()> {
    print_packed(&rt, "plain", "plain.pic")?;
    print_packed(&rt, "mirror", "mirror.pic")?;
    print_packed(&rt, "allsym", "allsym.pic")?;
    print_packed(&rt, "one", "one.pic")?;
    print_sheet(&rt, "plain by rgbgfx", "plain.pic", "plain.rgbgfx.sheet")?;
    print_sheet(&rt, "mirror by rgbgfx", "mirror.pic", "mirror.rgbgfx.sheet")?;
    print_sheet(&rt, "allsym by rgbgfx", "allsym.pic", "allsym.rgbgfx.sheet")?;
    print_sheet(&rt, "one by rgbgfx", "one.pic", "one.rgbgfx.sheet")
}
