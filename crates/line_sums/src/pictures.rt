// A record and two banks by name, and the sums of the 256 lines that they draw.
use crate::adler::line_sum;
use host::files::bytes_of;
use host::records::RECORD_FILE;
use state::State;
use std::io;
use std::rt::Files;
use surface::LineNumber;

// A line for each line of the picture: its sum, or its reply where it is refused.
pub fn print_lines(rt: &impl Print, ula: &[u8], tile: &[u8], s: State) -> io::Result<()> {
    for y in 0..256 {
        let mut dots = [0u16; 640];
        let r = line::draw(LineNumber(y), ula, tile, s, &mut dots);
        if r.is_done() {
            println!(rt; "{:08x}", line_sum(&dots))?;
        } else {
            println!(rt; "refused {}", u8::from(r))?;
        }
    }
    Ok(())
}

fn print_case(rt: &impl Print, record: &[u8], ula: &[u8], tile: &[u8]) -> io::Result<()> {
    let read = record::read_record(record);
    let r = read.reply;
    if r.is_done() {
        print_lines(rt, ula, tile, read.state)
    } else {
        println!(rt; "record refused {}", u8::from(r))
    }
}

// A path need not be text.
fn print_names(rt: &impl Print, record: &[u8], ula: &[u8], tile: &[u8]) -> io::Result<()> {
    rt.write_all(record)?;
    print!(rt; " ")?;
    rt.write_all(ula)?;
    print!(rt; " ")?;
    rt.write_all(tile)?;
    println!(rt; "")
}

// The case that a record, a ULA bank and a tile bank make; each buffer is a byte longer than its file must be, and a file that is missing
// is refused as too short.
pub fn draw_case(
    rt: &(impl Print + Files),
    record_path: &[u8],
    ula_path: &[u8],
    tile_path: &[u8],
) -> io::Result<()> {
    print_names(rt, record_path, ula_path, tile_path)?;
    let mut record = [0u8; RECORD_FILE];
    let mut ula = [0u8; 16385];
    let mut tile = [0u8; 16385];
    let r = bytes_of(rt, record_path, &mut record)?;
    let u = bytes_of(rt, ula_path, &mut ula)?;
    let t = bytes_of(rt, tile_path, &mut tile)?;
    print_case(rt, &record[..r], &ula[..u], &tile[..t])
}
