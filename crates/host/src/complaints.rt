// What is wrong, in lines on standard error that begin with the program's name.
use reply::Reply;
use std::{fmt, io};

// What a reply means, for those that a program can be refused by.
#[derive(Clone, Copy)]
pub struct Sentence(pub Reply);

impl fmt::Display for Sentence {
    fn fmt<W: fmt::Write>(&self, f: &mut fmt::Formatter<W>) -> fmt::Result {
        f.write_str(match self.0 {
            Reply::BankLength => "a bank is not 16,384 bytes long",
            Reply::NoMode => "the ULA is on, LoRes is off, and port $FF gives no mode",
            Reply::LoresWithTiles => "LoRes and the tilemap are both on",
            Reply::NextWithPlus => "ULANext and ULAplus are both on",
            Reply::FarOffset => "the tilemap is on and its X offset is past its width",
            Reply::NoRegister => {
                "there is no such register or port, or it cannot be used that way"
            }
            Reply::OutOfBounds => "the value is out of its bounds",
            Reply::NoForm => "the file is not a screen, or the screen has no form as a file",
            Reply::PairsDiffer => {
                "the record cannot be moved back: $26 is not $32, or $27 is not $33"
            }
            Reply::WrongCount => {
                "the record's stated number is missing, is not the number of bytes following, or is neither 2,148 nor 2,150"
            }
            Reply::WrongVersion => {
                "the record's version is not read here, or is not the one of its length"
            }
            Reply::BadField => "a field of the record is out of its bounds",
            Reply::BadTrace => "the trace is not well formed",
            Reply::LinesFall => "the lines of the trace fall",
            _ => "see the table of replies",
        })
    }
}

// Standard error, and the name that a program's lines begin with there.
#[derive(Drop)]
pub struct Complaints<'a, E> {
    pub err: E,
    pub program: &'a [u8],
}

impl<'a, E: Print> Complaints<'a, E> {
    // The start of a line.
    fn name(&self) -> io::Result<()> {
        self.err.write_all(self.program)?;
        print!(self.err; ": ")
    }

    pub fn say<D: fmt::Display + Drop>(&self, what: D) -> io::Result<()> {
        self.name()?;
        println!(self.err; "{what}")
    }

    // A path need not be text.
    pub fn missing(&self, path: &[u8]) -> io::Result<()> {
        self.name()?;
        print!(self.err; "cannot read ")?;
        self.err.write_all(path)?;
        println!(self.err; "")
    }

    pub fn refused(&self, r: Reply) -> io::Result<()> {
        self.name()?;
        println!(self.err; "refused {}: {}", u8::from(r), Sentence(r))
    }

    // A line that is refused by its state, or by an entry of a trace, whose place follows the reply: 9 and 10 are of entries alone.
    pub fn line_refused(&self, line: usize, r: Reply, place: u16) -> io::Result<()> {
        self.name()?;
        print!(self.err; "line {line}: refused {}", u8::from(r))?;
        if matches!(r, Reply::NoRegister | Reply::OutOfBounds) {
            print!(self.err; " at entry {place}")?;
        }
        println!(self.err; ": {}", Sentence(r))
    }
}
