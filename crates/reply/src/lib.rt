// The answers of every call: a case for each reply of section 9 of the rules, and the first that refuses.
#![tactic(auto)]

ghost use Rattle.std.specs.Prelude.{◌≡◌};
ghost use Rattle.reply.specs.Reply.{is_done, reply_number};

mod answers;
mod first;
mod lengths;

pub use answers::reply_of;
pub use first::first_of;
pub use lengths::length_reply;

#[derive(Clone, Copy)]
pub enum Reply {
    Done,
    NoLine,
    BankLength,
    BufferLength,
    NotLawful,
    NoMode,
    LoresWithTiles,
    NextWithPlus,
    FarOffset,
    NoRegister,
    OutOfBounds,
    TooManyTiles,
    PackingBounds,
    NoForm,
    PairsDiffer,
    WrongCount,
    WrongVersion,
    BadField,
    NoOrder,
    BadDot,
    BadDesk,
    AlreadyOpen,
    NotOpen,
    DeskFull,
    BadTrace,
    LinesFall,
}

impl Reply {
    // Nothing is refused.
    pub fn is_done(self) -> bool
        ensures { result ≡ is_done self }
    {
        matches!(self, Reply::Done)
    }
}

// The paper's number of a reply. 13 is retired: 16, 17 and 18 stand in its place.
impl From<Reply> for u8 {
    ghost from_gives = { λ r n. n ≡ reply_number r };

    fn from(r: Reply) -> u8 {
        match r {
            Reply::Done => 0,
            Reply::NoLine => 1,
            Reply::BankLength => 2,
            Reply::BufferLength => 3,
            Reply::NotLawful => 4,
            Reply::NoMode => 5,
            Reply::LoresWithTiles => 6,
            Reply::NextWithPlus => 7,
            Reply::FarOffset => 8,
            Reply::NoRegister => 9,
            Reply::OutOfBounds => 10,
            Reply::TooManyTiles => 11,
            Reply::PackingBounds => 12,
            Reply::NoForm => 14,
            Reply::PairsDiffer => 15,
            Reply::WrongCount => 16,
            Reply::WrongVersion => 17,
            Reply::BadField => 18,
            Reply::NoOrder => 19,
            Reply::BadDot => 20,
            Reply::BadDesk => 21,
            Reply::AlreadyOpen => 22,
            Reply::NotOpen => 23,
            Reply::DeskFull => 24,
            Reply::BadTrace => 25,
            Reply::LinesFall => 26,
        }
    }
}
