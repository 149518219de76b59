//! Why a request is aborted, and the code that says so. 01, "Service requests".
ghost use Rattle.std.specs.Prelude.{◌≡◌};
ghost use Rattle.dictionary.specs.AbortCodes.{code_of, absence};

use entries::table::NotFound;

#[derive(Clone, Copy, PartialEq, Eq)]
pub enum Abort {
    WrongToggle,
    UnknownCommand,
    NoSuchIndex,
    NoSuchSubIndex,
    ReadOnly,
    TooLong,
    TooShort,
    InvalidValue,
    WrongSignature,
    DeviceState,
    Blank,
}

impl Abort {
    pub fn code(self) -> u32
        ensures { result ≡ code_of self }
    {
        match self {
            Abort::WrongToggle => 0x0503_0000,
            Abort::UnknownCommand => 0x0504_0001,
            Abort::NoSuchIndex => 0x0602_0000,
            Abort::NoSuchSubIndex => 0x0609_0011,
            Abort::ReadOnly => 0x0601_0002,
            Abort::TooLong => 0x0607_0012,
            Abort::TooShort => 0x0607_0013,
            Abort::InvalidValue => 0x0609_0030,
            Abort::WrongSignature => 0x0800_0020,
            Abort::DeviceState => 0x0800_0022,
            Abort::Blank => 0x0800_0024,
        }
    }
}

impl From<NotFound> for Abort {
    ghost from_gives = { λ absent reason. reason ≡ absence absent };

    fn from(absent: NotFound) -> Abort {
        match absent {
            NotFound::NoIndex => Abort::NoSuchIndex,
            NotFound::NoSubIndex => Abort::NoSuchSubIndex,
        }
    }
}
