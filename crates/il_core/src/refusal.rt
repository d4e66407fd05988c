use crate::{Name, NoMemory};

/// What a text has too many of.
#[derive(Clone, Copy, Debug, PartialEq, Eq)]
pub enum Many {
    /// More than 64 procedures.
    Procedures,
    /// More than 1,000 lines in a procedure.
    Lines,
    /// More than 64 places in a procedure.
    Places,
}

/// Why a text is refused.
#[derive(Clone, Copy, Debug, PartialEq, Eq)]
pub enum Code {
    /// More than 1,048,576 bytes.
    TooLong,
    /// A byte above 127.
    NotAscii,
    /// A byte that begins no token, an open comment, or a name of more than 40 bytes.
    Lexical,
    /// A number above its limit.
    Number,
    /// A statement without a form.
    Syntax,
    /// A statement out of order.
    Order,
    /// A block or label that is unmatched.
    Unmatched,
    /// A name that is declared twice.
    Twice,
    /// A name without declaration.
    Unknown,
    /// A wrong type.
    Typing,
    /// A wrong mode.
    Access,
    /// A range whose least value is above its greatest.
    EmptyRange,
    /// An expression with too wide static bounds.
    Wide,
    /// Too many of something.
    TooMany(Many),
    /// A call that does not fit the procedure that it calls.
    BadCall,
    /// A line that cannot stand where it does in a certificate, or a line that is missing.
    BadCertificate,
}

/// The refusal of a text: why, at which byte counted from 0, and for which name where one is told.
#[derive(Clone, Copy, Debug, PartialEq, Eq)]
pub struct Refusal {
    /// Why.
    pub code: Code,
    /// The byte at fault.
    pub place: usize,
    /// The name at fault, told with `Code::Twice` and `Code::Unknown` alone.
    pub name: Option<Name>,
}

/// Why a text gave no result.
#[derive(Clone, Copy, Debug, PartialEq, Eq)]
pub enum TextEnd {
    /// The text is refused.
    Refused(Refusal),
    /// Memory ran out.
    NoMemory,
}

impl From<NoMemory> for TextEnd {
    ghost use Rattle.std.specs.Prelude.{◌≡◌};
    ghost use Rattle.il_core.specs.declared.refusal.TextEnd.TheVariants as end;

    ghost from_gives = { λ _ e. e ≡ end.NoMemory };

    fn from(_error: NoMemory) -> TextEnd {
        TextEnd::NoMemory
    }
}
