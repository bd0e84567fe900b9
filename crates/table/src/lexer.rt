// What a byte of a text is.
ghost use Rattle.std.specs.Prelude.{◌≡◌};
ghost use Rattle.table.specs.Checking.{inside};
ghost use Rattle.table.specs.Lexing.{class_of};

#[derive(Clone, Copy, PartialEq, Eq)]
pub(crate) enum Class {
    Letter,
    Digit(u8),
    Comma,
    LineEnd,
    Other,
}

impl From<u8> for Class {
    ghost from_gives = { λ byte class. class ≡ class_of byte };

    fn from(byte: u8) -> Class {
        match byte as char {
            'a'..='z' => Class::Letter,
            '0'..='9' => Class::Digit(byte - b'0'),
            ',' => Class::Comma,
            '\n' => Class::LineEnd,
            _ => Class::Other,
        }
    }
}

// Whether a byte belongs to a field or a first word.
pub(crate) fn is_inside(byte: u8) -> bool
    ensures { result ≡ inside byte }
{
    !matches!(Class::from(byte), Class::Comma | Class::LineEnd)
}
