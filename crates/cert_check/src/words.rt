//! The words of certificates.
ghost use Rattle.std.specs.Prelude.{◌≡◌};
ghost use Rattle.cert_check.specs.Words.{word_of};

/// The first field of a line after the header.
#[derive(Clone, Copy, Debug, PartialEq, Eq)]
pub enum Word {
    Consistent,
    Inconsistent,
    From,
    To,
    Holds,
    Cycle,
    End,
}

/// The word of a line after the header.
pub fn word_of(field: &[u8]) -> Option<Word>
    ensures { result ≡ word_of field.now }
{
    if field == b"consistent".as_slice() {
        return Some(Word::Consistent);
    }
    if field == b"inconsistent".as_slice() {
        return Some(Word::Inconsistent);
    }
    if field == b"from".as_slice() {
        return Some(Word::From);
    }
    if field == b"to".as_slice() {
        return Some(Word::To);
    }
    if field == b"holds".as_slice() {
        return Some(Word::Holds);
    }
    if field == b"cycle".as_slice() {
        return Some(Word::Cycle);
    }
    if field == b"end".as_slice() {
        return Some(Word::End);
    }
    None
}
