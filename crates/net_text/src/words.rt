//! The words of network texts.
ghost use Rattle.std.specs.Prelude.{◌≡◌};
ghost use Rattle.net_text.specs.Words.{word_of, lean_of};

use stn_model::Lean;

/// The first field of a line after the header.
#[derive(Clone, Copy, Debug, PartialEq, Eq)]
pub enum Word {
    /// The horizon.
    Horizon,
    /// An agent.
    Agent,
    /// A point.
    Point,
    /// An act.
    Act,
    /// Two arcs, there and back.
    Bound,
    /// One arc.
    Arc,
    /// The end of the text.
    End,
}

/// The word of a line after the header.
pub fn word_of(field: &[u8]) -> Option<Word>
    ensures { result ≡ word_of field.now }
{
    if field == b"horizon".as_slice() {
        return Some(Word::Horizon);
    }
    if field == b"agent".as_slice() {
        return Some(Word::Agent);
    }
    if field == b"point".as_slice() {
        return Some(Word::Point);
    }
    if field == b"act".as_slice() {
        return Some(Word::Act);
    }
    if field == b"bound".as_slice() {
        return Some(Word::Bound);
    }
    if field == b"arc".as_slice() {
        return Some(Word::Arc);
    }
    if field == b"end".as_slice() {
        return Some(Word::End);
    }
    None
}

/// The lean that a field names.
pub fn lean_of(field: &[u8]) -> Option<Lean>
    ensures { result ≡ lean_of field.now }
{
    if field == b"early".as_slice() {
        return Some(Lean::Early);
    }
    if field == b"late".as_slice() {
        return Some(Lean::Late);
    }
    if field == b"middle".as_slice() {
        return Some(Lean::Middle);
    }
    None
}
