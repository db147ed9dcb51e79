//! The words of scripts.
ghost use Rattle.std.specs.Prelude.{◌≡◌};
ghost use Rattle.script_text.specs.Words.{word_of};

/// The first field of a line of a script.
#[derive(Clone, Copy, Debug, PartialEq, Eq)]
pub enum Word {
    Bounds,
    Windows,
    Prove,
    Tighten,
    Batch,
    Arc,
    Close,
    Withdraw,
    Decouple,
    Choose,
    Execute,
    Advance,
    Do,
    Schedule,
    Done,
}

/// The word of a line.
pub fn word_of(field: &[u8]) -> Option<Word>
    ensures { result ≡ word_of field.now }
{
    if field == b"bounds".as_slice() {
        return Some(Word::Bounds);
    }
    if field == b"windows".as_slice() {
        return Some(Word::Windows);
    }
    if field == b"prove".as_slice() {
        return Some(Word::Prove);
    }
    if field == b"tighten".as_slice() {
        return Some(Word::Tighten);
    }
    if field == b"batch".as_slice() {
        return Some(Word::Batch);
    }
    if field == b"arc".as_slice() {
        return Some(Word::Arc);
    }
    if field == b"close".as_slice() {
        return Some(Word::Close);
    }
    if field == b"withdraw".as_slice() {
        return Some(Word::Withdraw);
    }
    if field == b"decouple".as_slice() {
        return Some(Word::Decouple);
    }
    if field == b"choose".as_slice() {
        return Some(Word::Choose);
    }
    if field == b"execute".as_slice() {
        return Some(Word::Execute);
    }
    if field == b"advance".as_slice() {
        return Some(Word::Advance);
    }
    if field == b"do".as_slice() {
        return Some(Word::Do);
    }
    if field == b"schedule".as_slice() {
        return Some(Word::Schedule);
    }
    if field == b"done".as_slice() {
        return Some(Word::Done);
    }
    None
}
