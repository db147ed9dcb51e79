//! Fields of a line, taken one by one, so that no line asks for memory.
ghost use Rattle.std.specs.Prelude.{◌≡◌, ◌<◌, ◌≤◌, [], false, not, nat_lt, length, map, take, slice_index, MatchOption};
ghost use Rattle.std.specs.List.{position};
ghost use Rattle.net_text.specs.Fields.{fields, is_blank};
ghost use Rattle.cert_check.specs.Taken.{TakesField};

/// How many fields are looked at after the word of a line that is no `cycle` line: one more than any has.
const MOST_FIELDS: usize = 4;

/// The first field of a line, and what follows it.
#[derive(Clone, Copy)]
pub struct Field<'a> {
    pub text: &'a [u8],
    pub rest: &'a [u8],
}

/// A line without the blanks at its beginning.
fn without_blanks(line: &[u8]) -> &[u8]
    ensures same { fields result.now ≡ fields line.now }
    ensures size { length result.now ≤ length line.now }
    ensures begins { 0 < length result.now → is_blank (slice_index result.now 0) ≡ false }
{
    for i in 0..line.len() {
        if line[i] != b' ' && line[i] != b'\t' {
            return &line[i..];
        }
    }
    &line[line.len()..]
}

/// Where the first blank stands.
fn blank_in(line: &[u8]) -> Option<usize>
    ensures { result ≡ position is_blank line.now }
{
    line.iter().position(|byte| *byte == b' ' || *byte == b'\t')
}

/// The first field of a line, if it has one.
pub fn take_field(line: &[u8]) -> Option<Field<'_>>
    ensures { MatchOption result (fields line.now ≡ []) (λ f. TakesField line.now f.text.now f.rest.now) }
{
    let filled = without_blanks(line);
    if filled.is_empty() {
        return None;
    }
    let Some(end) = blank_in(filled) else {
        return Some(Field {
            text: filled,
            rest: &filled[filled.len()..],
        });
    };
    Some(Field {
        text: &filled[..end],
        rest: &filled[end + 1..],
    })
}

/// Whether a line has two fields or more.
pub fn has_two(line: &[u8]) -> bool
    ensures { result ≡ not (nat_lt (length (fields line.now)) 2) }
{
    let Some(first) = take_field(line) else {
        return false;
    };
    take_field(first.rest).is_some()
}

/// The first fields of a line.
#[derive(Clone, Copy)]
pub struct Few<'a> {
    found: [&'a [u8]; MOST_FIELDS],
    count: usize,
}

impl<'a> Few<'a> {
    /// The first fields of that line.
    pub fn of(line: &'a [u8]) -> Self
        ensures count { result.count ≤ 4 }
        ensures first { map (λ f. f.now) (take result.count result.found) ≡ take 4 (fields line.now) }
    {
        let mut found = [line; MOST_FIELDS];
        let mut count = 0;
        let mut rest = line;
        for i in 0..MOST_FIELDS {
            let Some(field) = take_field(rest) else {
                break;
            };
            found[i] = field.text;
            count = i + 1;
            rest = field.rest;
        }
        Few { found, count }
    }

    /// These fields.
    pub fn fields(&self) -> &[&'a [u8]]
        requires { self.now.count ≤ 4 }
        ensures { result.now ≡ take self.now.count self.now.found }
    {
        &self.found[..self.count]
    }
}
