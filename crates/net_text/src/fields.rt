//! Fields of a line.
ghost use Rattle.std.specs.Prelude.{◌≡◌, ◌≤◌, ◌∷◌, [], false, not, map, take, length, slice_index_or, IfOk, MatchOption};
ghost use Rattle.std.specs.List.{position};
ghost use Rattle.net_text.specs.Fields.{fields, is_blank};

use std::alloc::{AllocError, Global};

/// The first fields of a line, at most that many: the runs of bytes between spaces and tabs.
pub fn fields_of<'a>(
    alloc: Global,
    line: &'a [u8],
    most: usize,
) -> Result<Vec<&'a [u8]>, AllocError>
    ensures { IfOk result (λ v. map (λ f. f.now) v.items ≡ take most (fields line.now)) }
{
    line.split(|byte| *byte == b' ' || *byte == b'\t')
        .filter(|field| !field.is_empty())
        .take(most)
        .collect(alloc)
}

/// A field, and what follows it on its line.
#[derive(Clone, Copy)]
struct Field<'a> {
    text: &'a [u8],
    rest: &'a [u8],
}

/// Puts the first fields of a line, as many as there is room for, into the slice, and says how many they are. Takes no memory.
pub fn first_fields<'a>(line: &'a [u8], room: &mut [&'a [u8]]) -> usize
    ensures within { result ≤ length room.new }
    ensures size { length room.new ≡ length room.old }
    ensures fields { map (λ f. f.now) (take result room.new) ≡ take (length room.old) (fields line.now) }
{
    let mut rest = line;
    for count in 0..room.len() {
        let Some(field) = first_field(rest) else {
            return count;
        };
        room[count] = field.text;
        rest = field.rest;
    }
    room.len()
}

/// The first field of a line, or None where it has none.
fn first_field(line: &[u8]) -> Option<Field<'_>>
    ensures { MatchOption result (fields line.now ≡ []) (λ f. fields line.now ≡ f.text.now ∷ fields f.rest.now) }
{
    let line = past_blanks(line);
    if line.is_empty() {
        return None;
    }
    let Some(end) = blank(line) else {
        return Some(Field {
            text: line,
            rest: &[],
        });
    };
    Some(Field {
        text: &line[..end],
        rest: &line[end + 1..],
    })
}

/// A line from its first byte on that is neither a space nor a tab.
fn past_blanks(line: &[u8]) -> &[u8]
    ensures fields { fields line.now ≡ fields result.now }
    ensures filled { is_blank (slice_index_or result.now 0 0) ≡ false }
{
    let Some(start) = filled(line) else {
        return &[];
    };
    &line[start..]
}

/// Where the first byte stands that is neither a space nor a tab.
fn filled(line: &[u8]) -> Option<usize>
    ensures { result ≡ position (λ b. not (is_blank b)) line.now }
{
    line.iter().position(|byte| *byte != b' ' && *byte != b'\t')
}

/// Where the first space or tab stands.
fn blank(line: &[u8]) -> Option<usize>
    ensures { result ≡ position is_blank line.now }
{
    line.iter().position(|byte| *byte == b' ' || *byte == b'\t')
}
