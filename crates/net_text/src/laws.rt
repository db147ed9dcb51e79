//! What holds of reading and printing together, and laws that pin the definitions of the grammar; no code keeps them.
ghost use Rattle.net_text.specs.Laws.{PlainFormIsRead, NothingAfterIsRead, PrefixIsRead, SkippedLineMoves, DefaultLeanIsEarly, BoundIsTwoArcs};

/// The plain form of a network is read as an equal network, whatever follows it, and so is the form with the header of version 2. The reading
/// takes all its bytes and lines, and no more.
pub fn plain_form_is_read()
    ensures { PlainFormIsRead }
{}

/// Where the bytes that a text uses end in a line feed, what follows them is not looked at: with anything else after
/// them the text is read as the same network, with as many bytes and lines.
pub fn nothing_after_is_read()
    ensures { NothingAfterIsRead }
{}

/// The prefix that a text takes is a text by itself, is read alike, and has as many lines as the answer says; where it ends in a line feed,
/// it is read alike whatever follows it.
pub fn prefix_is_read()
    ensures { PrefixIsRead }
{}

/// A line that is skipped changes only the numbers of lines and bytes.
pub fn skipped_line_moves()
    ensures { SkippedLineMoves }
{}

/// An agent's line without a lean does what the line with the lean `early` does.
pub fn default_lean_is_early()
    ensures { DefaultLeanIsEarly }
{}

/// A `bound` line that is not refused does what two `arc` lines do: there with the higher bound, and then back with the lower one negated.
pub fn bound_is_two_arcs()
    ensures { BoundIsTwoArcs }
{}
