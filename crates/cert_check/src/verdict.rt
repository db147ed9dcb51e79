//! What a certificate shows, or why it shows nothing.

/// What a certificate shows of a network.
#[derive(Clone, Copy, Debug, PartialEq, Eq)]
pub enum Verdict {
    /// Some schedule satisfies the network, and the least bounds are those of the certificate.
    Consistent,
    /// No schedule satisfies the network.
    Inconsistent,
    /// The first line that is false, and its first test that fails.
    No { line: u32, cause: CertCause },
}

/// The first test that a line of a certificate fails. Points and arcs are told by number, distances in the network's unit of time.
#[derive(Clone, Copy, Debug, PartialEq, Eq)]
pub enum CertCause {
    /// The line has a byte other than a tab and 32 to 126.
    NotText,
    /// The first line is no header.
    NoHeader,
    /// The line begins with no word of the grammar, or with one that is not due.
    UnknownWord,
    /// The line has fewer or more fields than its word asks for.
    FieldCount,
    /// The version is not 1.
    Version,
    /// A number is not an optional `-` and 1 to 18 digits, or stands for a point or an arc and is negative.
    NumberBad,
    /// The number is another than it must be: that of the points, that of the next section's point, or a sum of bounds.
    WrongValue { kept: i128, given: i128 },
    /// The number is that of no point, or the point has its distance already.
    AgainTo(i64),
    /// The number is that of no arc, or the arc does not lead from a point with a distance to the point of the line.
    BadArc(i64),
    /// The section ends and this point has no distance; it is the least such point.
    MissingTo(u32),
    /// The section ends and the distances break this arc; it is the least such arc.
    ArcFails(u32),
    /// The numbers are those of no negative cycle in normal form.
    BadCycle,
    /// The certificate has no `end` line.
    NoEnd,
    /// The line stands after the `end` line.
    AfterEnd,
}
