//! Places written into a buffer.
ghost use Rattle.std.specs.Prelude.{◌≡◌, ◌<◌, ◌≤◌, [], ◌∷◌, ◌++◌, length, take, if◌then◌else◌};

/// What was written into a buffer of places.
#[derive(Clone, Copy, PartialEq, Eq, Debug)]
pub struct Listed {
    /// The number of places that were written, from the front of the buffer on.
    pub count: usize,
    /// The place before which no further one was to be written.
    pub end: u32,
}

/// Writes a place into a buffer behind the `count` places that stand there, where it is wanted, and says how many stand
/// there now.
pub fn put_where(list: &mut [u32], count: usize, place: u32, wanted: bool) -> usize
    requires { count < length list.old }
    ensures len { length list.new ≡ length list.old }
    ensures count { result ≤ length list.new }
    ensures places { take result list.new ≡ take count list.old ++ (if wanted then place ∷ [] else []) }
{
    if !wanted {
        return count;
    }
    list[count] = place;
    count + 1
}
