//! Lists that grow where an item is wanted.
ghost use Rattle.std.specs.Prelude.{◌≡◌, ◌++◌, ◌∷◌, [], IfOk, if◌then◌else◌};

use stn_model::OutOfMemory;

/// Puts an item at the end of a list where it is wanted.
pub(crate) fn push_where<T: Copy>(
    items: &mut Vec<T>,
    item: T,
    wanted: bool,
) -> Result<(), OutOfMemory>
    ensures { IfOk result (λ _. items.new.items ≡ items.old.items ++ (if wanted then item ∷ [] else [])) }
{
    if wanted {
        items.push(item)?;
    }
    Ok(())
}
