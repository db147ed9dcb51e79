//! The text of `gen`.
ghost use Rattle.std.specs.Prelude.{◌≡◌, ◌≤◌, IfOk};
ghost use Rattle.mastn.specs.Gens.{gen_text};
ghost use Rattle.mastn.specs.Limits.{greatest_number, greatest_size};

use net_gen::make;
use net_text::print_net;
use net_text::write::add_line;
use std::alloc::Global;
use stn_model::OutOfMemory;

/// The generated network of a number and a size in its plain form, and a script that asks for its windows.
pub fn generated_text(alloc: Global, number: u32, size: u32) -> Result<Vec<u8>, OutOfMemory>
    requires number_high { number ≤ greatest_number }
    requires size_low { 1 ≤ size }
    requires size_high { size ≤ greatest_size }
    ensures { IfOk result (λ text. text.items ≡ gen_text number size) }
{
    let net = make(alloc, number, size)?;
    let mut text = Vec::new(alloc);
    print_net(&net, &mut text)?;
    add_line(&mut text, b"windows", &[])?;
    add_line(&mut text, b"done", &[])?;
    Ok(text)
}
