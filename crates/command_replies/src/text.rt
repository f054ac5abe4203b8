//! Pieces of printed texts.
ghost use Rattle.std.specs.Prelude.{◌≡◌, ◌++◌, OnOk};
ghost use Rattle.section_core.specs.Canonical.{name_text};
ghost use Rattle.section_core.specs.Parts.{version_number};
ghost use Rattle.section_core.specs.declared.parts.Version.{Version};
ghost use Rattle.section_core.specs.declared.parts.Version.TheVariants.{Two};

use fku_types::Name;
use std::alloc::AllocError;
use text_io::put;

/// Appends the line of an object's name, in version 2; nothing in version 1. `AllocError` if memory runs out.
pub fn put_object(out: &mut Vec<u8>, version: u32, name: &Name) -> Result<(), AllocError>
    ensures named { (v : Version) → version ≡ version_number v
        → OnOk result (out.new.items ≡ out.old.items ++ name_text v name.now) }
    // Any other number is taken as 2.
    ensures other { (version ≡ 1 → ⊥) → OnOk result (out.new.items ≡ out.old.items ++ name_text Two name.now) }
{
    if version == 1 {
        return Ok(());
    }
    put(out, b"OBJECT ")?;
    put(out, name.as_bytes())?;
    put(out, b"\n")
}
