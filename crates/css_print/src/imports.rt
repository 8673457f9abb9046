//! Imports, each on a line of its own.

ghost use Rattle.sheet_types.specs.SheetTexts.{import_supports_text, import_text};
ghost use Rattle.std.specs.Prelude.{◌≡◌, ◌++◌, flat_map, OnOk};

use crate::heads::write_queries_behind;
use css_tokens::{List, OutOfMemory, write_string};
use media_spelling::{Supports, write_supports};
use sheet_types::Import;

// Writes the condition of an import behind a space, where it has one.
fn write_import_supports(
    condition: &Option<Supports>,
    out: &mut List<u8>,
) -> Result<(), OutOfMemory>
    ensures { OnOk result (out.new ≡ out.old ++ import_supports_text condition.now) }
{
    let Some(condition) = condition else {
        return Ok(());
    };
    out.extend_from_slice(b" supports(")?;
    write_supports(condition, out)?;
    out.extend_from_slice(b")")
}

fn write_import(import: &Import, out: &mut List<u8>) -> Result<(), OutOfMemory>
    ensures { OnOk result (out.new ≡ out.old ++ import_text import.now) }
{
    out.extend_from_slice(b"@import ")?;
    write_string(import.target.as_str(), out)?;
    write_import_supports(&import.supports, out)?;
    write_queries_behind(import.media.as_slice(), out)?;
    out.extend_from_slice(b";\n")
}

/// Writes imports.
pub fn write_imports(imports: &[Import], out: &mut List<u8>) -> Result<(), OutOfMemory>
    ensures { OnOk result (out.new ≡ out.old ++ flat_map import_text imports.now) }
{
    for import in imports {
        write_import(import, out)?;
    }
    Ok(())
}
