ghost use Rattle.findings.specs.Found.{found_at};
ghost use Rattle.findings.specs.Firsts.{code_number, first_from, is_place, leads, sooner, stands_before};
ghost use Rattle.std.specs.Option.{option_to_list};
ghost use Rattle.std.specs.Prelude.{◌≡◌, None, Some};

use css_places::{Code, Finding, Place};

/// The finding of a code at a place of a file.
pub fn found_at(file: u32, offset: u32, code: Code) -> Finding
    ensures { result ≡ found_at file offset code }
{
    Finding {
        place: Place { file, offset },
        code,
    }
}

/// The number of a code, by which findings at one place are ordered.
fn code_number(code: Code) -> u8
    ensures { result ≡ code_number code }
{
    match code {
        Code::Syntax | Code::Depth | Code::LateImport | Code::Missing | Code::Unbuilt => 0,
        Code::X6 => 6,
        Code::X7 => 7,
        Code::X11 => 11,
        Code::X12 => 12,
        Code::X16 => 16,
        Code::X17 => 17,
        Code::X22 => 22,
    }
}

fn stands_before(place: Place, other: Place) -> bool
    ensures { result ≡ stands_before place other }
{
    place.file < other.file || (place.file == other.file && place.offset < other.offset)
}

fn is_place(place: Place, other: Place) -> bool
    ensures { result ≡ is_place place other }
{
    place.file == other.file && place.offset == other.offset
}

/// Whether a finding comes first of two.
fn leads(finding: Finding, other: Finding) -> bool
    ensures { result ≡ leads finding other }
{
    stands_before(finding.place, other.place)
        || (is_place(finding.place, other.place)
            && code_number(finding.code) <= code_number(other.code))
}

/// Of what was found so far and one more the one that is named.
pub fn sooner(best: Option<Finding>, found: Option<Finding>) -> Option<Finding>
    ensures { result ≡ first_from best (option_to_list found) }
{
    match (best, found) {
        (Some(first), Some(second)) => Some(if leads(first, second) { first } else { second }),
        (None, found) => found,
        (best, None) => best,
    }
}
