//! Rules that are passed on as text, and what stands before the block of a group.

ghost use Rattle.css_print.specs.Private.Printed.{braced_line, taken_back};
ghost use Rattle.css_tokens.specs.Appends.{AppendsFront};
ghost use Rattle.css_tokens.specs.Values.{value_text};
ghost use Rattle.media_spelling.specs.Spelling.{queries_text, supports_text};
ghost use Rattle.sheet_types.specs.PassedRules.{keyword_of};
ghost use Rattle.sheet_types.specs.SheetTexts.{behind_keyword, condition_text, passed_text};
ghost use Rattle.std.specs.Prelude.{◌≡◌, ◌++◌, codes, OnErr, OnOk};

use css_tokens::{Component, List, OutOfMemory, write_value};
use media_spelling::{Query, Supports, write_queries, write_supports};
use sheet_types::{GroupCondition, Passed, PassedKind};

// Takes back the last byte of a text of this length: the space behind which nothing was written.
fn take_back(count: usize, out: &mut List<u8>)
    ensures { out.new ≡ taken_back count out.old }
{
    if out.len() == count {
        let _ = out.pop();
    }
}

/// Writes a media query list behind a space, and nothing where the list has no text.
pub fn write_queries_behind(list: &[Query], out: &mut List<u8>) -> Result<(), OutOfMemory>
    ensures ok { OnOk result (out.new ≡ out.old ++ behind_keyword (queries_text list.now)) }
    ensures err { OnErr result (AppendsFront out.old out.new (behind_keyword (queries_text list.now))) }
{
    out.push(b' ')?;
    let count = out.len();
    let written = write_queries(list, out);
    take_back(count, out);
    written
}

// Writes a supports condition behind a space, and nothing where the condition has no text.
fn write_supports_behind(condition: &Supports, out: &mut List<u8>) -> Result<(), OutOfMemory>
    ensures ok { OnOk result (out.new ≡ out.old ++ behind_keyword (supports_text condition.now)) }
    ensures err { OnErr result (AppendsFront out.old out.new (behind_keyword (supports_text condition.now))) }
{
    out.push(b' ')?;
    let count = out.len();
    let written = write_supports(condition, out);
    take_back(count, out);
    written
}

// Writes a prelude behind a space, and nothing where the prelude has no text.
fn write_prelude(prelude: &[Component], out: &mut List<u8>) -> Result<(), OutOfMemory>
    ensures ok { OnOk result (out.new ≡ out.old ++ behind_keyword (value_text prelude.now)) }
    ensures err { OnErr result (AppendsFront out.old out.new (behind_keyword (value_text prelude.now))) }
{
    out.push(b' ')?;
    let count = out.len();
    let written = write_value(prelude, out);
    take_back(count, out);
    written
}

fn write_media(list: &[Query], out: &mut List<u8>) -> Result<(), OutOfMemory>
    ensures ok { OnOk result (out.new ≡ out.old ++ (codes "@media" ++ behind_keyword (queries_text list.now))) }
    ensures err { OnErr result (AppendsFront out.old out.new (codes "@media" ++ behind_keyword (queries_text list.now))) }
{
    out.extend_from_slice(b"@media")?;
    write_queries_behind(list, out)
}

fn write_supported(condition: &Supports, out: &mut List<u8>) -> Result<(), OutOfMemory>
    ensures ok { OnOk result (out.new ≡ out.old ++ (codes "@supports" ++ behind_keyword (supports_text condition.now))) }
    ensures err { OnErr result (AppendsFront out.old out.new (codes "@supports" ++ behind_keyword (supports_text condition.now))) }
{
    out.extend_from_slice(b"@supports")?;
    write_supports_behind(condition, out)
}

/// Writes the at-keyword of a group and its condition.
pub fn write_condition(condition: &GroupCondition, out: &mut List<u8>) -> Result<(), OutOfMemory>
    ensures ok { OnOk result (out.new ≡ out.old ++ condition_text condition.now) }
    ensures err { OnErr result (AppendsFront out.old out.new (condition_text condition.now)) }
{
    match condition {
        GroupCondition::Media(list) => write_media(list.as_slice(), out),
        GroupCondition::Supports(condition) => write_supported(condition, out),
    }
}

// The name of the at-keyword of a rule that is passed on.
fn keyword(kind: PassedKind) -> &'static str
    ensures { result.now ≡ keyword_of kind }
{
    match kind {
        PassedKind::FontFace => "font-face",
        PassedKind::Keyframes => "keyframes",
        PassedKind::WebkitKeyframes => "-webkit-keyframes",
        PassedKind::MozKeyframes => "-moz-keyframes",
        PassedKind::Page => "page",
        PassedKind::CounterStyle => "counter-style",
    }
}

// Writes a block as text, and a line feed behind it.
fn write_text_block(block: &[Component], out: &mut List<u8>) -> Result<(), OutOfMemory>
    ensures ok { OnOk result (out.new ≡ out.old ++ braced_line (value_text block.now)) }
    ensures err { OnErr result (AppendsFront out.old out.new (braced_line (value_text block.now))) }
{
    out.extend_from_slice(b"{")?;
    write_value(block, out)?;
    out.extend_from_slice(b"}\n")
}

/// Writes a rule that is passed on as text: its at-keyword, its prelude and its block, and a line feed.
pub fn write_passed(rule: &Passed, out: &mut List<u8>) -> Result<(), OutOfMemory>
    ensures ok { OnOk result (out.new ≡ out.old ++ passed_text rule.now) }
    ensures err { OnErr result (AppendsFront out.old out.new (passed_text rule.now)) }
{
    out.extend_from_slice(b"@")?;
    out.extend_from_slice(keyword(rule.kind).as_bytes())?;
    write_prelude(rule.prelude.as_slice(), out)?;
    write_text_block(rule.block.as_slice(), out)
}
