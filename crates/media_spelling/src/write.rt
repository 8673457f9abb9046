//! How media queries and supports conditions are written: the text of the component values that each is spelled with.

ghost use Rattle.css_tokens.specs.Appends.{AppendsFront};
ghost use Rattle.css_tokens.specs.NameText.{name_text};
ghost use Rattle.css_tokens.specs.Values.{value_text};
ghost use Rattle.media_spelling.specs.Spelling.{ends_in_dashes, queries_text, supports_text, turned};
ghost use Rattle.media_spelling.specs.Private.Texts.{alone_text, behind_text, bound_text, bounds_text, condition_text, declaration_text, declared_text, feature_text, front_text, inside_text, nested_text, parted_text, prefix_text, query_text, range_text, relation_text, row_text, typed_text, value_end_text, wanted_text};
ghost use Rattle.std.specs.Prelude.{◌≡◌, ◌++◌, codes, OnErr, OnOk};

use crate::condition::{Bound, Condition, Feature, Prefix, Query, Range, Relation};
use crate::supports::Supports;
use css_tokens::{Component, List, OutOfMemory, Text, printed_again, write_value};

fn write_bytes(bytes: &[u8], out: &mut List<u8>) -> Result<(), OutOfMemory>
    ensures ok { OnOk result (out.new ≡ out.old ++ bytes.now) }
    ensures err { OnErr result (AppendsFront out.old out.new bytes.now) }
{
    out.extend_from_slice(bytes)
}

fn write_text(text: &Text, out: &mut List<u8>) -> Result<(), OutOfMemory>
    ensures ok { OnOk result (out.new ≡ out.old ++ text.now) }
    ensures err { OnErr result (AppendsFront out.old out.new text.now) }
{
    write_bytes(text.as_str().as_bytes(), out)
}

/// Writes a text behind a mark.
fn write_behind(mark: &[u8], text: &Text, out: &mut List<u8>) -> Result<(), OutOfMemory>
    ensures ok { OnOk result (out.new ≡ out.old ++ (mark.now ++ text.now)) }
    ensures err { OnErr result (AppendsFront out.old out.new (mark.now ++ text.now)) }
{
    write_bytes(mark, out)?;
    write_text(text, out)
}

/// Writes bytes, where they are wanted.
fn write_wanted(wanted: bool, bytes: &[u8], out: &mut List<u8>) -> Result<(), OutOfMemory>
    ensures ok { OnOk result (out.new ≡ out.old ++ wanted_text wanted bytes.now) }
    ensures err { OnErr result (AppendsFront out.old out.new (wanted_text wanted bytes.now)) }
{
    if wanted {
        write_bytes(bytes, out)
    } else {
        write_bytes(b"", out)
    }
}

/// Writes a name by the identifier serialization of CSSOM, and an empty one as nothing.
fn write_name(name: &str, out: &mut List<u8>) -> Result<(), OutOfMemory>
    ensures ok { OnOk result (out.new ≡ out.old ++ name_text name.now) }
    ensures err { OnErr result (AppendsFront out.old out.new (name_text name.now)) }
{
    if name.is_empty() {
        return Ok(());
    }
    css_tokens::write_name(name, out)
}

fn write_ident(name: &Text, out: &mut List<u8>) -> Result<(), OutOfMemory>
    ensures ok { OnOk result (out.new ≡ out.old ++ name_text name.now) }
    ensures err { OnErr result (AppendsFront out.old out.new (name_text name.now)) }
{
    write_name(name.as_str(), out)
}

/// Writes a name behind a mark.
fn write_marked(mark: &[u8], name: &Text, out: &mut List<u8>) -> Result<(), OutOfMemory>
    ensures ok { OnOk result (out.new ≡ out.old ++ (mark.now ++ name_text name.now)) }
    ensures err { OnErr result (AppendsFront out.old out.new (mark.now ++ name_text name.now)) }
{
    write_bytes(mark, out)?;
    write_ident(name, out)
}

fn ends_in_dashes(bytes: &[u8]) -> bool
    ensures { result ≡ ends_in_dashes bytes.now }
{
    bytes.ends_with(b"--")
}

/// The relation as seen from the other side.
pub fn turned(relation: Relation) -> Relation
    ensures { result ≡ turned relation }
{
    match relation {
        Relation::Less => Relation::Greater,
        Relation::LessEqual => Relation::GreaterEqual,
        Relation::Greater => Relation::Less,
        Relation::GreaterEqual => Relation::LessEqual,
        Relation::Equal => Relation::Equal,
    }
}

#[tactic(auto, using(crate::proofs::SpellingTexts::leaf_texts))]
fn write_relation(relation: Relation, out: &mut List<u8>) -> Result<(), OutOfMemory>
    ensures ok { OnOk result (out.new ≡ out.old ++ relation_text relation) }
    ensures err { OnErr result (AppendsFront out.old out.new (relation_text relation)) }
{
    match relation {
        Relation::Less => write_bytes(b"<", out),
        Relation::LessEqual => write_bytes(b"<=", out),
        Relation::Greater => write_bytes(b">", out),
        Relation::GreaterEqual => write_bytes(b">=", out),
        Relation::Equal => write_bytes(b"=", out),
    }
}

/// Writes a relation behind a text that ends in `--` or does not.
fn write_parted(dashes: bool, relation: Relation, out: &mut List<u8>) -> Result<(), OutOfMemory>
    ensures ok { OnOk result (out.new ≡ out.old ++ parted_text dashes relation) }
    ensures err { OnErr result (AppendsFront out.old out.new (parted_text dashes relation)) }
{
    write_wanted(dashes, b" ", out)?;
    write_relation(relation, out)
}

/// Writes a text and a closing parenthesis.
fn write_closed_text(text: &Text, out: &mut List<u8>) -> Result<(), OutOfMemory>
    ensures ok { OnOk result (out.new ≡ out.old ++ ((codes ":" ++ text.now) ++ codes ")")) }
    ensures err { OnErr result (AppendsFront out.old out.new ((codes ":" ++ text.now) ++ codes ")")) }
{
    write_behind(b":", text, out)?;
    write_bytes(b")", out)
}

fn write_value_end(value: &Option<Text>, out: &mut List<u8>) -> Result<(), OutOfMemory>
    ensures ok { OnOk result (out.new ≡ out.old ++ value_end_text value.now) }
    ensures err { OnErr result (AppendsFront out.old out.new (value_end_text value.now)) }
{
    match value {
        None => write_bytes(b")", out),
        Some(text) => write_closed_text(text, out),
    }
}

#[tactic(auto, using(crate::proofs::SpellingTexts::feature_texts))]
fn write_feature(feature: &Feature, out: &mut List<u8>) -> Result<(), OutOfMemory>
    ensures ok { OnOk result (out.new ≡ out.old ++ feature_text feature.now) }
    ensures err { OnErr result (AppendsFront out.old out.new (feature_text feature.now)) }
{
    write_marked(b"(", &feature.name, out)?;
    write_value_end(&feature.value, out)
}

/// Writes a bound behind the name.
fn write_bound(bound: &Bound, out: &mut List<u8>) -> Result<(), OutOfMemory>
    ensures ok { OnOk result (out.new ≡ out.old ++ bound_text bound.now) }
    ensures err { OnErr result (AppendsFront out.old out.new (bound_text bound.now)) }
{
    write_relation(bound.relation, out)?;
    write_text(&bound.value, out)
}

fn write_closed_bound(bound: &Bound, out: &mut List<u8>) -> Result<(), OutOfMemory>
    ensures ok { OnOk result (out.new ≡ out.old ++ (bound_text bound.now ++ codes ")")) }
    ensures err { OnErr result (AppendsFront out.old out.new (bound_text bound.now ++ codes ")")) }
{
    write_bound(bound, out)?;
    write_bytes(b")", out)
}

/// Writes the relation of a bound before the name.
fn write_turned(bound: &Bound, out: &mut List<u8>) -> Result<(), OutOfMemory>
    ensures ok { OnOk result (out.new ≡ out.old ++ parted_text (ends_in_dashes bound.now.value) (turned bound.now.relation)) }
    ensures err { OnErr result (AppendsFront out.old out.new (parted_text (ends_in_dashes bound.now.value) (turned bound.now.relation))) }
{
    let dashes = ends_in_dashes(bound.value.as_str().as_bytes());
    write_parted(dashes, turned(bound.relation), out)
}

/// Writes a bound before the name.
fn write_front(bound: &Bound, out: &mut List<u8>) -> Result<(), OutOfMemory>
    ensures ok { OnOk result (out.new ≡ out.old ++ front_text bound.now) }
    ensures err { OnErr result (AppendsFront out.old out.new (front_text bound.now)) }
{
    write_text(&bound.value, out)?;
    write_turned(bound, out)
}

fn write_opened_front(bound: &Bound, out: &mut List<u8>) -> Result<(), OutOfMemory>
    ensures ok { OnOk result (out.new ≡ out.old ++ (codes "(" ++ front_text bound.now)) }
    ensures err { OnErr result (AppendsFront out.old out.new (codes "(" ++ front_text bound.now)) }
{
    write_bytes(b"(", out)?;
    write_front(bound, out)
}

fn write_named_bound(name: &Text, bound: &Bound, out: &mut List<u8>) -> Result<(), OutOfMemory>
    ensures ok { OnOk result (out.new ≡ out.old ++ (name_text name.now ++ (bound_text bound.now ++ codes ")"))) }
    ensures err { OnErr result (AppendsFront out.old out.new (name_text name.now ++ (bound_text bound.now ++ codes ")"))) }
{
    write_ident(name, out)?;
    write_closed_bound(bound, out)
}

fn write_ray(name: &Text, bound: &Bound, out: &mut List<u8>) -> Result<(), OutOfMemory>
    ensures ok { OnOk result (out.new ≡ out.old ++ ((codes "(" ++ name_text name.now) ++ (bound_text bound.now ++ codes ")"))) }
    ensures err { OnErr result (AppendsFront out.old out.new ((codes "(" ++ name_text name.now) ++ (bound_text bound.now ++ codes ")"))) }
{
    write_marked(b"(", name, out)?;
    write_closed_bound(bound, out)
}

fn write_interval(
    name: &Text,
    first: &Bound,
    second: &Bound,
    out: &mut List<u8>,
) -> Result<(), OutOfMemory>
    ensures ok { OnOk result (out.new ≡ out.old ++ ((codes "(" ++ front_text first.now) ++ (name_text name.now ++ (bound_text second.now ++ codes ")")))) }
    ensures err { OnErr result (AppendsFront out.old out.new ((codes "(" ++ front_text first.now) ++ (name_text name.now ++ (bound_text second.now ++ codes ")")))) }
{
    write_opened_front(first, out)?;
    write_named_bound(name, second, out)
}

fn write_bounds(
    name: &Text,
    first: &Bound,
    second: &Option<Bound>,
    out: &mut List<u8>,
) -> Result<(), OutOfMemory>
    ensures ok { OnOk result (out.new ≡ out.old ++ bounds_text name.now first.now second.now) }
    ensures err { OnErr result (AppendsFront out.old out.new (bounds_text name.now first.now second.now)) }
{
    match second {
        None => write_ray(name, first, out),
        Some(second) => write_interval(name, first, second, out),
    }
}

#[tactic(auto, using(crate::proofs::SpellingTexts::feature_texts))]
fn write_range(range: &Range, out: &mut List<u8>) -> Result<(), OutOfMemory>
    ensures ok { OnOk result (out.new ≡ out.old ++ range_text range.now) }
    ensures err { OnErr result (AppendsFront out.old out.new (range_text range.now)) }
{
    write_bounds(&range.name, &range.first, &range.second, out)
}

#[cycle(conditions)]
#[tactic(auto, using(crate::proofs::SpellingTexts::condition_texts))]
fn write_condition(condition: &Condition, out: &mut List<u8>) -> Result<(), OutOfMemory>
    ensures ok { OnOk result (out.new ≡ out.old ++ condition_text condition.now) }
    ensures err { OnErr result (AppendsFront out.old out.new (condition_text condition.now)) }
{
    match condition {
        Condition::And(list) => write_row(b" and ", list.as_slice(), out),
        Condition::Or(list) => write_row(b" or ", list.as_slice(), out),
        Condition::Not(inner) => write_negation(inner.get(), out),
        Condition::Feature(feature) => write_feature(feature, out),
        Condition::Range(range) => write_range(range, out),
    }
}

#[cycle(conditions)]
fn write_negation(condition: &Condition, out: &mut List<u8>) -> Result<(), OutOfMemory>
    ensures ok { OnOk result (out.new ≡ out.old ++ (codes "not " ++ inside_text condition.now)) }
    ensures err { OnErr result (AppendsFront out.old out.new (codes "not " ++ inside_text condition.now)) }
{
    write_bytes(b"not ", out)?;
    write_inside(condition, out)
}

/// Writes a condition inside another one: a compound one in parentheses.
#[cycle(conditions)]
#[tactic(auto, using(crate::proofs::SpellingTexts::inside_texts))]
fn write_inside(condition: &Condition, out: &mut List<u8>) -> Result<(), OutOfMemory>
    ensures ok { OnOk result (out.new ≡ out.old ++ inside_text condition.now) }
    ensures err { OnErr result (AppendsFront out.old out.new (inside_text condition.now)) }
{
    match condition {
        Condition::Feature(feature) => write_feature(feature, out),
        Condition::Range(range) => write_range(range, out),
        Condition::And(_) | Condition::Or(_) | Condition::Not(_) => write_parens(condition, out),
    }
}

#[cycle(conditions)]
fn write_parens(condition: &Condition, out: &mut List<u8>) -> Result<(), OutOfMemory>
    ensures ok { OnOk result (out.new ≡ out.old ++ (codes "(" ++ (condition_text condition.now ++ codes ")"))) }
    ensures err { OnErr result (AppendsFront out.old out.new (codes "(" ++ (condition_text condition.now ++ codes ")"))) }
{
    write_bytes(b"(", out)?;
    write_closed(condition, out)
}

#[cycle(conditions)]
fn write_closed(condition: &Condition, out: &mut List<u8>) -> Result<(), OutOfMemory>
    ensures ok { OnOk result (out.new ≡ out.old ++ (condition_text condition.now ++ codes ")")) }
    ensures err { OnErr result (AppendsFront out.old out.new (condition_text condition.now ++ codes ")")) }
{
    write_condition(condition, out)?;
    write_bytes(b")", out)
}

/// Writes conditions with a keyword between them.
#[cycle(conditions)]
fn write_row(between: &[u8], row: &[Condition], out: &mut List<u8>) -> Result<(), OutOfMemory>
    ensures ok { OnOk result (out.new ≡ out.old ++ row_text between.now inside_text row.now) }
    ensures err { OnErr result (AppendsFront out.old out.new (row_text between.now inside_text row.now)) }
{
    let mut wanted = false;
    for condition in row {
        write_wanted(wanted, between, out)?;
        write_inside(condition, out)?;
        wanted = true;
    }
    Ok(())
}

/// Writes a condition behind a media type: alternatives in parentheses.
#[tactic(auto, using(crate::proofs::SpellingTexts::behind_texts))]
fn write_behind_type(condition: &Condition, out: &mut List<u8>) -> Result<(), OutOfMemory>
    ensures ok { OnOk result (out.new ≡ out.old ++ behind_text condition.now) }
    ensures err { OnErr result (AppendsFront out.old out.new (behind_text condition.now)) }
{
    match condition {
        Condition::Or(_) => write_parens(condition, out),
        Condition::And(_) | Condition::Not(_) | Condition::Feature(_) | Condition::Range(_) =>
            write_condition(condition, out),
    }
}

#[tactic(auto, using(crate::proofs::SpellingTexts::leaf_texts))]
fn write_prefix(prefix: Prefix, out: &mut List<u8>) -> Result<(), OutOfMemory>
    ensures ok { OnOk result (out.new ≡ out.old ++ prefix_text prefix) }
    ensures err { OnErr result (AppendsFront out.old out.new (prefix_text prefix)) }
{
    match prefix {
        Prefix::Plain => write_bytes(b"", out),
        Prefix::Not => write_bytes(b"not ", out),
        Prefix::Only => write_bytes(b"only ", out),
    }
}

fn write_and(condition: &Condition, out: &mut List<u8>) -> Result<(), OutOfMemory>
    ensures ok { OnOk result (out.new ≡ out.old ++ (codes " and " ++ behind_text condition.now)) }
    ensures err { OnErr result (AppendsFront out.old out.new (codes " and " ++ behind_text condition.now)) }
{
    write_bytes(b" and ", out)?;
    write_behind_type(condition, out)
}

fn write_type_and(
    media: &Text,
    condition: &Condition,
    out: &mut List<u8>,
) -> Result<(), OutOfMemory>
    ensures ok { OnOk result (out.new ≡ out.old ++ (name_text media.now ++ (codes " and " ++ behind_text condition.now))) }
    ensures err { OnErr result (AppendsFront out.old out.new (name_text media.now ++ (codes " and " ++ behind_text condition.now))) }
{
    write_ident(media, out)?;
    write_and(condition, out)
}

#[tactic(auto, using(crate::proofs::SpellingTexts::typed_texts))]
fn write_typed(
    media: &Option<Text>,
    condition: &Option<Condition>,
    out: &mut List<u8>,
) -> Result<(), OutOfMemory>
    ensures ok { OnOk result (out.new ≡ out.old ++ typed_text media.now condition.now) }
    ensures err { OnErr result (AppendsFront out.old out.new (typed_text media.now condition.now)) }
{
    match (media, condition) {
        (None, None) => write_bytes(b"", out),
        (None, Some(condition)) => write_condition(condition, out),
        (Some(media), None) => write_ident(media, out),
        (Some(media), Some(condition)) => write_type_and(media, condition, out),
    }
}

#[tactic(auto, using(crate::proofs::SpellingTexts::query_texts))]
fn write_query(query: &Query, out: &mut List<u8>) -> Result<(), OutOfMemory>
    ensures ok { OnOk result (out.new ≡ out.old ++ query_text query.now) }
    ensures err { OnErr result (AppendsFront out.old out.new (query_text query.now)) }
{
    write_prefix(query.prefix, out)?;
    write_typed(&query.media, &query.condition, out)
}

/// Writes a media query list behind what `out` holds: queries with `,` between them, keywords with one space on each side, a
/// compound condition inside another one in parentheses, and so alternatives behind a media type. Relations are written
/// without spaces, but for one space behind a value that ends in `--`; a range with one bound begins with its name. A
/// refusal leaves a front of the text.
pub fn write_queries(list: &[Query], out: &mut List<u8>) -> Result<(), OutOfMemory>
    ensures ok { OnOk result (out.new ≡ out.old ++ queries_text list.now) }
    ensures err { OnErr result (AppendsFront out.old out.new (queries_text list.now)) }
{
    let mut wanted = false;
    for query in list {
        write_wanted(wanted, b",", out)?;
        write_query(query, out)?;
        wanted = true;
    }
    Ok(())
}

fn write_closed_value(value: &[Component], out: &mut List<u8>) -> Result<(), OutOfMemory>
    ensures ok { OnOk result (out.new ≡ out.old ++ (value_text value.now ++ codes ")")) }
    ensures err { OnErr result (AppendsFront out.old out.new (value_text value.now ++ codes ")")) }
{
    write_value(value, out)?;
    write_bytes(b")", out)
}

fn write_marked_value(value: &[Component], out: &mut List<u8>) -> Result<(), OutOfMemory>
    ensures ok { OnOk result (out.new ≡ out.old ++ (codes ":" ++ (value_text value.now ++ codes ")"))) }
    ensures err { OnErr result (AppendsFront out.old out.new (codes ":" ++ (value_text value.now ++ codes ")"))) }
{
    write_bytes(b":", out)?;
    write_closed_value(value, out)
}

fn write_declared(name: &Text, value: &[Component], out: &mut List<u8>) -> Result<(), OutOfMemory>
    ensures ok { OnOk result (out.new ≡ out.old ++ declared_text name.now value.now) }
    ensures err { OnErr result (AppendsFront out.old out.new (declared_text name.now value.now)) }
{
    write_marked(b"(", name, out)?;
    write_marked_value(value, out)
}

/// Writes a declaration in parentheses.
fn write_declaration(
    name: &Text,
    value: &[Component],
    out: &mut List<u8>,
) -> Result<(), OutOfMemory>
    ensures ok { OnOk result (out.new ≡ out.old ++ declaration_text name.now value.now) }
    ensures err { OnErr result (AppendsFront out.old out.new (declaration_text name.now value.now)) }
{
    printed_again();
    write_declared(name, value, out)
}

/// Writes a supports condition behind what `out` holds, by the rules of `write_queries`; a declaration as its name, a colon
/// and its value. A refusal leaves a front of the text.
#[cycle(supports)]
#[tactic(auto, using(crate::proofs::SpellingTexts::supports_texts))]
pub fn write_supports(condition: &Supports, out: &mut List<u8>) -> Result<(), OutOfMemory>
    ensures ok { OnOk result (out.new ≡ out.old ++ supports_text condition.now) }
    ensures err { OnErr result (AppendsFront out.old out.new (supports_text condition.now)) }
{
    match condition {
        Supports::And(list) => write_supports_row(b" and ", list.as_slice(), out),
        Supports::Or(list) => write_supports_row(b" or ", list.as_slice(), out),
        Supports::Not(inner) => write_negative(inner.get(), out),
        Supports::Declared(name, value) => write_declaration(name, value.as_slice(), out),
        Supports::Function(_) => write_bytes(b"f()", out),
    }
}

#[cycle(supports)]
fn write_negative(condition: &Supports, out: &mut List<u8>) -> Result<(), OutOfMemory>
    ensures ok { OnOk result (out.new ≡ out.old ++ (codes "not " ++ nested_text condition.now)) }
    ensures err { OnErr result (AppendsFront out.old out.new (codes "not " ++ nested_text condition.now)) }
{
    write_bytes(b"not ", out)?;
    write_nested(condition, out)
}

/// Writes a condition inside another one: a compound one in parentheses.
#[cycle(supports)]
#[tactic(auto, using(crate::proofs::SpellingTexts::nested_texts))]
fn write_nested(condition: &Supports, out: &mut List<u8>) -> Result<(), OutOfMemory>
    ensures ok { OnOk result (out.new ≡ out.old ++ nested_text condition.now) }
    ensures err { OnErr result (AppendsFront out.old out.new (nested_text condition.now)) }
{
    match condition {
        Supports::Declared(name, value) => write_declaration(name, value.as_slice(), out),
        Supports::Function(_) => write_bytes(b"f()", out),
        Supports::And(_) | Supports::Or(_) | Supports::Not(_) => write_enclosed(condition, out),
    }
}

#[cycle(supports)]
fn write_enclosed(condition: &Supports, out: &mut List<u8>) -> Result<(), OutOfMemory>
    ensures ok { OnOk result (out.new ≡ out.old ++ (codes "(" ++ (alone_text condition.now ++ codes ")"))) }
    ensures err { OnErr result (AppendsFront out.old out.new (codes "(" ++ (alone_text condition.now ++ codes ")"))) }
{
    write_bytes(b"(", out)?;
    write_ended(condition, out)
}

#[cycle(supports)]
fn write_ended(condition: &Supports, out: &mut List<u8>) -> Result<(), OutOfMemory>
    ensures ok { OnOk result (out.new ≡ out.old ++ (alone_text condition.now ++ codes ")")) }
    ensures err { OnErr result (AppendsFront out.old out.new (alone_text condition.now ++ codes ")")) }
{
    write_supports(condition, out)?;
    write_bytes(b")", out)
}

/// Writes conditions with a keyword between them.
#[cycle(supports)]
fn write_supports_row(
    between: &[u8],
    row: &[Supports],
    out: &mut List<u8>,
) -> Result<(), OutOfMemory>
    ensures ok { OnOk result (out.new ≡ out.old ++ row_text between.now nested_text row.now) }
    ensures err { OnErr result (AppendsFront out.old out.new (row_text between.now nested_text row.now)) }
{
    let mut wanted = false;
    for condition in row {
        write_wanted(wanted, between, out)?;
        write_nested(condition, out)?;
        wanted = true;
    }
    Ok(())
}
