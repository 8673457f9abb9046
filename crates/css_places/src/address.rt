ghost use Rattle.css_places.specs.Parts.{path_of};
ghost use Rattle.css_places.specs.Rebasing.{address_path, anchored, behind_path, final_slash, is_fixed, joined_path, rebased, replaced, written};
ghost use Rattle.css_places.specs.Walks.{reached};
ghost use Rattle.css_places.specs.declared.walk.Above.TheVariants.{Kept};
ghost use Rattle.std.specs.Prelude.{◌≡◌, [], ◌++◌, IfOk, OnOk, codes, string_bytes, unwrap_or};

use crate::PathText;
use crate::scheme::{begins_with, has_scheme};
use crate::walk::{Above, joined, name_of, reached};
use css_tokens::OutOfMemory;
use std::alloc::Global;

/// The path of an address, and what follows it.
fn cut(url: &str) -> (&str, &str)
    ensures path { result.0.now ≡ address_path url.now }
    ensures behind { result.1.now ≡ behind_path url.now }
{
    for (i, byte) in url.as_bytes().iter().enumerate() {
        if matches!(*byte, b'?' | b'#') {
            return url.split_at(i);
        }
    }
    (url, "")
}

fn is_fixed(url: &str, path: &str) -> bool
    requires { path.now ≡ address_path url.now }
    ensures { result ≡ is_fixed url.now }
{
    path.is_empty() || begins_with(b'/', url.as_bytes()) || has_scheme(url.as_bytes())
}

/// Adds a text with `%3F` in place of each `?`.
#[tactic(auto, using(crate::proofs::ReplacedLemmas::replacing))]
fn push_marks(out: &mut String, text: &str) -> Result<(), OutOfMemory>
    ensures { OnOk result (string_bytes out.new ≡ string_bytes out.old ++ replaced 63 (codes "%3F") text.now) }
{
    let mut rest = text;
    'marks: while let Some((before, behind)) = rest.split_once('?') {
        out.push_str(before)?;
        out.push_str("%3F")?;
        rest = behind;
    }
    out.push_str(rest)?;
    Ok(())
}

/// Adds a text with `%23` in place of each `#`.
#[tactic(auto, using(crate::proofs::ReplacedLemmas::replacing))]
fn push_hashes(out: &mut String, text: &str) -> Result<(), OutOfMemory>
    ensures { OnOk result (string_bytes out.new ≡ string_bytes out.old ++ replaced 35 (codes "%23") text.now) }
{
    let mut rest = text;
    'hashes: while let Some((before, behind)) = rest.split_once('#') {
        out.push_str(before)?;
        out.push_str("%23")?;
        rest = behind;
    }
    out.push_str(rest)?;
    Ok(())
}

/// A path as an address writes it.
fn written(alloc: Global, path: &str) -> Result<String, OutOfMemory>
    ensures { IfOk result (λ text. string_bytes text ≡ written path.now) }
{
    let mut marked = String::new(alloc);
    push_marks(&mut marked, path)?;
    let mut text = String::new(alloc);
    push_hashes(&mut text, marked.as_str())?;
    Ok(text)
}

/// The path to which `path` leads from the folder of the file `from`.
fn plain_path(alloc: Global, from: &str, path: &str) -> Result<String, OutOfMemory>
    ensures { IfOk result (λ text. string_bytes text ≡ path_of (unwrap_or (reached Kept from.now path.now) [])) }
{
    match reached(alloc, Above::Kept, from, path) {
        Ok(kept) => joined(alloc, kept.as_slice()),
        Err(_fault) => Err(OutOfMemory),
    }
}

/// Adds a slash, where the path ends in one.
fn push_slash(out: &mut String, path: &str) -> Result<(), OutOfMemory>
    ensures { OnOk result (string_bytes out.new ≡ string_bytes out.old ++ final_slash path.now) }
{
    if name_of(path).is_empty() {
        out.push_str("/")?;
    }
    Ok(())
}

fn joined_path(alloc: Global, from: &str, path: &str) -> Result<String, OutOfMemory>
    ensures { IfOk result (λ text. string_bytes text ≡ joined_path from.now path.now) }
{
    let plain = plain_path(alloc, from, path)?;
    let mut text = written(alloc, plain.as_str())?;
    push_slash(&mut text, path)?;
    anchored(alloc, text)
}

fn anchored(alloc: Global, path: String) -> Result<String, OutOfMemory>
    ensures { IfOk result (λ text. string_bytes text ≡ anchored (string_bytes path)) }
{
    if path.is_empty() || path.as_str() == "/" {
        return Ok(String::from_str(alloc, "./")?);
    }
    if has_scheme(path.as_bytes()) {
        let mut text = String::from_str(alloc, "./")?;
        text.push_str(path.as_str())?;
        return Ok(text);
    }
    Ok(path)
}

/// The address as it is from the folder in which the program runs, where it is `url` from the folder of the file `from`. One
/// that begins with a slash, a `?` or a `#`, has a scheme or is empty stays as it is. Refuses for want of memory alone.
pub fn rebase(alloc: Global, from: &str, url: &str) -> Result<PathText, OutOfMemory>
    ensures { IfOk result (λ address. address ≡ rebased from.now url.now) }
{
    let (path, behind) = cut(url);
    if is_fixed(url, path) {
        return Ok(PathText::new(String::from_str(alloc, url)?));
    }
    let mut text = joined_path(alloc, from, path)?;
    text.push_str(behind)?;
    Ok(PathText::new(text))
}
