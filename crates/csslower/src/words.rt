ghost use Rattle.std.specs.Prelude.{◌≡◌, map};
ghost use Rattle.std.specs.Option.{option_map};
ghost use Rattle.csslower.specs.Words.{entry_of, is_no_entry, is_folder, is_scoped};

// The entry that the words name, where they are a command.
pub(crate) fn entry<'w>(words: &[&'w str]) -> Option<&'w str>
    ensures { option_map (λ path. path.now) result ≡ entry_of (map (λ word. word.now) words.now) }
{
    let [word] = words else {
        return None;
    };
    if is_no_entry(word) { None } else { Some(word) }
}

// Whether a word cannot name the entry.
fn is_no_entry(word: &str) -> bool
    ensures { result ≡ is_no_entry word.now }
{
    let bytes = word.as_bytes();
    word.is_empty()
        || bytes.contains(&b'/')
        || bytes.contains(&b':')
        || bytes.starts_with(b"-")
        || is_folder(word)
}

// Whether a word names the folder itself, or the one above it.
fn is_folder(word: &str) -> bool
    ensures { result ≡ is_folder word.now }
{
    word == "." || word == ".."
}

// Whether this is the path of a file whose names are scoped.
pub(crate) fn is_scoped(path: &str) -> bool
    ensures { result ≡ is_scoped path.now }
{
    path.as_bytes().ends_with(b".module.css")
}
