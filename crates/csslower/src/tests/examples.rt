// Worked examples of the definitions of this crate, each the contract of a function that does nothing.
ghost use Rattle.std.specs.Prelude.{◌≡◌, List, [], ◌∷◌, ◌++◌, true, false, Some, None, codes};
ghost use Rattle.std.specs.Fmt.{decimal};
ghost use Rattle.css_places.specs.declared.finding.Code.TheVariants.{Syntax, Depth, Missing, Unbuilt};
ghost use Rattle.csslower.specs.Lines.{refusal_line, unread_line, unwritten_line};
ghost use Rattle.csslower.specs.Words.{entry_of, is_scoped};

// A command is exactly one word, which names a file of the folder.
fn words_are_a_command()
    ensures one_word { entry_of (codes "a.css" ∷ []) ≡ Some (codes "a.css") }
    ensures no_word { entry_of [] ≡ None }
    ensures two_words { entry_of (codes "a.css" ∷ codes "b.css" ∷ []) ≡ None }
    ensures empty_word { entry_of ([] ∷ []) ≡ None }
    ensures slash { entry_of (codes "a/b.css" ∷ []) ≡ None }
    ensures above { entry_of (codes "../a.css" ∷ []) ≡ None }
    ensures colon { entry_of (codes "http:a.css" ∷ []) ≡ None }
    ensures first_dash { entry_of (codes "--x" ∷ []) ≡ None }
    ensures inner_dash { entry_of (codes "a-b.css" ∷ []) ≡ Some (codes "a-b.css") }
    ensures folder { entry_of (codes "." ∷ []) ≡ None }
    ensures folder_above { entry_of (codes ".." ∷ []) ≡ None }
    ensures three_dots { entry_of (codes "..." ∷ []) ≡ Some (codes "...") }
{}

// The names of a file are scoped where its path ends in `.module.css`.
fn paths_are_scoped()
    ensures module { is_scoped (codes "a.module.css") ≡ true }
    ensures ending_alone { is_scoped (codes ".module.css") ≡ true }
    ensures plain { is_scoped (codes "module.css") ≡ false }
    ensures other_case { is_scoped (codes "a.Module.css") ≡ false }
    ensures not_at_the_end { is_scoped (codes "a.module.css.css") ≡ false }
{}

// The lines of messages.
fn lines_are_said()
    ensures syntax { refusal_line (codes "a.css") (codes ".a{color:red") (record { place = record { file = 0; offset = 12 }; code = Syntax }) ≡ codes "a.css:" ++ decimal 1 ++ codes ":" ++ decimal 13 ++ codes ": Syntax cannot be read\n" }
    ensures depth { refusal_line (codes "a.css") (codes "a\n((") (record { place = record { file = 0; offset = 3 }; code = Depth }) ≡ codes "a.css:" ++ decimal 2 ++ codes ":" ++ decimal 2 ++ codes ": Depth nested too deep\n" }
    ensures missing { refusal_line (codes "b.css") [] (record { place = record { file = 0; offset = 0 }; code = Missing }) ≡ codes "b.css:" ++ decimal 1 ++ codes ":" ++ decimal 1 ++ codes ": Missing file not found\n" }
    ensures unbuilt { refusal_line (codes "a.css") (codes "p{}\n@x") (record { place = record { file = 0; offset = 4 }; code = Unbuilt }) ≡ codes "a.css:" ++ decimal 2 ++ codes ":" ++ decimal 1 ++ codes ": Unbuilt not built yet\n" }
    ensures unread { unread_line (codes "a.css") ≡ codes "csslower: cannot read a.css\n" }
    ensures unwritten { unwritten_line (codes "-") ≡ codes "csslower: cannot write -\n" }
{}

#[test]
fn definitions_compute() {
    words_are_a_command();
    paths_are_scoped();
    lines_are_said();
}
