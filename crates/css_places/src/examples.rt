//! Worked examples of the definitions of this crate, each the contract of a function that does nothing.

ghost use Rattle.css_places.specs.Lines.{column_of, line_of};
ghost use Rattle.css_places.specs.Rebasing.{rebased};
ghost use Rattle.css_places.specs.Resolving.{resolution};
ghost use Rattle.css_places.specs.declared.fault.PathFault.TheVariants.{Remote, Absolute, AboveRoot, Empty};
ghost use Rattle.std.specs.Prelude.{◌≡◌, [], ◌∷◌, Ok, Err, codes};

/// Lines and columns begin at 1, and only LF begins a line.
pub fn lines_and_columns()
    ensures first_line { line_of (codes "a\nbc") 0 ≡ 1 }
    ensures first_column { column_of (codes "a\nbc") 0 ≡ 1 }
    ensures before_the_newline { line_of (codes "a\nbc") 1 ≡ 1 }
    ensures column_of_the_newline { column_of (codes "a\nbc") 1 ≡ 2 }
    ensures behind_the_newline { line_of (codes "a\nbc") 2 ≡ 2 }
    ensures column_behind_the_newline { column_of (codes "a\nbc") 2 ≡ 1 }
    ensures end { line_of (codes "a\nbc") 4 ≡ 2 }
    ensures column_of_the_end { column_of (codes "a\nbc") 4 ≡ 3 }
    ensures carriage_return { line_of (codes "a\r\nb") 3 ≡ 2 }
    ensures form_feed { line_of (12 ∷ 12 ∷ []) 2 ≡ 1 }
    ensures column_behind_a_carriage_return { column_of (codes "a\r\nb") 2 ≡ 3 }
    ensures column_behind_a_form_feed { column_of (12 ∷ 12 ∷ []) 2 ≡ 3 }
    ensures third_line { line_of (codes "a\nbc\nd") 6 ≡ 3 }
    ensures column_of_the_third_line { column_of (codes "a\nbc\nd") 6 ≡ 2 }
    ensures column_in_bytes { column_of (195 ∷ 169 ∷ []) 2 ≡ 3 }
{}

/// Where targets lead.
pub fn targets()
    ensures beside { resolution (codes "css/a.css") (codes "b.css") ≡ Ok (codes "css/b.css") }
    ensures from_the_root { resolution (codes "a.css") (codes "b.css") ≡ Ok (codes "b.css") }
    ensures nowhere { resolution [] (codes "css/a.css") ≡ Ok (codes "css/a.css") }
    ensures up { resolution (codes "css/x/a.css") (codes "../b.css") ≡ Ok (codes "css/b.css") }
    ensures here { resolution (codes "css/a.css") (codes "./x//b.css") ≡ Ok (codes "css/x/b.css") }
    ensures down_and_up { resolution (codes "a.css") (codes "x/../b.css") ≡ Ok (codes "b.css") }
    ensures above { resolution (codes "css/a.css") (codes "../../b.css") ≡ Err AboveRoot }
    ensures above_on_the_way { resolution (codes "a.css") (codes "../x/b.css") ≡ Err AboveRoot }
    ensures empty { resolution (codes "a.css") (codes "") ≡ Err Empty }
    ensures folder { resolution (codes "a.css") (codes "x/") ≡ Err Empty }
    ensures folder_above { resolution (codes "a.css") (codes "../..") ≡ Err Empty }
    ensures absolute { resolution (codes "a.css") (codes "/b.css") ≡ Err Absolute }
    ensures absolute_folder { resolution (codes "a.css") (codes "/") ≡ Err Absolute }
    ensures two_slashes { resolution (codes "a.css") (codes "//host/b.css") ≡ Err Remote }
    ensures scheme { resolution (codes "a.css") (codes "https://host/") ≡ Err Remote }
    ensures odd_scheme { resolution (codes "a.css") (codes "a+b-c.d1:x") ≡ Err Remote }
    ensures scheme_in_capitals { resolution (codes "a.css") (codes "HTTP:x") ≡ Err Remote }
    ensures no_scheme_character { resolution (codes "a.css") (codes "a_b:x") ≡ Ok (codes "a_b:x") }
    ensures no_scheme { resolution (codes "a.css") (codes "1a:x") ≡ Ok (codes "1a:x") }
    ensures colon_behind_a_slash { resolution (codes "a.css") (codes "x/a:b") ≡ Ok (codes "x/a:b") }
{}

/// Addresses seen from another folder.
pub fn addresses()
    ensures up { rebased (codes "css/a.css") (codes "../i/x.png?a#b") ≡ codes "i/x.png?a#b" }
    ensures beside { rebased (codes "css/a.css") (codes "x.png") ≡ codes "css/x.png" }
    ensures above { rebased (codes "css/a.css") (codes "../../x.png") ≡ codes "../x.png" }
    ensures above_twice { rebased (codes "a.css") (codes "../../x.png") ≡ codes "../../x.png" }
    ensures above_and_down { rebased (codes "a.css") (codes "../x/../y.png") ≡ codes "../y.png" }
    ensures here { rebased (codes "a.css") (codes "./") ≡ codes "./" }
    ensures folder_above { rebased (codes "css/y/a.css") (codes "..") ≡ codes "css" }
    ensures folder_here { rebased (codes "css/a.css") (codes "..") ≡ codes "./" }
    ensures folder { rebased (codes "css/a.css") (codes "x/?q") ≡ codes "css/x/?q" }
    ensures scheme_behind { rebased (codes "a.css") (codes "./a:b") ≡ codes "./a:b" }
    ensures marks_in_a_folder { rebased (codes "a?b#/c.css") (codes "x.png?q") ≡ codes "a%3Fb%23/x.png?q" }
    ensures empty { rebased (codes "css/a.css") (codes "") ≡ codes "" }
    ensures fragment { rebased (codes "css/a.css") (codes "#x") ≡ codes "#x" }
    ensures query { rebased (codes "css/a.css") (codes "?x/y") ≡ codes "?x/y" }
    ensures absolute { rebased (codes "css/a.css") (codes "/x/../y") ≡ codes "/x/../y" }
    ensures scheme { rebased (codes "css/a.css") (codes "data:x/../y") ≡ codes "data:x/../y" }
{}
