//! Worked examples of the definitions of this crate, each the contract of a function that does nothing.

ghost use Rattle.std.specs.Prelude.{◌≡◌, ◌∷◌, [], codes, true, false};
ghost use Rattle.prop_table.specs.LogicalProperties.{is_logical, is_split};
ghost use Rattle.prop_table.specs.OldFeatures.{is_old_feature, is_range_feature};
ghost use Rattle.prop_table.specs.OldPseudos.{is_old_pseudo};
ghost use Rattle.prop_table.specs.PhysicalProperties.{declares, physical};
ghost use Rattle.prop_table.specs.Samples.{comment, declared, size, space, upright, word};

/// Which pseudo-classes and pseudo-elements Selectors 3 has.
pub fn old_pseudos()
    ensures first_class { is_old_pseudo (codes "root") ≡ true }
    ensures last_class { is_old_pseudo (codes "lang") ≡ true }
    ensures element { is_old_pseudo (codes "after") ≡ true }
    ensures with_argument { is_old_pseudo (codes "nth-child(2n+1)") ≡ true }
    ensures begins_alike { is_old_pseudo (codes "focus-visible") ≡ false }
    ensures younger_element { is_old_pseudo (codes "selection") ≡ false }
    ensures argument_alone { is_old_pseudo (codes "is(hover)") ≡ false }
    ensures nothing { is_old_pseudo (codes "") ≡ false }
{}

/// Which media features Media Queries 3 has, and which of them have an order.
pub fn old_features()
    ensures range { is_old_feature (codes "width") ≡ true }
    ensures least { is_old_feature (codes "min-width") ≡ true }
    ensures greatest { is_old_feature (codes "max-device-aspect-ratio") ≡ true }
    ensures unordered { is_old_feature (codes "grid") ≡ true }
    ensures least_of_unordered { is_old_feature (codes "min-orientation") ≡ false }
    ensures younger { is_old_feature (codes "hover") ≡ false }
    ensures first_range { is_range_feature (codes "width") ≡ true }
    ensures last_range { is_range_feature (codes "resolution") ≡ true }
    ensures no_range { is_range_feature (codes "orientation") ≡ false }
    ensures least_is_no_range { is_range_feature (codes "min-width") ≡ false }
{}

/// Which properties are logical, and which of these share out their value.
pub fn logical_properties()
    ensures margin { is_logical (codes "margin-inline-start") ≡ true }
    ensures offsets { is_logical (codes "inset-block") ≡ true }
    ensures padding { is_logical (codes "padding-block-end") ≡ true }
    ensures border { is_logical (codes "border-inline") ≡ true }
    ensures border_color { is_logical (codes "border-block-start-color") ≡ true }
    ensures size { is_logical (codes "max-inline-size") ≡ true }
    ensures corner { is_logical (codes "border-end-start-radius") ≡ true }
    ensures inset { is_logical (codes "inset") ≡ true }
    ensures physical_margin { is_logical (codes "margin-left") ≡ false }
    ensures physical_size { is_logical (codes "width") ≡ false }
    ensures physical_corner { is_logical (codes "border-top-left-radius") ≡ false }
    ensures physical_property { is_logical (codes "float") ≡ false }
    ensures no_property { is_logical (codes "margin-inline-start-width") ≡ false }
    ensures split_axis { is_split (codes "border-inline-style") ≡ true }
    ensures split_inset { is_split (codes "inset") ≡ true }
    ensures one_side { is_split (codes "margin-block-start") ≡ false }
    ensures whole_border { is_split (codes "border-block") ≡ false }
    ensures one_size { is_split (codes "block-size") ≡ false }
{}

/// What logical properties stand for in vertical-rl and rtl, where block-start is the right and inline-start the bottom.
pub fn physical_properties()
    ensures margin { physical upright (codes "margin-block-start") (size "1px" ∷ []) ≡ declared "margin-right" (size "1px") ∷ [] }
    ensures offset { physical upright (codes "inset-inline-start") (size "1px" ∷ []) ≡ declared "bottom" (size "1px") ∷ [] }
    ensures padding { physical upright (codes "padding-inline-end") (size "1px" ∷ []) ≡ declared "padding-top" (size "1px") ∷ [] }
    ensures border { physical upright (codes "border-block-end") (size "1px" ∷ []) ≡ declared "border-left" (size "1px") ∷ [] }
    ensures border_width { physical upright (codes "border-inline-start-width") (size "1px" ∷ []) ≡ declared "border-bottom-width" (size "1px") ∷ [] }
    ensures border_style { physical upright (codes "border-block-start-style") (size "1px" ∷ []) ≡ declared "border-right-style" (size "1px") ∷ [] }
    ensures border_color { physical upright (codes "border-inline-end-color") (size "1px" ∷ []) ≡ declared "border-top-color" (size "1px") ∷ [] }
    ensures whole_borders { physical upright (codes "border-inline") (size "1px" ∷ []) ≡ declared "border-bottom" (size "1px") ∷ declared "border-top" (size "1px") ∷ [] }
    ensures inline_size { physical upright (codes "inline-size") (size "1px" ∷ []) ≡ declared "height" (size "1px") ∷ [] }
    ensures least_inline_size { physical upright (codes "min-inline-size") (size "1px" ∷ []) ≡ declared "min-height" (size "1px") ∷ [] }
    ensures block_size { physical upright (codes "block-size") (size "1px" ∷ []) ≡ declared "width" (size "1px") ∷ [] }
    ensures greatest_block_size { physical upright (codes "max-block-size") (size "1px" ∷ []) ≡ declared "max-width" (size "1px") ∷ [] }
    ensures corner_of_both_starts { physical upright (codes "border-start-start-radius") (size "1px" ∷ []) ≡ declared "border-bottom-right-radius" (size "1px") ∷ [] }
    ensures corner_of_start_and_end { physical upright (codes "border-start-end-radius") (size "1px" ∷ []) ≡ declared "border-top-right-radius" (size "1px") ∷ [] }
    ensures corner_of_end_and_start { physical upright (codes "border-end-start-radius") (size "1px" ∷ []) ≡ declared "border-bottom-left-radius" (size "1px") ∷ [] }
    ensures corner_of_both_ends { physical upright (codes "border-end-end-radius") (size "1px" ∷ []) ≡ declared "border-top-left-radius" (size "1px") ∷ [] }
{}

/// How the parts of a value are shared out, in the same mode.
#[tactic(auto, using(crate::proofs::Computing::computing))]
pub fn shared_values()
    ensures margins_of_one { physical upright (codes "margin-block") (size "1px" ∷ []) ≡ declared "margin-right" (size "1px") ∷ declared "margin-left" (size "1px") ∷ [] }
    ensures paddings_of_two { physical upright (codes "padding-inline") (size "1px" ∷ space ∷ size "2px" ∷ []) ≡ declared "padding-bottom" (size "1px") ∷ declared "padding-top" (size "2px") ∷ [] }
    ensures offsets_of_two { physical upright (codes "inset-block") (comment ∷ size "1px" ∷ comment ∷ size "2px" ∷ space ∷ []) ≡ declared "right" (size "1px") ∷ declared "left" (size "2px") ∷ [] }
    ensures border_widths { physical upright (codes "border-inline-width") (size "1px" ∷ []) ≡ declared "border-bottom-width" (size "1px") ∷ declared "border-top-width" (size "1px") ∷ [] }
    ensures border_styles { physical upright (codes "border-block-style") (word "solid" ∷ space ∷ word "dotted" ∷ []) ≡ declared "border-right-style" (word "solid") ∷ declared "border-left-style" (word "dotted") ∷ [] }
    ensures border_colors { physical upright (codes "border-block-color") (word "red" ∷ []) ≡ declared "border-right-color" (word "red") ∷ declared "border-left-color" (word "red") ∷ [] }
    ensures all_sides_of_one { physical upright (codes "inset") (size "1px" ∷ []) ≡ declared "top" (size "1px") ∷ declared "right" (size "1px") ∷ declared "bottom" (size "1px") ∷ declared "left" (size "1px") ∷ [] }
    ensures all_sides_of_two { physical upright (codes "inset") (size "1px" ∷ space ∷ size "2px" ∷ []) ≡ declared "top" (size "1px") ∷ declared "right" (size "2px") ∷ declared "bottom" (size "1px") ∷ declared "left" (size "2px") ∷ [] }
    ensures all_sides_of_three { physical upright (codes "inset") (size "1px" ∷ space ∷ size "2px" ∷ space ∷ size "3px" ∷ []) ≡ declared "top" (size "1px") ∷ declared "right" (size "2px") ∷ declared "bottom" (size "3px") ∷ declared "left" (size "2px") ∷ [] }
    ensures all_sides_of_four { physical upright (codes "inset") (size "1px" ∷ space ∷ size "2px" ∷ space ∷ size "3px" ∷ space ∷ size "4px" ∷ []) ≡ declared "top" (size "1px") ∷ declared "right" (size "2px") ∷ declared "bottom" (size "3px") ∷ declared "left" (size "4px") ∷ [] }
    ensures three_for_two_sides { physical upright (codes "margin-inline") (size "1px" ∷ space ∷ size "2px" ∷ space ∷ size "3px" ∷ []) ≡ [] }
    ensures five_for_four_sides { physical upright (codes "inset") (size "1px" ∷ space ∷ size "2px" ∷ space ∷ size "3px" ∷ space ∷ size "4px" ∷ space ∷ size "5px" ∷ []) ≡ [] }
    ensures no_part { physical upright (codes "margin-inline") (comment ∷ []) ≡ [] }
    ensures keyword_for_all { physical upright (codes "margin-inline") (word "inherit" ∷ []) ≡ declared "margin-bottom" (word "inherit") ∷ declared "margin-top" (word "inherit") ∷ [] }
    ensures keyword_beside_a_part { physical upright (codes "margin-inline") (word "inherit" ∷ space ∷ size "1px" ∷ []) ≡ [] }
    ensures keyword_behind_a_part { physical upright (codes "inset") (size "1px" ∷ space ∷ word "REVERT" ∷ []) ≡ [] }
{}

/// What the keywords of the flow stand for, in the same mode.
#[tactic(auto, using(crate::proofs::Computing::computing))]
pub fn flow_values()
    ensures start_of_lines { physical upright (codes "float") (word "inline-start" ∷ []) ≡ declared "float" (word "right") ∷ [] }
    ensures end_in_any_case { physical upright (codes "clear") (word "INLINE-end" ∷ []) ≡ declared "clear" (word "left") ∷ [] }
    ensures inline_axis { physical upright (codes "resize") (word "inline" ∷ []) ≡ declared "resize" (word "vertical") ∷ [] }
    ensures block_axis { physical upright (codes "resize") (word "block" ∷ []) ≡ declared "resize" (word "horizontal") ∷ [] }
    ensures among_gaps { physical upright (codes "float") (space ∷ word "inline-end" ∷ comment ∷ []) ≡ declared "float" (word "left") ∷ [] }
    ensures physical_side { physical upright (codes "float") (word "left" ∷ []) ≡ declared "float" (word "left") ∷ [] }
    ensures axis_of_float { physical upright (codes "float") (word "block" ∷ []) ≡ declared "float" (word "block") ∷ [] }
    ensures side_of_resize { physical upright (codes "resize") (word "inline-start" ∷ []) ≡ declared "resize" (word "inline-start") ∷ [] }
    ensures other_property { physical upright (codes "display") (word "block" ∷ []) ≡ declared "display" (word "block") ∷ [] }
    ensures physical_property { physical upright (codes "margin-left") (size "1px" ∷ []) ≡ declared "margin-left" (size "1px") ∷ [] }
    ensures custom_property { physical upright (codes "--inset") (size "1px" ∷ []) ≡ declared "--inset" (size "1px") ∷ [] }
    ensures two_values { physical upright (codes "float") (word "inline-start" ∷ space ∷ word "inline-end" ∷ []) ≡ declares (codes "float") (word "inline-start" ∷ space ∷ word "inline-end" ∷ []) ∷ [] }
{}
