//! Laws of the physical declarations, each the contract of a function that does nothing.

ghost use Rattle.std.specs.Prelude.{◌≡◌, ◌++◌, ◌∷◌, [], ℕ, List, codes, false, map, not, true};
ghost use Rattle.std.specs.List.{filter, list_all};
ghost use Rattle.css_tokens.specs.Trees.{is_text};
ghost use Rattle.css_tokens.specs.declared.component.Component.{Component};
ghost use Rattle.prop_table.specs.LogicalProperties.{axes, is_logical, logical_properties, sides, split_properties};
ghost use Rattle.prop_table.specs.declared.mode.Mode.{Mode};
ghost use Rattle.prop_table.specs.PhysicalProperties.{declares, depends_on_mode, is_flow_value, is_physical, is_shared_row, physical, physical_all, places, rows};

/// The table has a row for each logical property, in each mode the same and in the same order, and a place for each logical side
/// and each axis. The split properties are those that stand for several ones, but for the whole borders of an axis (CSS Logical
/// 1, section 4).
pub fn one_table()
    ensures properties { (mode : Mode) → map (λ row. row.logical) (rows mode) ≡ logical_properties }
    ensures places { (mode : Mode) → map (λ row. row.logical) (places mode) ≡ sides ++ axes }
    ensures split { (mode : Mode) → map (λ row. row.logical) (filter is_shared_row (rows mode)) ≡ split_properties }
{}

/// A declaration of a property that is not logical stands for itself alone in each mode, where its value is no keyword of the flow
/// that the property takes (CSS Logical 1, sections 2.2 to 2.4 and 4).
pub fn old_properties_are_themselves()
    ensures { (mode : Mode) (name : List ℕ) (value : List Component) → is_logical name ≡ false → is_flow_value name value ≡ false → physical mode name value ≡ declares name value ∷ [] }
{}

/// What a declaration stands for has no logical property and no keyword of the flow where the property takes it. So each of these
/// declarations stands for itself, in this mode and in each other.
pub fn physical_properties_are_old()
    ensures old { (mode : Mode) (name : List ℕ) (value : List Component) → list_all is_physical (physical mode name value) ≡ true }
    ensures again { (mode other : Mode) (name : List ℕ) (value : List Component) → physical_all other (physical mode name value) ≡ physical mode name value }
{}

/// Each logical property but `inset` stands for other ones in another mode; `inset` stands for the same in each (CSS Logical 1,
/// section 4.3).
pub fn modes_matter()
    ensures all { list_all depends_on_mode (filter (λ name. not (is_text name (codes "inset"))) logical_properties) ≡ true }
    ensures inset { (mode other : Mode) (value : List Component) → physical mode (codes "inset") value ≡ physical other (codes "inset") value }
{}
