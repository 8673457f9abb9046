ghost use Rattle.std.specs.Prelude.{◌≡◌, ◌++◌, codes, map};
ghost use Rattle.std.specs.List.{list_any};
ghost use Rattle.css_tokens.specs.Trees.{is_text};
ghost use Rattle.prop_table.specs.OldFeatures.{is_old_feature, is_range_feature, range_features};

/// Whether Media Queries 3 has this media feature and its values have an order (section 4). It takes the name in lower case,
/// without `min-` or `max-`.
pub fn is_range_feature(name: &str) -> bool
    ensures { result ≡ is_range_feature name.now }
{
    matches!(
        name,
        "width"
            | "height"
            | "device-width"
            | "device-height"
            | "aspect-ratio"
            | "device-aspect-ratio"
            | "color"
            | "color-index"
            | "monochrome"
            | "resolution"
    )
}

/// Whether it is the least value of such a feature.
fn is_least(name: &str) -> bool
    ensures { result ≡ list_any (is_text name.now) (map (λ feature. codes "min-" ++ feature) range_features) }
{
    matches!(
        name,
        "min-width"
            | "min-height"
            | "min-device-width"
            | "min-device-height"
            | "min-aspect-ratio"
            | "min-device-aspect-ratio"
            | "min-color"
            | "min-color-index"
            | "min-monochrome"
            | "min-resolution"
    )
}

/// Whether it is the greatest value of such a feature.
fn is_greatest(name: &str) -> bool
    ensures { result ≡ list_any (is_text name.now) (map (λ feature. codes "max-" ++ feature) range_features) }
{
    matches!(
        name,
        "max-width"
            | "max-height"
            | "max-device-width"
            | "max-device-height"
            | "max-aspect-ratio"
            | "max-device-aspect-ratio"
            | "max-color"
            | "max-color-index"
            | "max-monochrome"
            | "max-resolution"
    )
}

/// Whether Media Queries 3 has this media feature (section 4). It takes the name in lower case.
pub fn is_old_feature(name: &str) -> bool
    ensures { result ≡ is_old_feature name.now }
{
    is_range_feature(name)
        || is_least(name)
        || is_greatest(name)
        || matches!(name, "orientation" | "scan" | "grid")
}
