//! What may stand between the slashes of a path.
//! Definitions: specs/Paths.antt.
//! Tests: leaf_tests/src/names/root_paths.rt, leaf_tests/src/names/rel_paths.rt.
ghost use Rattle.std.specs.Prelude.{◌≡◌, ◌==◌, ◌&&◌, not};
ghost use Rattle.std.specs.List.{list_all};
ghost use Rattle.wm_names.specs.Paths.{components, is_component as is_component_lem, is_dots as is_dots_lem};

/// Whether a part is empty, `.` or `..`.
fn is_dots(part: &[u8]) -> bool
    ensures { result ≡ is_dots_lem part.now }
{
    part.len() < 3 && part.iter().all(|byte| *byte == b'.')
}

/// Whether the byte stands nowhere in a text.
pub(crate) fn is_free_of(text: &[u8], byte: u8) -> bool
    ensures { result ≡ list_all (λ b. not (b == byte)) text.now }
{
    !text.contains(&byte)
}

/// Whether a part of a path may stand between slashes.
fn is_component(part: &[u8]) -> bool
    ensures { result ≡ is_component_lem part.now }
{
    !is_dots(part) && is_free_of(part, 0)
}

/// Whether each part between slashes may stand there.
pub(crate) fn are_components(rest: &[u8]) -> bool
    ensures { result ≡ list_all is_component_lem (components rest.now) }
{
    rest.split(|byte| *byte == b'/')
        .all(|part| is_component(part))
}

/// Whether a name is one component: no slash is in it.
pub(crate) fn is_one_component(name: &[u8]) -> bool
    ensures { result ≡ (list_all (λ b. not (b == 47)) name.now && is_component_lem name.now) }
{
    is_free_of(name, b'/') && is_component(name)
}
