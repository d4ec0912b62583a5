//! Lines as the editor counts them and as the image does.

ghost use Rattle.std.specs.Prelude.{◌≡◌, ◌≤◌};
ghost use Rattle.answers.specs.EditorLines as spec;

/// A line as the image counts it.
pub(crate) fn line_in_image(base: u32, line: u32) -> u32
    requires { base ≤ 1 }
    ensures { result ≡ spec.line_in_image base line }
{
    line.saturating_add(1 - base)
}

/// A line of the image as the editor counts it.
pub(crate) fn line_in_editor(base: u32, line: u32) -> u32
    requires { base ≤ 1 }
    ensures { result ≡ spec.line_in_editor base line }
{
    line.saturating_sub(1 - base)
}
