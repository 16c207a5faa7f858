//! Worked figures of the fields, as theorems about the definitions.
ghost use Rattle.std.specs.Prelude.{◌≡◌, length};
ghost use Rattle.fields.specs.Figures.{field_figures, ComeOut};

/// How many figures stand in the list of the fields. Its contract says that each of them comes out as published.
pub fn field_figures() -> usize
    ensures count { result ≡ length field_figures }
    ensures hold { ComeOut field_figures }
{
    5
}
