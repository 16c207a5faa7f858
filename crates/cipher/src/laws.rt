//! Theorems about the definitions, each on the contract of a call.
ghost use Rattle.std.specs.Prelude.{◌≡◌, true, ◌++◌, length};
ghost use Rattle.fields.specs.Figures.{field_figures, ComeOut};
ghost use Rattle.routes.specs.Figures.{route_figures};
ghost use Rattle.cipher.specs.Figures.{cipher_figures};
ghost use Rattle.cipher.specs.Undo.{UndoLaws};

/// The inverse cipher undoes the cipher and the other way round, for every key and every block, and so does each of its steps.
pub fn undo_laws_hold() -> bool
    ensures always { result ≡ true }
    ensures laws { UndoLaws }
{
    true
}

/// How many worked figures there are of fields, routes and cipher. Its contract says that each of them comes out as published.
pub fn cipher_figures() -> usize
    ensures count { result ≡ length (field_figures ++ route_figures ++ cipher_figures) }
    ensures hold { ComeOut (field_figures ++ route_figures ++ cipher_figures) }
{
    routes::route_figures() + 2
}
