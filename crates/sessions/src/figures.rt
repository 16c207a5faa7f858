//! Worked figures of sessions, as theorems about the rules.
ghost use Rattle.std.specs.Prelude.{◌≡◌, length};
ghost use Rattle.fields.specs.Figures.{ComeOut};
ghost use Rattle.sessions.specs.Figures.{session_figures, SeventeenBytesFromSeven};

/// How many figures stand in the list of the sessions. Its contract says that each of them comes out as published.
pub fn session_figures() -> usize
    ensures count { result ≡ length session_figures }
    ensures hold { ComeOut session_figures }
    ensures at_every_tally { SeventeenBytesFromSeven }
{
    3
}
