//! What the definition of a made script gives.
ghost use Rattle.dym_gen.specs.Laws.{LinesAreShort, ScriptsAreShort};

/// Each line has at most 32 bytes with its end.
pub fn lines_are_short()
    ensures { LinesAreShort }
{}

/// The longest made script has fewer than 6,600,000 bytes.
pub fn scripts_are_short()
    ensures { ScriptsAreShort }
{}
