//! What can be wrong with an input.
ghost use Rattle.std.specs.Prelude.{◌≡◌};

/// What is wrong with an input, at the line that is named beside it.
#[derive(Clone, Copy, Debug, PartialEq, Eq)]
pub enum BadKind {
    TooLong,
    LongLine,
    Bytes,
    Command,
    Number,
    Handle,
    Hex,
    Name,
    Twice,
    Undeclared,
    QuotaRange,
    Many,
    Step,
    /// Only of the order `load`.
    File,
}

impl BadKind {
    ghost use Rattle.dym_base.specs.BadKinds.{text_of};

    /// The word that an error line names it by.
    pub fn text(self) -> &'static str
        ensures { result.now ≡ text_of self }
    {
        match self {
            BadKind::TooLong => "toolong",
            BadKind::LongLine => "longline",
            BadKind::Bytes => "bytes",
            BadKind::Command => "command",
            BadKind::Number => "number",
            BadKind::Handle => "handle",
            BadKind::Hex => "hex",
            BadKind::Name => "name",
            BadKind::Twice => "twice",
            BadKind::Undeclared => "undeclared",
            BadKind::QuotaRange => "quota",
            BadKind::Many => "many",
            BadKind::Step => "step",
            BadKind::File => "file",
        }
    }
}
