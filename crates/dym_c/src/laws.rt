//! What calls of C come to, the contract of a function that does nothing.
ghost use Rattle.dym_c.specs.RestoreLaw.{ExportsBringBack};

/// A restore brings back what was logged: after a `dym_log` at `t` and any commands, none of which restores to a time before `t`, a
/// `dym_restore` to `t` that finds that log makes live exactly what was live when it was made. A `dym_touch` is such a command.
pub fn exports_bring_back()
    ensures { ExportsBringBack }
{
    dym_base::laws::restores_bring_back();
}
