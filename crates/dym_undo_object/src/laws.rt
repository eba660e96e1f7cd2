//! Chunks stay where they lie.
ghost use Rattle.dym_undo_object.specs.Addresses.{OriginAndQuotaTell, CommandsMoveNoChunk};

/// A chunk's address is a function of its heap's origin and quota and of its handle, and no command changes origin and quota.
pub fn commands_move_no_chunk()
    ensures told { OriginAndQuotaTell }
    ensures kept { CommandsMoveNoChunk }
{}
