//! A script of late events by its objects.
ghost use Rattle.std.specs.Prelude.{◌≡◌, ◌<◌, ◌++◌, [], ◌∷◌, All, IfOk, OnOk, length, map};
ghost use Rattle.dymelor_top.specs.LateParts.{AreLateParts};

use dym_script::{Decl, LateAct, LateLine, LateScript};
use std::alloc::{AllocError, Global};

/// A declared object and what its own lines say.
#[derive(Drop)]
pub struct LatePart {
    pub decl: Decl,
    pub acts: Vec<LateAct>,
}

/// The objects of a script, each with what its own lines say, in their order.
pub fn late_parts(alloc: Global, script: LateScript) -> Result<Vec<LatePart>, AllocError>
    requires { All (λ line. line.object < length script.objects.items) script.lines.items }
    ensures { IfOk result
        (λ parts. AreLateParts parts.items script.objects.items script.lines.items) }
{
    let LateScript { objects, lines } = script;
    let mut parts = silent_parts(alloc, objects)?;
    for line in lines {
        let LateLine { object, act } = line;
        keep(&mut parts[object as usize], act)?;
    }
    Ok(parts)
}

/// The declared objects, of which no line says anything yet.
fn silent_parts(alloc: Global, objects: Vec<Decl>) -> Result<Vec<LatePart>, AllocError>
    ensures decls { IfOk result (λ parts. map (λ part. part.decl) parts.items ≡ objects.items) }
    ensures silent { IfOk result (λ parts. All (λ part. part.acts.items ≡ []) parts.items) }
{
    let mut parts = Vec::with_capacity(alloc, objects.len())?;
    for decl in objects {
        let acts = Vec::new(alloc);
        parts.push(LatePart { decl, acts })?;
    }
    Ok(parts)
}

/// Keeps what one line more says of an object.
fn keep(part: &mut LatePart, act: LateAct) -> Result<(), AllocError>
    ensures decl { part.new.decl ≡ part.old.decl }
    ensures acts { OnOk result (part.new.acts.items ≡ part.old.acts.items ++ act ∷ []) }
{
    part.acts.push(act)?;
    Ok(())
}
