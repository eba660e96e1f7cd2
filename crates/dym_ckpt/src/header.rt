//! The header of a file.
ghost use Rattle.std.specs.Prelude.{◌≡◌, ℕ, ◌^◌, ◌<◌, true, false, List, ◌∷◌, ◌++◌, length, codes, IsTrue, IfSome, IsSomeAnd};
ghost use Rattle.std.specs.Int.{w32, to_le_bytes};
ghost use Rattle.dym_base.specs.Files.{FileHead, IsFileHead, head_bytes, version_number};
ghost use Rattle.dym_base.specs.declared.command.Version.{Version};
ghost use Rattle.dym_base.specs.Names.{is_name};
ghost use Rattle.dym_ckpt.specs.Heads.{header_meaning, AreWithin};

use dym_base::limits::{MOST_DEPTH, MOST_KEPT_LOGS, MOST_QUOTA, MOST_RECORDS};
use dym_base::{Name, Version};

/// What each file begins with.
pub(crate) const MAGIC: &[u8; 8] = b"DYMCKPT1";

/// What a file says before its records: the object's name, quota and version, how many records follow, and the depth of the
/// oldest kept log.
#[derive(Drop)]
pub(crate) struct Header {
    pub(crate) name: Name,
    pub(crate) quota: u32,
    pub(crate) version: Version,
    pub(crate) count: u32,
    pub(crate) depth: u8,
}

/// The header that the bytes begin with and what is behind it, and None where they begin with no good one.
pub(crate) fn header_in(bytes: &[u8]) -> Option<(Header, &[u8])>
    ensures good { IfSome result (λ read. IsFileHead (header_meaning read.0)) }
    ensures is { IfSome result (λ read. bytes.now ≡ head_bytes (header_meaning read.0) ++ read.1.now) }
    ensures only { (head : FileHead) (left : List ℕ) → IsFileHead head
        → bytes.now ≡ head_bytes head ++ left
        → IsSomeAnd result (λ r. (header_meaning r.0 ≡ head) × (r.1.now ≡ left)) }
{
    let rest = behind_magic(bytes)?;
    let (name, rest) = name_in(rest)?;
    let (quota, rest) = number_in(rest)?;
    let (version, rest) = version_in(rest)?;
    let (count, rest) = number_in(rest)?;
    let (depth, rest) = rest.split_first()?;
    if !are_within(quota, count, *depth) {
        return None;
    }
    let head = Header {
        name,
        quota,
        version,
        count,
        depth: *depth,
    };
    Some((head, rest))
}

/// What is behind the bytes that each file begins with.
fn behind_magic(bytes: &[u8]) -> Option<&[u8]>
    ensures is { IfSome result (λ rest. bytes.now ≡ codes "DYMCKPT1" ++ rest.now) }
    ensures only { (left : List ℕ) → bytes.now ≡ codes "DYMCKPT1" ++ left
        → IsSomeAnd result (λ rest. rest.now ≡ left) }
{
    bytes.strip_prefix(MAGIC.as_slice())
}

/// The name that stands behind its length.
fn name_in(bytes: &[u8]) -> Option<(Name, &[u8])>
    ensures is { IfSome result (λ read. bytes.now ≡ length read.0 ∷ read.0 ++ read.1.now) }
    ensures good { IfSome result (λ read. IsTrue (is_name read.0)) }
    ensures only { (name left : List ℕ) → IsTrue (is_name name)
        → bytes.now ≡ length name ∷ name ++ left
        → IsSomeAnd result (λ r. (r.0 ≡ name) × (r.1.now ≡ left)) }
{
    let (len, rest) = bytes.split_first()?;
    let (name, rest) = rest.split_at_checked(usize::from(*len))?;
    Some((Name::new(name)?, rest))
}

/// The version that a byte tells.
fn version_in(bytes: &[u8]) -> Option<(Version, &[u8])>
    ensures is { IfSome result (λ read. bytes.now ≡ version_number read.0 ∷ read.1.now) }
    ensures only { (version : Version) (left : List ℕ) → bytes.now ≡ version_number version ∷ left
        → IsSomeAnd result (λ r. (r.0 ≡ version) × (r.1.now ≡ left)) }
{
    match bytes.split_first()? {
        (1, rest) => Some((Version::One, rest)),
        (2, rest) => Some((Version::Two, rest)),
        _ => None,
    }
}

/// The number that the bytes begin with, its little end first.
pub(crate) fn number_in(bytes: &[u8]) -> Option<(u32, &[u8])>
    ensures is { IfSome result (λ read. bytes.now ≡ to_le_bytes w32 read.0 ++ read.1.now) }
    ensures only { (n : ℕ) (left : List ℕ) → n < 2 ^ 32 → bytes.now ≡ to_le_bytes w32 n ++ left
        → IsSomeAnd result (λ r. (r.0 ≡ n) × (r.1.now ≡ left)) }
{
    let (four, rest) = bytes.split_first_chunk::<4>()?;
    Some((u32::from_le_bytes(*four), rest))
}

/// Whether a quota, a number of records and the depth of the oldest kept log are such as a file can have.
fn are_within(quota: u32, count: u32, depth: u8) -> bool
    ensures within { result ≡ true → AreWithin quota count depth }
    ensures outside { result ≡ false → AreWithin quota count depth → ⊥ }
{
    let depth = u32::from(depth);
    let quota_is_good = 1 <= quota && quota <= MOST_QUOTA;
    let records_are_few = count <= MOST_RECORDS
        && depth <= u32::from(MOST_DEPTH)
        && count <= depth + MOST_KEPT_LOGS;
    let depth_is_below = if count == 0 {
        depth == 0
    } else {
        depth < count
    };
    quota_is_good && records_are_few && depth_is_below
}
