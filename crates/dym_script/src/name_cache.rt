//! The name at the front of a line, and where the place of a name is looked for first.
ghost use Rattle.std.specs.Prelude.{◌≡◌, ◌≤◌, ◌++◌, IfSome, Decides};

/// How many keys there are.
const KEYS: usize = 16_384;

/// A multiple of a name's bytes has a key in its highest bits, which differ even where the names differ little. By this factor the
/// names that are a letter or `ob_` and a number below 256 all have keys of their own; of those with a number below 4,096 one in 23
/// has the key of another.
const SPREAD: u64 = 0xc457_8d56_b89c_784d;

/// Eight spaces, as the bytes of a word.
const SPACES: u64 = 0x2020_2020_2020_2020;

/// The lowest bit of each of eight bytes.
const ONES: u64 = 0x0101_0101_0101_0101;

/// The highest bit of each of eight bytes.
const HIGHEST: u64 = 0x8080_8080_8080_8080;

/// For each key the place of the object that was declared last of those whose names have it. A place is a guess: who asks for
/// it compares the name, so that nothing rests on the keys but time.
#[derive(Drop)]
pub struct NameCache {
    places: [u32; KEYS],
}

impl NameCache {
    /// No place is known yet.
    pub fn new() -> NameCache {
        NameCache { places: [0; KEYS] }
    }

    /// The place where the object of a name with this key may be.
    #[inline(always)]
    pub fn place(&self, key: u32) -> u32 {
        self.places[key as usize % KEYS]
    }

    /// Keeps the place of the object of a name with this key.
    pub fn keep(&mut self, key: u32, place: u32) {
        self.places[key as usize % KEYS] = place;
    }
}

/// The key of a name.
pub fn key_of(name: &[u8]) -> u32 {
    let mut word = 0u64;
    for byte in name.iter().rev() {
        word = word.rotate_left(8) ^ u64::from(*byte);
    }
    key_of_word(word)
}

/// The key of a name of at most eight bytes, which are those of a word, the first of them lowest. The other bytes are 0.
#[inline(always)]
pub fn key_of_word(word: u64) -> u32 {
    (word.wrapping_mul(SPREAD) >> 50) as u32
}

/// Whether two names are the same. They are short, so that byte by byte they are compared sooner than as slices.
#[inline(always)]
pub fn is_same_name(a: &[u8], b: &[u8]) -> bool
    ensures { Decides result (a.now ≡ b.now) }
{
    a.len() == b.len() && a.iter().zip(b).all(|(x, y)| x == y)
}

/// A name at the front of a text, the key that it has among those that are near, and the text after it.
#[derive(Drop)]
pub struct FrontName<'a> {
    pub name: &'a [u8],
    pub key: u32,
    pub words: &'a [u8],
}

/// What stands in the first line of a text before its first space, or before its end, and the text from there on.
#[inline(always)]
pub fn front_name(text: &[u8]) -> Option<FrontName<'_>>
    ensures { IfSome result (λ named. text.now ≡ named.name.now ++ named.words.now) }
{
    match short_name(text) {
        Some(named) => Some(named),
        None => any_name(text),
    }
}

/// What stands before the first space of a text, and the text from there on, where that space seems to be one of the first eight
/// bytes.
#[inline(always)]
fn short_name(text: &[u8]) -> Option<FrontName<'_>>
    ensures { IfSome result (λ named. text.now ≡ named.name.now ++ named.words.now) }
{
    let word = u64::from_le_bytes(*text.first_chunk::<8>()?);
    let end = space_at(word);
    if end == 8 {
        return None;
    }
    let (name, words) = text.split_at(end);
    let key = key_of_word(word & ((1 << (8 * end)) - 1));
    Some(FrontName { name, key, words })
}

/// Where the first space among eight bytes seems to stand. A byte that is 0 once the space was taken from it is the lowest whose
/// highest bit a smaller number sets.
#[inline(always)]
fn space_at(word: u64) -> usize
    ensures { result ≤ 8 }
{
    let others = word ^ SPACES;
    let spaces = others.wrapping_sub(ONES) & !others & HIGHEST;
    spaces.trailing_zeros() as usize / 8
}

/// What stands in the first line of a text before its first space, or before its end, however long, and the text from there on.
#[inline(never)]
fn any_name(text: &[u8]) -> Option<FrontName<'_>>
    ensures { IfSome result (λ named. text.now ≡ named.name.now ++ named.words.now) }
{
    let end = text
        .iter()
        .position(|byte| *byte == b' ' || *byte == b'\n')?;
    let (name, words) = text.split_at(end);
    let key = key_of(name);
    Some(FrontName { name, key, words })
}
