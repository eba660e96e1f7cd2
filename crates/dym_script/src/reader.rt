//! Reads a script line by line.
ghost use Rattle.std.specs.Prelude.{◌≡◌, ◌+◌, ◌<◌, ◌≤◌, [], ◌∷◌, ◌++◌, true, length, OnOk, IfOk, IfSome};

use crate::line_fail::LineFail;
use crate::line_tests::{is_printable_line, is_version, unknown};
use crate::lines::{next_line, next_word, two_words};
use crate::name_cache::{FrontName, NameCache, front_name, is_same_name, key_of};
use crate::operands::number_of;
use crate::quick::quick_rest;
use crate::script::Decl;
use crate::verb::Verb;
use dym_base::limits::{MOST_LINE_BYTES, MOST_OBJECTS, MOST_QUOTA};
use dym_base::{BadKind, Name, Version};
use dym_commands::{HexBytes, Request};
use std::alloc::{AllocError, Global};
use std::collections::HashMap;

/// What a line asks of the object in a place.
#[derive(Drop)]
pub struct Ask<'a> {
    pub object: u32,
    pub asked: Request<HexBytes<'a>>,
}

/// What the first line of a text asks, and the text after the line.
#[derive(Drop)]
pub struct Next<'a> {
    pub ask: Option<Ask<'a>>,
    pub rest: &'a [u8],
}

/// What was read so far, but for the lines that ask something.
#[derive(Drop)]
pub struct Reader {
    /// Whether a line was read that wasn't skipped.
    pub begun: bool,
    pub version: Version,
    pub objects: Vec<Decl>,
    /// The place of each declared name.
    pub names: HashMap<Vec<u8>, u32>,
    /// Where a name is looked for before it is hashed.
    pub cache: NameCache,
}

impl Reader {
    ghost use Rattle.dym_script.specs.Scripts.{start, read_lines, read_line, read_words, say, declare, object_of};
    ghost use Rattle.dym_base.specs.Names.{is_name};
    ghost use Rattle.dym_base.specs.Lines.{lines_of};
    ghost use Rattle.dym_script.specs.Lines.{words_of};
    ghost use Rattle.dym_script.specs.Readers.{IsValidReader, reading_of, IsWithin, GivesReading, GivesSaid, Declares, Finds, IsNext, GivesNext, Grows};

    /// A reader that has read nothing.
    pub fn new(alloc: Global) -> Reader
        ensures kept { IsValidReader result }
        ensures reading_of { reading_of result [] ≡ start }
    {
        Reader {
            begun: false,
            version: Version::One,
            objects: Vec::new(alloc),
            names: HashMap::new(alloc),
            cache: NameCache::new(),
        }
    }

    /// Reads the first line of a text, which has this number, and hands on what it asks.
    #[inline(never)]
    pub fn read_exactly<'a>(
        &mut self,
        alloc: Global,
        number: u32,
        text: &'a [u8],
    ) -> Result<Next<'a>, LineFail>
        requires kept { IsValidReader self.old }
        requires some { 0 < length text.now }
        ensures kept { OnOk result (IsValidReader self.new) }
        ensures grows { OnOk result (Grows self.old.objects.items self.new.objects.items) }
        ensures within { IfOk result (λ next. IsWithin self.new next.ask) }
        ensures shorter { IfOk result (λ next. length next.rest.now < length text.now) }
        ensures read { GivesNext (reading_of self.old)
            (reading_of self.new) number text.now result }
    {
        let Some((line, rest)) = next_line(text) else {
            unreachable!();
        };
        let ask = self.read_line(alloc, number, line)?;
        Ok(Next { ask, rest })
    }

    /// The object that the first line of a text asks something of, where it is in the usual spelling, and the text after the
    /// line. What is asked goes into a place. Such a line has no byte that a line may not have.
    #[inline(always)]
    pub fn next_quickly<'a>(
        &self,
        text: &'a [u8],
        asked: &mut Request<HexBytes<'a>>,
    ) -> Option<(u32, &'a [u8])>
        requires kept { IsValidReader self.now }
        ensures { IfSome result (λ next.
            IsNext self.now text.now (record { object = next.0; asked = asked.new }) next.1.now) }
    {
        let FrontName { name, key, words } = front_name(text)?;
        let object = self.place_in_cache(key, name)?;
        let rest = quick_rest(words, asked)?;
        if text.len() - rest.len() > MOST_LINE_BYTES + 1 {
            return None;
        }
        Some((object, rest))
    }

    /// Reads the line of this number, and hands on what it asks.
    #[tactic(auto, unfolding(crate::specs::Scripts::read_line))]
    pub fn read_line<'a>(
        &mut self,
        alloc: Global,
        number: u32,
        line: &'a [u8],
    ) -> Result<Option<Ask<'a>>, LineFail>
        requires kept { IsValidReader self.old }
        ensures kept { OnOk result (IsValidReader self.new) }
        ensures grows { OnOk result (Grows self.old.objects.items self.new.objects.items) }
        ensures within { IfOk result (IsWithin self.new) }
        ensures read { GivesReading (reading_of self.new) result
            (λ lines. read_line (reading_of self.old lines) number line.now) }
    {
        if line.len() > MOST_LINE_BYTES {
            return Err(LineFail::Bad(BadKind::LongLine));
        }
        if !is_printable_line(line) {
            return Err(LineFail::Bad(BadKind::Bytes));
        }
        match next_word(line) {
            Some((first, words)) => self.read_words(alloc, number, first, words),
            None => Ok(None),
        }
    }

    /// Reads a line by its first word and the text of the others.
    fn read_words<'a>(
        &mut self,
        alloc: Global,
        number: u32,
        first: &[u8],
        words: &'a [u8],
    ) -> Result<Option<Ask<'a>>, LineFail>
        requires { IsValidReader self.old }
        ensures kept { OnOk result (IsValidReader self.new) }
        ensures grows { OnOk result (Grows self.old.objects.items self.new.objects.items) }
        ensures within { IfOk result (IsWithin self.new) }
        ensures read { GivesReading (reading_of self.new) result
            (λ lines. read_words (reading_of self.old lines) number
            (first.now ∷ words_of words.now)) }
    {
        if first.first() == Some(&b'#') {
            return Ok(None);
        }
        if !self.begun && is_version(first, words) {
            self.begun = true;
            self.version = Version::Two;
            return Ok(None);
        }
        let ask = self.say(alloc, number, first, words)?;
        self.begun = true;
        Ok(ask)
    }

    /// Reads a line that isn't skipped and isn't the version line.
    fn say<'a>(
        &mut self,
        alloc: Global,
        number: u32,
        first: &[u8],
        words: &'a [u8],
    ) -> Result<Option<Ask<'a>>, LineFail>
        requires { IsValidReader self.old }
        ensures kept { OnOk result (IsValidReader self.new) }
        ensures grows { OnOk result (Grows self.old.objects.items self.new.objects.items) }
        ensures within { IfOk result (IsWithin self.new) }
        ensures read { GivesSaid (λ lines. (reading_of self.new lines).said) result
            (λ lines. say (reading_of self.old lines).said number first.now (words_of words.now)) }
    {
        if first == b"object".as_slice() {
            let (name, quota) = two_words(words)?;
            let quota = number_of(quota)?;
            self.declare(alloc, number, name, quota)?;
            Ok(None)
        } else {
            let (word, operands) = next_word(words).ok_or(BadKind::Command)?;
            let verb = Verb::of(word).ok_or(BadKind::Command)?;
            let asked = verb.asked(operands)?;
            let object = self.asked_of(first)?;
            Ok(Some(Ask { object, asked }))
        }
    }

    /// Reads a declaration.
    pub fn declare(
        &mut self,
        alloc: Global,
        number: u32,
        name: &[u8],
        quota: u64,
    ) -> Result<(), LineFail>
        requires { IsValidReader self.old }
        ensures kept { OnOk result (IsValidReader self.new) }
        ensures grows { OnOk result (Grows self.old.objects.items self.new.objects.items) }
        ensures more { OnOk result (length self.new.objects.items
            ≡ length self.old.objects.items + 1) }
        ensures version { self.new.version ≡ self.old.version }
        ensures read { Declares (λ lines. (reading_of self.new lines).said) result
            (λ lines. declare (reading_of self.old lines).said number name.now (Some quota)) }
    {
        let declared = Name::new(name).ok_or(BadKind::Name)?;
        if self.place_of(name).is_some() {
            return Err(LineFail::Bad(BadKind::Twice));
        }
        if quota < 1 || quota > u64::from(MOST_QUOTA) {
            return Err(LineFail::Bad(BadKind::QuotaRange));
        }
        if self.objects.len() == MOST_OBJECTS {
            return Err(LineFail::Bad(BadKind::Many));
        }
        let decl = Decl {
            name: declared,
            quota: quota as u32,
            line: number,
        };
        self.add(alloc, decl)?;
        Ok(())
    }

    /// Adds a declaration of a new name.
    fn add(&mut self, alloc: Global, decl: Decl) -> Result<(), AllocError>
        requires kept { IsValidReader self.old }
        requires fresh { object_of self.old.objects.items decl.name ≡ None }
        requires room { length self.old.objects.items < MOST_OBJECTS }
        requires name { is_name decl.name ≡ true }
        requires least { 1 ≤ decl.quota }
        requires most { decl.quota ≤ MOST_QUOTA }
        ensures kept { OnOk result (IsValidReader self.new) }
        ensures version { self.new.version ≡ self.old.version }
        ensures added { OnOk result (self.new.objects.items ≡ self.old.objects.items ++ decl ∷ []) }
    {
        let key = Vec::from_slice(alloc, decl.name.bytes())?;
        let place = self.objects.len() as u32;
        self.cache.keep(key_of(decl.name.bytes()), place);
        self.names.insert(key, place)?;
        self.objects.push(decl)?;
        Ok(())
    }

    /// The place of the object that a command names.
    pub fn asked_of(&self, name: &[u8]) -> Result<u32, LineFail>
        requires { IsValidReader self.now }
        ensures within { IfOk result (λ object. object < length self.now.objects.items) }
        ensures found { Finds result self.now.objects.items name.now }
    {
        match self.place_of(name) {
            Some(object) => Ok(object),
            None => Err(LineFail::Bad(unknown(name))),
        }
    }

    /// The place of the object of this name.
    fn place_of(&self, name: &[u8]) -> Option<u32>
        requires { IsValidReader self.now }
        ensures value { result ≡ object_of self.now.objects.items name.now }
        ensures within { IfSome result (λ place. place < length self.now.objects.items) }
        ensures name { IfSome result (λ _. is_name name.now ≡ true) }
    {
        self.place_in_cache(key_of(name), name)
    }

    /// The place of the object of this name, whose key is given.
    #[inline(never)]
    fn place_in_cache(&self, key: u32, name: &[u8]) -> Option<u32>
        requires { IsValidReader self.now }
        ensures value { result ≡ object_of self.now.objects.items name.now }
        ensures within { IfSome result (λ place. place < length self.now.objects.items) }
        ensures name { IfSome result (λ _. is_name name.now ≡ true) }
    {
        let cache = self.cache.place(key);
        if self.is_named(cache, name) {
            return Some(cache);
        }
        self.names.get(name).copied()
    }

    /// Whether the object in a place has this name.
    fn is_named(&self, place: u32, name: &[u8]) -> bool
        requires { IsValidReader self.now }
        ensures { result ≡ true → object_of self.now.objects.items name.now ≡ Some place }
    {
        let place = place as usize;
        if place >= self.objects.len() {
            return false;
        }
        let decl = &self.objects[place];
        is_same_name(decl.name.bytes(), name)
    }
}
