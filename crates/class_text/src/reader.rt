//! The lines after the head, read one after another.
ghost use Rattle.std.specs.Prelude.{◌≡◌, ◌+◌, ◌<◌, ◌≤◌, ◌^◌, true, false, [], ◌∷◌, length, None, IfOk, OnOk, slice_index};
ghost use Rattle.ntfe_model.specs.RunText.{number_line};
ghost use Rattle.ntfe_model.specs.Keys.{IsAfter};
ghost use Rattle.ntfe_model.specs.Earlier.{Reading, IsAllowed, IsSimplexLine, goes_on, ends_block, with_feed};
ghost use Rattle.ntfe_model.specs.Earlier.Place.{class_or_end, heights_of, star_of, simplices_of};
ghost use Rattle.class_text.specs.Earlier.{kept_of};
ghost use Rattle.class_text.specs.Forms.{layout_of};
ghost use Rattle.class_text.specs.NumberLines.{has_space, IsRisingFour};
ghost use Rattle.class_text.specs.Readers.{reading_of, place_of, last_of};

use crate::earlier::Earlier;
use crate::form::TextForm;
use crate::number_lines::{is_heights_line, read_numbers};
use ntfe_model::{Choice, List};
use std::alloc::{AllocError, Global};
use std::mem;

/// The item numbers of a two-face are below it.
const ITEMS: u64 = 1_048_576;

/// More than any number that is read.
const NUMBERS: u64 = 4_294_967_296;

/// What may come next: a class line or a last line, the heights, the number of simplices, so many simplices, or nothing.
#[derive(Clone, Copy, Drop)]
pub enum Place {
    ClassOrEnd,
    Heights,
    Star,
    Simplices { left: u32 },
    Nothing,
}

/// A place behind so many bytes, with what is kept up to the last whole block: so many bytes and blocks, and the last choice where there is a block.
#[derive(Drop)]
pub struct Reader {
    pub place: Place,
    pub read: u64,
    pub kept: u64,
    pub count: u64,
    pub last: Vec<u32>,
    pub current: Vec<u32>,
    pub numbers: Vec<u32>,
}

/// Whether four numbers rise from 1 on.
fn is_rising(members: &[u32]) -> bool
    requires { length members.now ≡ 4 }
    ensures when_true { result ≡ true → IsRisingFour members.now }
    ensures when_false { result ≡ false → ¬ (IsRisingFour members.now) }
{
    0 < members[0] && members[0] < members[1] && members[1] < members[2] && members[2] < members[3]
}

/// Whether a line is one of a word and this number.
fn is_count_line(
    line: &[u8],
    word: &[u8],
    count: u64,
    numbers: &mut Vec<u32>,
) -> Result<bool, AllocError>
    requires small { count < 2 ^ 32 }
    requires word { has_space word.now ≡ false }
    ensures when_true { IfOk result (λ is. is ≡ true → with_feed line.now ≡ number_line word.now (count ∷ [])) }
    ensures when_false { IfOk result (λ is. is ≡ false → ¬ (with_feed line.now ≡ number_line word.now (count ∷ []))) }
{
    if !read_numbers(line, word, 1, NUMBERS, numbers)? {
        return Ok(false);
    }
    Ok(u64::from(numbers[0]) == count)
}

/// Whether a line is one of a simplex: four rising point numbers.
fn is_simplex_line(form: &TextForm, line: &[u8], numbers: &mut Vec<u32>) -> Result<bool, AllocError>
    ensures when_true { IfOk result (λ is. is ≡ true → IsSimplexLine (layout_of form.now) line.now) }
    ensures when_false { IfOk result (λ is. is ≡ false → ¬ (IsSimplexLine (layout_of form.now) line.now)) }
{
    let limit = u64::from(form.points) + 1;
    if !read_numbers(line, b"simplex", 4, limit, numbers)? {
        return Ok(false);
    }
    Ok(is_rising(numbers))
}

impl Reader {
    /// Behind the whole head.
    pub fn new(alloc: Global, head: u64) -> Reader
        ensures { reading_of result ≡ record { place = class_or_end; read = head; kept = record { bytes = head; blocks = 0; last = None } } }
    {
        Reader {
            place: Place::ClassOrEnd,
            read: head,
            kept: head,
            count: 0,
            last: Vec::new(alloc),
            current: Vec::new(alloc),
            numbers: Vec::new(alloc),
        }
    }

    /// Goes on behind a line of so many bytes, with which no block ends.
    fn go_on(&mut self, size: u64, place: Place)
        requires { self.old.read + size < 2 ^ 64 }
        ensures reading { reading_of self.new ≡ goes_on (reading_of self.old) size (place_of place self.old.current.items) }
        ensures count { self.new.count ≡ self.old.count }
    {
        self.read += size;
        self.place = place;
    }

    /// Ends a block with a line of so many bytes.
    fn end_block(&mut self, size: u64)
        requires room { self.old.read + size < 2 ^ 64 }
        requires few { self.old.count < 2 ^ 32 }
        ensures reading { reading_of self.new ≡ ends_block (reading_of self.old) size self.old.current.items }
        ensures count { self.new.count ≡ self.old.count + 1 }
    {
        self.read += size;
        self.place = Place::ClassOrEnd;
        self.kept = self.read;
        self.count += 1;
        mem::swap(&mut self.last, &mut self.current);
    }

    /// Whether the choice that was read comes after the last kept one.
    fn is_above(&self) -> bool
        ensures when_true { result ≡ true → IsAfter (last_of self.now.count self.now.last.items) self.now.current.items }
        ensures when_false { result ≡ false → ¬ (IsAfter (last_of self.now.count self.now.last.items) self.now.current.items) }
    {
        self.count == 0 || self.last.as_slice().cmp(self.current.as_slice()).is_lt()
    }

    /// Reads a class line or a last line.
    fn accept_class(&mut self, form: &TextForm, line: &[u8]) -> Result<bool, AllocError>
        requires room { self.old.read + length line.now + 1 < 2 ^ 64 }
        requires few { self.old.count < 2 ^ 32 }
        ensures allowed { IfOk result (λ is. is ≡ true → IsAllowed (layout_of form.now) (reading_of self.old) class_or_end line.now (reading_of self.new)) }
        ensures refused { IfOk result (λ is. is ≡ false → (t : Reading) → ¬ (IsAllowed (layout_of form.now) (reading_of self.old) class_or_end line.now t)) }
        ensures count { OnOk result (self.new.count ≤ self.old.count + 1) }
    {
        let size = line.len() as u64 + 1;
        if is_count_line(line, b"end", self.count, &mut self.numbers)?
            || is_count_line(line, b"limit", self.count, &mut self.numbers)?
        {
            self.go_on(size, Place::Nothing);
            return Ok(true);
        }
        if !read_numbers(line, b"class", form.faces, ITEMS, &mut self.current)?
            || !self.is_above()
        {
            return Ok(false);
        }
        self.go_on(size, Place::Heights);
        Ok(true)
    }

    /// Reads the heights of a choice.
    fn accept_heights(&mut self, form: &TextForm, line: &[u8]) -> bool
        requires room { self.old.read + length line.now + 1 < 2 ^ 64 }
        requires few { self.old.count < 2 ^ 32 }
        ensures allowed { result ≡ true → IsAllowed (layout_of form.now) (reading_of self.old) (heights_of self.old.current.items) line.now (reading_of self.new) }
        ensures refused { result ≡ false → (t : Reading) → ¬ (IsAllowed (layout_of form.now) (reading_of self.old) (heights_of self.old.current.items) line.now t) }
        ensures count { self.new.count ≤ self.old.count + 1 }
    {
        if !is_heights_line(form, line) {
            return false;
        }
        let size = line.len() as u64 + 1;
        if form.stars {
            self.go_on(size, Place::Star);
        } else {
            self.end_block(size);
        }
        true
    }

    /// Reads the number of a star's simplices.
    fn accept_star(&mut self, form: &TextForm, line: &[u8]) -> Result<bool, AllocError>
        requires room { self.old.read + length line.now + 1 < 2 ^ 64 }
        requires few { self.old.count < 2 ^ 32 }
        ensures allowed { IfOk result (λ is. is ≡ true → IsAllowed (layout_of form.now) (reading_of self.old) (star_of self.old.current.items) line.now (reading_of self.new)) }
        ensures refused { IfOk result (λ is. is ≡ false → (t : Reading) → ¬ (IsAllowed (layout_of form.now) (reading_of self.old) (star_of self.old.current.items) line.now t)) }
        ensures count { OnOk result (self.new.count ≤ self.old.count + 1) }
    {
        if !read_numbers(line, b"star", 1, NUMBERS, &mut self.numbers)? {
            return Ok(false);
        }
        let left = self.numbers[0];
        if left == 0 {
            return Ok(false);
        }
        self.go_on(line.len() as u64 + 1, Place::Simplices { left });
        Ok(true)
    }

    /// Reads one of so many simplices.
    fn accept_simplex(
        &mut self,
        form: &TextForm,
        line: &[u8],
        left: u32,
    ) -> Result<bool, AllocError>
        requires room { self.old.read + length line.now + 1 < 2 ^ 64 }
        requires few { self.old.count < 2 ^ 32 }
        ensures allowed { IfOk result (λ is. is ≡ true → IsAllowed (layout_of form.now) (reading_of self.old) (simplices_of self.old.current.items left) line.now (reading_of self.new)) }
        ensures refused { IfOk result (λ is. is ≡ false → (t : Reading) → ¬ (IsAllowed (layout_of form.now) (reading_of self.old) (simplices_of self.old.current.items left) line.now t)) }
        ensures count { OnOk result (self.new.count ≤ self.old.count + 1) }
    {
        if left == 0 || !is_simplex_line(form, line, &mut self.numbers)? {
            return Ok(false);
        }
        let size = line.len() as u64 + 1;
        if left == 1 {
            self.end_block(size);
        } else {
            self.go_on(size, Place::Simplices { left: left - 1 });
        }
        Ok(true)
    }

    /// Reads a line, where it is allowed in its place.
    pub fn accept(&mut self, form: &TextForm, line: &[u8]) -> Result<bool, AllocError>
        requires room { self.old.read + length line.now + 1 < 2 ^ 64 }
        requires few { self.old.count < 2 ^ 32 }
        ensures allowed { IfOk result (λ is. is ≡ true → IsAllowed (layout_of form.now) (reading_of self.old) (reading_of self.old).place line.now (reading_of self.new)) }
        ensures refused { IfOk result (λ is. is ≡ false → (t : Reading) → ¬ (IsAllowed (layout_of form.now) (reading_of self.old) (reading_of self.old).place line.now t)) }
        ensures count { OnOk result (self.new.count ≤ self.old.count + 1) }
    {
        match self.place {
            Place::ClassOrEnd => self.accept_class(form, line),
            Place::Heights => Ok(self.accept_heights(form, line)),
            Place::Star => self.accept_star(form, line),
            Place::Simplices { left } => self.accept_simplex(form, line, left),
            Place::Nothing => Ok(false),
        }
    }

    /// What is kept.
    pub fn into_earlier(self) -> Earlier
        ensures { kept_of result ≡ (reading_of self).kept }
    {
        let Reader {
            kept,
            count,
            last,
            ..
        } = self;
        let last = if count == 0 {
            None
        } else {
            Some(Choice(List::from_vec(last)))
        };
        Earlier { kept, last, count }
    }
}
