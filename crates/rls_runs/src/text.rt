//! Texts.
//! Why: CHOICES.md, 194, 203.

ghost use Rattle.std.specs.Prelude.{◌≡◌, ◌<◌, ◌≤◌, ◌+◌, ◌++◌, ◌∷◌, [], IsTrue, IfOk, OnOk, OnErr, length, take, drop, slice_index, encode_utf8_all};
ghost use Rattle.std.specs.VecDeque.{deque_len, deque_capacity};
ghost use Rattle.std.specs.List.{All};
ghost use Rattle.std.specs.Char.{IsScalar};
ghost use Rattle.std.specs.String.{string_bytes};
ghost use Rattle.rls_runs.specs.Texts.{characters_of};

use std::alloc::{AllocError, Global};
use std::collections::VecDeque;
use std::marker::Model;
use std::{mem, slice};

/// A list of characters, which grows at both ends in constant amortised time. A character that is put into an empty text, or is the
/// only one that is copied or read, stands in the text itself and takes no other memory.
#[derive(Drop)]
pub struct Text {
    alloc: Global,
    chars: Characters,
}

// How the characters of a text stand.
#[derive(Drop)]
enum Characters {
    // The only one. It takes no memory.
    One(char),
    // Nothing has been put before them or taken from their front, so that others are copied behind them as one piece of memory.
    List(Vec<char>),
    // Both ends are open.
    Ring(VecDeque<char>),
}

impl Model for Text {
    ghost use Rattle.std.specs.Prelude.{List, ℕ};

    ghost Value = { List ℕ };

    ghost use Rattle.std.specs.List.{All};
    ghost use Rattle.std.specs.Char.{IsScalar};
    ghost use Rattle.rls_runs.specs.Texts.{characters_of};

    ghost view = { λ a. characters_of a.chars };

    ghost invariant = { λ a. All IsScalar (characters_of a.chars) };
}

impl Characters {
    // Takes the characters as a ring, whose place the caller fills again.
    fn take_ring(&mut self, alloc: Global) -> Result<VecDeque<char>, AllocError>
        ensures items { IfOk result (λ ring. ring.items ≡ characters_of self.old) }
        ensures err { OnErr result (self.new ≡ self.old) }
    {
        match self {
            Characters::One(c) => Ok(VecDeque::from_vec(list_of(alloc, *c, 1)?)),
            Characters::List(list) => {
                let list = mem::replace(list, Vec::new(alloc));
                Ok(VecDeque::from_vec(list))
            }
            Characters::Ring(ring) => Ok(mem::replace(ring, VecDeque::new(alloc))),
        }
    }
}

impl Text {
    /// The empty text. It takes no memory.
    pub fn new(alloc: Global) -> Text
        ensures empty { result ≡ [] }
    {
        Text {
            alloc,
            chars: Characters::List(Vec::new(alloc)),
        }
    }

    /// The text of these characters. It takes no memory.
    pub fn from_vec(chars: Vec<char>) -> Text
        requires scalars { All IsScalar chars.items }
        ensures chars { result ≡ chars.items }
    {
        let alloc = *chars.allocator();
        Text {
            alloc,
            chars: Characters::List(chars),
        }
    }

    /// The characters of a text in UTF-8.
    #[tactic(auto, using(crate::proofs::Texts::ascii_encodes, crate::proofs::Texts::scalars_of_utf8, crate::proofs::Texts::all_ascii))]
    pub fn from_str(alloc: Global, s: &str) -> Result<Text, AllocError>
        ensures utf8 { IfOk result (λ text. encode_utf8_all text ≡ s.now) }
    {
        let mut rest = s.chars();
        let Some(first) = rest.next() else {
            return Ok(Text::new(alloc));
        };
        if rest.as_str().is_empty() {
            return Ok(Text::of_one(alloc, first));
        }
        if s.is_ascii() {
            return Ok(Text::from_vec(ascii_chars(alloc, s.as_bytes())?));
        }
        Ok(Text::from_vec(chars_of(alloc, s)?))
    }

    /// The empty text, with room for the characters of so many bytes in UTF-8. It takes no memory if these may be one character.
    pub fn for_utf8(alloc: Global, bytes: usize) -> Result<Text, AllocError>
        ensures empty { IfOk result (λ text. text ≡ []) }
    {
        if bytes <= 4 {
            return Ok(Text::new(alloc));
        }
        Ok(Text::from_vec(Vec::with_capacity(alloc, bytes)?))
    }

    // The text of one character. It takes no memory.
    fn of_one(alloc: Global, c: char) -> Text
        requires scalar { IsScalar c }
        ensures one { result ≡ c ∷ [] }
    {
        Text {
            alloc,
            chars: Characters::One(c),
        }
    }

    /// Puts a character after the last one.
    pub fn push(&mut self, c: char) -> Result<(), AllocError>
        ensures ok { OnOk result (self.new ≡ self.old ++ c ∷ []) }
        ensures err { OnErr result (self.new ≡ self.old) }
    {
        match &mut self.chars {
            Characters::One(first) => {
                let mut list = list_of(self.alloc, *first, 1)?;
                list.push(c)?;
                self.chars = Characters::List(list);
            }
            Characters::List(list) => {
                if is_unused(list) {
                    self.chars = Characters::One(c);
                    return Ok(());
                }
                list.push(c)?;
            }
            Characters::Ring(ring) => ring.push_back(c)?,
        }
        Ok(())
    }

    /// Puts a character before the first one.
    pub fn push_front(&mut self, c: char) -> Result<(), AllocError>
        ensures ok { OnOk result (self.new ≡ c ∷ self.old) }
        ensures err { OnErr result (self.new ≡ self.old) }
    {
        match &mut self.chars {
            Characters::List(list) if is_unused(list) => self.chars = Characters::One(c),
            Characters::Ring(ring) => ring.push_front(c)?,
            chars => {
                let mut ring = chars.take_ring(self.alloc)?;
                let done = ring.push_front(c);
                self.chars = Characters::Ring(ring);
                done?;
            }
        }
        Ok(())
    }

    /// Puts a text after the last character. It costs the length of that text. After an error the
    /// text is as it was.
    pub fn append(&mut self, more: &Text) -> Result<(), AllocError>
        ensures ok { OnOk result (self.new ≡ self.old ++ more.now) }
        ensures err { OnErr result (self.new ≡ self.old) }
    {
        if let Characters::One(c) = &more.chars {
            return self.push(*c);
        }
        let (front, back) = more.as_slices();
        match &mut self.chars {
            Characters::One(first) => {
                let mut list = list_of(self.alloc, *first, front.len() + back.len())?;
                extend_list(&mut list, front, back)?;
                self.chars = Characters::List(list);
            }
            Characters::List(list) => extend_list(list, front, back)?,
            Characters::Ring(ring) => extend_ring(ring, front, back)?,
        }
        Ok(())
    }

    /// Puts a text before the first character. It costs the length of that text. After an error
    /// the text is as it was.
    pub fn prepend(&mut self, more: &Text) -> Result<(), AllocError>
        ensures ok { OnOk result (self.new ≡ more.now ++ self.old) }
        ensures err { OnErr result (self.new ≡ self.old) }
    {
        if let Characters::One(c) = &more.chars {
            return self.push_front(*c);
        }
        let (front, back) = more.as_slices();
        let mut ring = self.chars.take_ring(self.alloc)?;
        let done = extend_front(&mut ring, front, back);
        self.chars = Characters::Ring(ring);
        done
    }

    /// Keeps the characters before a place, and answers the others. It costs the number of these.
    /// After an error the text is as it was.
    pub fn split_off(&mut self, at: usize) -> Result<Text, AllocError>
        requires place { at ≤ length self.old }
        ensures kept { OnOk result (self.new ≡ take at self.old) }
        ensures rest { IfOk result (λ rest. rest ≡ drop at self.old) }
        ensures err { OnErr result (self.new ≡ self.old) }
    {
        let mut ring = self.chars.take_ring(self.alloc)?;
        let rest = ring.split_off(at);
        self.chars = Characters::Ring(ring);
        Ok(Text {
            alloc: self.alloc,
            chars: Characters::Ring(rest?),
        })
    }

    /// Keeps the characters before a place. It costs the number of the others, and takes no memory.
    pub fn truncate(&mut self, at: usize)
        requires place { at ≤ length self.old }
        ensures kept { self.new ≡ take at self.old }
    {
        match &mut self.chars {
            Characters::One(_) => {
                if at == 0 {
                    self.chars = Characters::List(Vec::new(self.alloc));
                }
            }
            Characters::List(list) => list.truncate(at),
            Characters::Ring(ring) => ring.truncate(at),
        }
    }

    /// Drops this many characters at the front. It costs their number, and takes no memory.
    pub fn drop_front(&mut self, count: usize)
        requires place { count ≤ length self.old }
        ensures rest { self.new ≡ drop count self.old }
    {
        if count == 0 {
            return;
        }
        match &mut self.chars {
            Characters::One(_) => self.chars = Characters::List(Vec::new(self.alloc)),
            Characters::List(list) => {
                let mut ring = VecDeque::from_vec(mem::replace(list, Vec::new(self.alloc)));
                drop_first(&mut ring, count);
                self.chars = Characters::Ring(ring);
            }
            Characters::Ring(ring) => drop_first(ring, count),
        }
    }

    /// The same again.
    pub fn copy(&self) -> Result<Text, AllocError>
        ensures copy { IfOk result (λ text. text ≡ self.now) }
    {
        if self.len() == 1 {
            return Ok(Text::of_one(self.alloc, self.get(0)));
        }
        let (front, back) = self.as_slices();
        let mut chars = Vec::with_capacity(self.alloc, front.len() + back.len())?;
        chars.extend_from_slice(front)?;
        if !back.is_empty() {
            chars.extend_from_slice(back)?;
        }
        Ok(Text::from_vec(chars))
    }

    /// The text in UTF-8.
    pub fn to_utf8(&self) -> Result<String, AllocError>
        ensures utf8 { IfOk result (λ s. string_bytes s ≡ encode_utf8_all self.now) }
    {
        let mut text = String::with_capacity(self.alloc, self.len())?;
        self.push_utf8(&mut text)?;
        Ok(text)
    }

    /// Puts the characters in UTF-8 after what a string has. It costs their number. After an error some of them are there.
    pub fn push_utf8(&self, to: &mut String) -> Result<(), AllocError>
        ensures ok { OnOk result (string_bytes to.new ≡ string_bytes to.old ++ encode_utf8_all self.now) }
    {
        let (front, back) = self.as_slices();
        push_chars(to, front)?;
        push_chars(to, back)?;
        Ok(())
    }

    /// The number of characters.
    pub fn len(&self) -> usize
        ensures len { result ≡ length self.now }
        ensures scalars { All IsScalar self.now }
    {
        match &self.chars {
            Characters::One(_) => 1,
            Characters::List(list) => list.len(),
            Characters::Ring(ring) => ring.len(),
        }
    }

    /// The character at a place.
    pub fn get(&self, i: usize) -> char
        requires place { i < length self.now }
        ensures char { result ≡ slice_index self.now i }
    {
        match &self.chars {
            Characters::One(c) => *c,
            Characters::List(list) => list[i],
            Characters::Ring(ring) => ring[i],
        }
    }

    /// The characters, in two parts.
    pub fn as_slices(&self) -> (&[char], &[char])
        ensures chars { result.0.now ++ result.1.now ≡ self.now }
        ensures scalars { All IsScalar self.now }
    {
        match &self.chars {
            Characters::One(c) => (slice::from_ref(c), &[]),
            Characters::List(list) => (list.as_slice(), &[]),
            Characters::Ring(ring) => ring.as_slices(),
        }
    }
}

// The list of this character, with room for so many more.
fn list_of(alloc: Global, c: char, more: usize) -> Result<Vec<char>, AllocError>
    requires scalar { IsScalar c }
    ensures one { IfOk result (λ list. list.items ≡ c ∷ []) }
{
    let mut list = Vec::new(alloc);
    list.reserve(more.saturating_add(1))?;
    list.push(c)?;
    Ok(list)
}

// Writes the character of each byte over one.
fn fill_chars(chars: &mut [char], bytes: &[u8])
    requires places { length chars.old ≡ length bytes.now }
    ensures codes { chars.new ≡ bytes.now }
{
    for i in 0..bytes.len() {
        chars[i] = char::from(bytes[i]);
    }
}

// Eight characters of ASCII.
fn eight_chars(bytes: &[u8; 8]) -> [char; 8]
    ensures codes { result ≡ bytes.now }
{
    let mut chars = ['\0'; 8];
    fill_chars(&mut chars, bytes);
    chars
}

// The characters of a text in ASCII.
fn ascii_chars(alloc: Global, bytes: &[u8]) -> Result<Vec<char>, AllocError>
    ensures codes { IfOk result (λ chars. chars.items ≡ bytes.now) }
{
    let mut chars = Vec::with_capacity(alloc, bytes.len())?;
    let mut rest = bytes;
    while let Some((eight, others)) = rest.split_first_chunk::<8>() {
        chars.extend_from_slice(&eight_chars(eight))?;
        rest = others;
    }
    for byte in rest {
        chars.push(char::from(*byte))?;
    }
    Ok(chars)
}

// How many characters begin in these bytes of UTF-8: as many as aren't the second or a later byte of one.
fn beginnings(bytes: &[u8]) -> usize
    ensures within { result ≤ length bytes.now }
{
    let mut count = 0;
    for byte in bytes {
        count += usize::from(byte & 0xC0 != 0x80);
    }
    count
}

// The characters of a text. Room is made for all of them at once.
fn chars_of(alloc: Global, s: &str) -> Result<Vec<char>, AllocError>
    ensures utf8 { IfOk result (λ chars. encode_utf8_all chars.items ≡ s.now) }
{
    let mut chars = Vec::with_capacity(alloc, beginnings(s.as_bytes()))?;
    chars.extend(s.chars())?;
    Ok(chars)
}

// Whether a list is empty and takes no memory.
fn is_unused(list: &Vec<char>) -> bool
    ensures empty { IsTrue result → list.now.items ≡ [] }
{
    list.is_empty() && list.capacity() == 0
}

// Puts both after the list. After an error it is as it was.
fn extend_list(list: &mut Vec<char>, front: &[char], back: &[char]) -> Result<(), AllocError>
    ensures ok { OnOk result (list.new.items ≡ list.old.items ++ (front.now ++ back.now)) }
    ensures err { OnErr result (list.new.items ≡ list.old.items) }
{
    list.reserve(front.len() + back.len())?;
    list.extend_from_slice(front).unwrap();
    if !back.is_empty() {
        list.extend_from_slice(back).unwrap();
    }
    Ok(())
}

// Puts both after the ring. After an error it is as it was.
fn extend_ring(ring: &mut VecDeque<char>, front: &[char], back: &[char]) -> Result<(), AllocError>
    ensures ok { OnOk result (ring.new.items ≡ ring.old.items ++ (front.now ++ back.now)) }
    ensures err { OnErr result (ring.new.items ≡ ring.old.items) }
{
    ring.reserve(front.len() + back.len())?;
    push_reserved(ring, front);
    push_reserved(ring, back);
    Ok(())
}

// Puts these after the ring, which has room for them.
fn push_reserved(ring: &mut VecDeque<char>, chars: &[char])
    requires room { deque_len ring.old + length chars.now ≤ deque_capacity ring.old }
    ensures items { ring.new.items ≡ ring.old.items ++ chars.now }
    ensures len { deque_len ring.new ≡ deque_len ring.old + length chars.now }
    ensures capacity { deque_capacity ring.new ≡ deque_capacity ring.old }
{
    for c in chars {
        ring.push_back_reserved(*c);
    }
}

#[tactic(auto, using(crate::proofs::Texts::encodes_more))]
fn push_chars(text: &mut String, chars: &[char]) -> Result<(), AllocError>
    ensures ok { OnOk result (string_bytes text.new ≡ string_bytes text.old ++ encode_utf8_all chars.now) }
{
    for c in chars {
        text.push(*c)?;
    }
    Ok(())
}

// Puts both before the ring. After an error it is as it was.
fn extend_front(ring: &mut VecDeque<char>, front: &[char], back: &[char]) -> Result<(), AllocError>
    ensures ok { OnOk result (ring.new.items ≡ (front.now ++ back.now) ++ ring.old.items) }
    ensures err { OnErr result (ring.new.items ≡ ring.old.items) }
{
    ring.reserve(front.len() + back.len())?;
    push_front_reserved(ring, back);
    push_front_reserved(ring, front);
    Ok(())
}

// Puts these before the ring, which has room for them.
fn push_front_reserved(ring: &mut VecDeque<char>, chars: &[char])
    requires room { deque_len ring.old + length chars.now ≤ deque_capacity ring.old }
    ensures items { ring.new.items ≡ chars.now ++ ring.old.items }
    ensures len { deque_len ring.new ≡ deque_len ring.old + length chars.now }
    ensures capacity { deque_capacity ring.new ≡ deque_capacity ring.old }
{
    let mut i = chars.len();
    'chars: while i > 0 {
        i -= 1;
        ring.push_front_reserved(chars[i]);
    }
}

// Drops the first characters.
fn drop_first(chars: &mut VecDeque<char>, count: usize)
    requires place { count ≤ deque_len chars.old }
    ensures rest { chars.new.items ≡ drop count chars.old.items }
{
    for _i in 0..count {
        let _gone = chars.pop_front();
    }
}
