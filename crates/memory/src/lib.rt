// Memories: lists of 32-bit words of fixed length, for reading and for writing.
#![tactic(auto)]

ghost use Rattle.std.specs.Prelude.{◌≡◌, ℕ, ◌*◌, ◌/◌, List, length, drop};
ghost use Rattle.fault.specs.Told.{told};
ghost use Rattle.memory.specs.Words.{Reads, Sets, zeroing, zeroed};
ghost use Rattle.memory.specs.Bytes.{words_of, stored};

use fault::Fault;

// A memory for reading. Its meaning is a list of words.
pub trait Readable {
    ghost words: { Self → List ℕ };

    fn len(&self) -> usize
        ensures { result ≡ length (words self.now) };

    // The word at a place, or refusal 1 at a place at or past the length.
    fn word(&self, place: usize) -> Result<u32, Fault>
        ensures { Reads (words self.now) place result };
}

// A memory for writing is a memory for reading that also sets one word.
pub trait Writable: Readable {
    // Changes that word only; a refusal, 1 at a place at or past the length, changes nothing.
    fn set(&mut self, place: usize, value: u32) -> Result<(), Fault>
        ensures { Sets (Self.Readable.words self.old) place value result (Self.Readable.words self.new) };
}

// Words lent for writing.
#[derive(Drop)]
pub struct Words<'a> {
    pub words: &'a mut [u32],
}

// Bytes lent for writing, four to a word, most significant first. Up to three last bytes belong to no word.
#[derive(Drop)]
pub struct Bytes<'a> {
    pub bytes: &'a mut [u8],
}

// Such bytes lent for reading only.
#[derive(Drop)]
pub struct BytesView<'a> {
    pub bytes: &'a [u8],
}

impl Readable for Words<'_> {
    ghost words = { λ s. s.words.now };

    fn len(&self) -> usize {
        self.words.len()
    }

    fn word(&self, place: usize) -> Result<u32, Fault> {
        self.words.get(place).copied().ok_or(Fault::past_end(place))
    }
}

impl Writable for Words<'_> {
    fn set(&mut self, place: usize, value: u32) -> Result<(), Fault> {
        if place >= self.words.len() {
            return Err(Fault::past_end(place));
        }
        self.words[place] = value;
        Ok(())
    }
}

impl Readable for BytesView<'_> {
    ghost words = { λ s. words_of s.bytes.now };

    #[tactic(auto, using(crate::proofs::WordBytes::length_words))]
    fn len(&self) -> usize {
        self.bytes.len() / 4
    }

    #[tactic(auto, using(crate::proofs::WordBytes::length_words, crate::proofs::WordBytes::get_or_words))]
    fn word(&self, place: usize) -> Result<u32, Fault> {
        if place >= self.len() {
            return Err(Fault::past_end(place));
        }
        let bytes = self.bytes;
        let at = 4 * place;
        Ok(u32::from_be_bytes([bytes[at], bytes[at + 1], bytes[at + 2], bytes[at + 3]]))
    }
}

impl Bytes<'_> {
    // The same bytes for reading only.
    fn view(&self) -> BytesView<'_>
        ensures { result.bytes.now ≡ self.now.bytes.now }
    {
        BytesView { bytes: self.bytes }
    }
}

impl Readable for Bytes<'_> {
    ghost words = { λ s. words_of s.bytes.now };

    fn len(&self) -> usize {
        self.view().len()
    }

    fn word(&self, place: usize) -> Result<u32, Fault> {
        self.view().word(place)
    }
}

impl Writable for Bytes<'_> {
    #[tactic(auto, using(crate::proofs::WordBytes::length_words))]
    fn set(&mut self, place: usize, value: u32) -> Result<(), Fault>
        ensures sets { Sets (words_of self.old.bytes.now) place value result (words_of self.new.bytes.now) }
        ensures bytes { self.new.bytes.now ≡ stored self.old.bytes.now place value }
        ensures tail { drop (4 * (length self.old.bytes.now / 4)) self.new.bytes.now ≡ drop (4 * (length self.old.bytes.now / 4)) self.old.bytes.now }
    {
        if place >= self.len() {
            return Err(Fault::past_end(place));
        }
        let at = 4 * place;
        self.bytes[at..at + 4].copy_from_slice(&value.to_be_bytes());
        Ok(())
    }
}

// Places 0 to count - 1 become 0 in order, up to the first refusal.
pub fn zero<M: Writable>(memory: &mut M, count: usize) -> Result<(), Fault>
    ensures answer { told result ≡ zeroing (M.Readable.words memory.old) count }
    ensures after { M.Readable.words memory.new ≡ zeroed (M.Readable.words memory.old) count }
{
    for place in 0..count {
        memory.set(place, 0)?;
    }
    Ok(())
}
