// The moves of a reader within a line.
ghost use Rattle.std.specs.Prelude.{◌≡◌, ◌≢◌, ℕ, ◌+◌, ◌≤◌, length, drop, false, if◌then◌else◌, Some, OnOk, IfErr};
ghost use Rattle.std.specs.List.{prefix_len};
ghost use Rattle.std.specs.Range.{range_inclusive_start, range_inclusive_end, range_inclusive_exhausted};
ghost use Rattle.fault.specs.Told.{told, number_of, refusal};
ghost use Rattle.table.specs.Checking.{at, misread as misread_at, inside, front, none, placed, number as read_number, leads, past_word, line_end};
ghost use Rattle.table.specs.Lexing.{class_ahead};

use super::Reader;
use crate::field::Field;
use crate::lexer::{Class, is_inside};
use fault::{Cause, Fault, Layer};
use std::ops::RangeInclusive;

// How many bytes stand before the first comma or line end.
fn inside_len(text: &[u8]) -> usize
    ensures { result ≡ prefix_len inside text.now }
{
    text.iter().take_while(|byte| is_inside(**byte)).count()
}

impl<'a> Reader<'a> {
    // At the first byte of a text.
    pub(crate) fn over(text: &'a [u8]) -> Reader<'a>
        requires { length text.now ≤ 8192 }
        ensures { result ≡ at text.now 1 1 }
    {
        Reader {
            rest: text,
            line: 1,
            column: 1,
        }
    }

    // Whether nothing is left.
    pub(crate) fn is_done(&self) -> bool
        ensures { result ≡ none self.now.rest }
    {
        self.rest.is_empty()
    }

    // A refusal where the reader stands.
    fn refuse(&self, cause: Cause) -> Fault
        ensures { refusal result ≡ misread_at (number_of cause) self.now.line self.now.column }
    {
        Fault::in_line(Layer::Text, cause, self.line, self.column)
    }

    // No such line may stand here.
    pub(crate) fn refuse_line(&self) -> Fault
        ensures { refusal result ≡ misread_at 2 self.now.line 1 }
    {
        Fault::in_line(Layer::Text, Cause::WrongLine, self.line, 1)
    }

    // So many bytes on, in the same line.
    fn pass(&mut self, count: usize)
        requires { count ≤ length self.old.rest }
        ensures { self.new ≡ at (drop count self.old.rest) self.old.line (self.old.column + count) }
    {
        let rest = self.rest;
        self.rest = &rest[count..];
        self.column += count as u32;
    }

    // What the next byte is, if one is left.
    fn ahead(&self) -> Option<Class>
        ensures { result ≡ class_ahead self.now.rest }
    {
        self.rest.first().map(|byte| Class::from(*byte))
    }

    // Goes past the next byte, which has to be of this class.
    fn expect(&mut self, class: Class) -> Result<(), Fault>
        ensures there { OnOk result ((class_ahead self.old.rest ≡ Some class) × (self.new ≡ at (drop 1 self.old.rest) self.old.line (self.old.column + 1))) }
        ensures missing { IfErr result (λ f. (class_ahead self.old.rest ≢ Some class) × (refusal f ≡ misread_at 5 self.old.line self.old.column)) }
    {
        if self.ahead() != Some(class) {
            return Err(self.refuse(Cause::WrongFieldCount));
        }
        self.pass(1);
        Ok(())
    }

    // The bytes up to the next comma or line end.
    fn peek(&self) -> Field<'a>
        ensures part { result.part.now ≡ front self.now.rest }
        ensures place { (result.line ≡ self.now.line) × (result.column ≡ self.now.column) }
    {
        Field {
            part: &self.rest[..inside_len(self.rest)],
            line: self.line,
            column: self.column,
        }
    }

    // A comma and a number within limits.
    #[tactic(auto, using(crate::proofs::Lexed::comma_ahead, crate::proofs::Lexed::no_comma, crate::proofs::Lexed::front_fits), unfolding(crate::specs::Checking::number))]
    pub(super) fn number(&mut self, limits: RangeInclusive<u32>) -> Result<u32, Fault>
        requires { range_inclusive_exhausted limits ≡ false }
        ensures { read_number (range_inclusive_start limits) (range_inclusive_end limits) self.old ≡ placed (told result) self.new }
    {
        self.expect(Class::Comma)?;
        let field = self.peek();
        self.pass(field.part.len());
        field.number(limits)
    }

    // Goes past the first word of a line, if it is this one.
    #[tactic(auto, unfolding(crate::specs::Checking::leads))]
    pub(super) fn takes(&mut self, word: &[u8]) -> bool
        ensures answer { result ≡ leads word.now self.old }
        ensures place { self.new ≡ (if result then past_word word.now self.old else self.old) }
    {
        let found = self.peek().part == word;
        if found {
            self.pass(word.len());
        }
        found
    }

    // The end of a line.
    #[tactic(auto, using(crate::proofs::Lexed::end_ahead, crate::proofs::Lexed::no_end), unfolding(crate::specs::Checking::line_end))]
    pub(super) fn line_end(&mut self) -> Result<(), Fault>
        ensures { line_end self.old ≡ placed (told result) self.new }
    {
        let next = self.line + 1;
        self.expect(Class::LineEnd)?;
        self.line = next;
        self.column = 1;
        Ok(())
    }
}
