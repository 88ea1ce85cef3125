// The words of a line. Each one that is read stays a part of the sheet.
ghost use Rattle.jobsheet.specs.Tokens.{left, Stands, Taken, Three};

use crate::ends::len_before;
use crate::line::Line;

// A word that was read, or the end of its line: a part of the sheet, with its place in it.
#[derive(Clone, Copy)]
pub(crate) enum Token<'a> {
    Name(&'a [u8], usize),
    Value(&'a [u8], usize),
    End(&'a [u8], usize),
}

// Whether a line's words are names or values. A token has a case for each, so that a reader of tokens sees which line it is of.
#[derive(Clone, Copy, PartialEq, Eq)]
pub(crate) enum Kind {
    Names,
    Values,
}

// The three words of a line, from the left.
#[derive(Clone, Copy)]
pub(crate) struct Words<'a> {
    pub first: &'a [u8],
    pub second: &'a [u8],
    pub third: &'a [u8],
}

impl<'a> Line<'a> {
    // The token that it begins with.
    fn token(&self, kind: Kind) -> Token<'a>
        ensures { Stands result kind self.now }
    {
        let text = self.text;
        if self.from > self.end {
            return Token::End(&text[self.end..self.end], self.end);
        }
        let end = self.from + len_before(&text[self.from..self.end], ',');
        let word = &text[self.from..end];
        match kind {
            Kind::Names => Token::Name(word, self.from),
            Kind::Values => Token::Value(word, self.from),
        }
    }

    // The next word, which is then read.
    fn word(&mut self, kind: Kind) -> Option<&'a [u8]>
        ensures { Taken result self.old self.new }
    {
        match self.token(kind) {
            Token::Name(word, place) | Token::Value(word, place) => {
                self.from = place + word.len() + 1;
                Some(word)
            }
            Token::End(_, _) => None,
        }
    }

    // Its words, if there are three.
    pub(crate) fn words(mut self, kind: Kind) -> Option<Words<'a>>
        ensures { Three result (left self.entry) }
    {
        let first = self.word(kind)?;
        let second = self.word(kind)?;
        let third = self.word(kind)?;
        matches!(self.token(kind), Token::End(_, _)).then_some(Words {
            first,
            second,
            third,
        })
    }
}
