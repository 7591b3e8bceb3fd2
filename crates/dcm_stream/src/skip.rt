// What is open of an element or item that is left out.
ghost use Rattle.std.specs.Prelude.{◌≡◌, fold};
ghost use Rattle.dcm_stream.specs.Skip as spec;
ghost use Rattle.dcm_stream.specs.Tokens.{atoms_of};

use super::Token;

/// What is open of an element or item that is left out: nothing, or itself and what is open within it. It begins at a
/// head that is left out, and ends with the end that belongs to that head.
#[derive(Clone, Copy, Debug, PartialEq, Eq)]
pub struct Skip {
    depth: u32,
}

impl Skip {
    /// Nothing is left out.
    pub fn nothing() -> Skip
        ensures { spec.depth result ≡ 0 }
    {
        Skip { depth: 0 }
    }

    /// Whether the next token is within what is left out.
    pub fn is_open(&self) -> bool
        ensures { result ≡ spec.is_open (spec.depth self.now) }
    {
        self.depth > 0
    }

    /// An element, an item or a fragment opens. It is left out where that is asked, and within what is left out.
    pub fn open(&mut self, is_left_out: bool)
        ensures { spec.depth self.new ≡ spec.opened (spec.depth self.old) is_left_out }
    {
        if self.depth > 0 || is_left_out {
            self.depth = self.depth.saturating_add(1);
        }
    }

    /// An element, an item or a fragment ends.
    pub fn close(&mut self)
        ensures { spec.depth self.new ≡ spec.closed (spec.depth self.old) }
    {
        self.depth = self.depth.saturating_sub(1);
    }

    /// Reads a token, at which nothing begins to be left out.
    #[tactic(auto, using(crate::proofs::Runs::Skipped::bytes_change_nothing))]
    pub fn pass(&mut self, token: Token)
        ensures { spec.depth self.new ≡ fold spec.after (spec.depth self.old) (atoms_of token.entry) }
    {
        match token {
            Token::Open(_, _) | Token::OpenItem(_) | Token::OpenFragment(_) => self.open(false),
            Token::CloseLeaf | Token::CloseItem | Token::CloseSeq => self.close(),
            Token::Bytes(_) | Token::End => {}
        }
    }
}
