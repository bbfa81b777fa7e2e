// Where a pass stands: the token ahead of it, the constructs before it, and what their words come to.
ghost use Rattle.std.specs.Prelude.{◌≡◌, ◌+◌, ◌≤◌};
ghost use Rattle.lexer.specs.Lexed.{IsToken, Valid};
ghost use Rattle.pass.specs.Known.{ident};
ghost use Rattle.pass.specs.Reads.{Fit, refused_at, Passes, Expects, Counts, Nests, holding};

use crate::output::Output;
use lexer::{Kind, Lexeme, next_token};
use recipe::{Cause, Refusal};

// The token ahead, the constructs before it, and what their words come to.
#[derive(Clone, Copy, PartialEq, Eq, Debug)]
pub(crate) struct Spot {
    pub(crate) look: Lexeme,
    pub(crate) count: usize,
    pub(crate) out: Output,
}

// How an expression stands: the nesting around it, and the values that the frame holds before it.
#[derive(Clone, Copy, PartialEq, Eq, Debug)]
pub(crate) struct Level {
    pub(crate) depth: usize,
    pub(crate) held: usize,
}

// What stands after a call's arguments or after a declaration, and how many arguments or parameters there are.
#[derive(Clone, Copy, PartialEq, Eq, Debug)]
pub(crate) struct Counted {
    pub(crate) next: Spot,
    pub(crate) count: usize,
}

impl Spot {
    // Why the text is refused, and here.
    pub(crate) fn refused(self, cause: Cause) -> Refusal
        ensures { result ≡ refused_at self cause }
    {
        Refusal {
            cause,
            place: self.look.start,
        }
    }

    // The bytes of the token.
    pub(crate) fn spelling<'t>(self, text: &'t [u8]) -> &'t [u8]
        requires { Valid text.now self.look }
        ensures { result.now ≡ (ident text.now self.look).name }
    {
        &text[self.look.start..self.look.end]
    }

    // Past the token.
    pub(crate) fn past(self, text: &[u8]) -> Spot
        requires fit { Fit text.now self }
        requires token { IsToken self.look.kind }
        ensures { Passes text.now self result }
    {
        Spot {
            look: next_token(text, self.look.end),
            ..self
        }
    }

    // Past a token of a kind, which has to stand there.
    pub(crate) fn expect(self, text: &[u8], kind: Kind) -> Result<Spot, Refusal>
        requires fit { Fit text.now self }
        requires token { IsToken kind }
        ensures { Expects text.now self kind result }
    {
        if self.look.kind == kind {
            Ok(self.past(text))
        } else {
            Err(self.refused(Cause::Grammar))
        }
    }

    // Past a token that stands for a construct.
    pub(crate) fn construct(self, text: &[u8]) -> Result<Spot, Refusal>
        requires fit { Fit text.now self }
        requires token { IsToken self.look.kind }
        ensures { Counts text.now self result }
    {
        if self.count < 2000 {
            Ok(Spot {
                count: self.count + 1,
                ..self.past(text)
            })
        } else {
            Err(self.refused(Cause::Constructs))
        }
    }
}

impl Level {
    // With one nesting more, which begins here.
    pub(crate) fn deeper(self, here: &Spot) -> Result<Level, Refusal>
        ensures { Nests self here.now result }
    {
        if self.depth < 32 {
            Ok(Level {
                depth: self.depth + 1,
                ..self
            })
        } else {
            Err(here.refused(Cause::Nesting))
        }
    }

    // With more values held.
    pub(crate) fn holding(self, more: usize) -> Level
        requires { self.held + more ≤ 8192 }
        ensures { result ≡ holding self more }
    {
        Level {
            held: self.held + more,
            ..self
        }
    }
}
