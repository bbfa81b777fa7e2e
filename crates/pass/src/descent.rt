// Expressions by recursive descent: one descent reads, judges the limits and says what the words come to.
ghost use Rattle.std.specs.Prelude.{◌≡◌};
ghost use Rattle.pass.specs.Reads.{Ready, Descends, an_expr, from_expr, a_chain, from_chain, an_operand, from_operand, an_atom, from_atom, knows, GoesCall, AtKind};
ghost use Rattle.lexer.specs.declared.Kind.TheVariants.{Name as NameKind, Word as WordKind};
ghost use Rattle.recipe.specs.declared.Word.TheVariants.{Let as LetWord, Ifp as IfpWord, Open as OpenWord, Weigh as WeighWord};

use crate::chain::Chain;
use crate::cursor::{Counted, Level, Spot};
use crate::instruction::Instruction;
use crate::names::{Function, Scope, Variable, Within};
use lexer::Kind;
use recipe::{Cause, Refusal, Word};

// A text, and the functions that its calls know.
#[derive(Clone, Copy, PartialEq, Eq, Debug)]
pub(crate) struct Descent<'t, 'f> {
    pub(crate) text: &'t [u8],
    pub(crate) functions: &'f [Function<'t>],
}

impl<'t> Descent<'t, '_> {
    #[cycle(expressions)]
    pub(crate) fn expression(
        &self,
        here: &Spot,
        level: Level,
        scope: &mut Scope<'t>,
        image: &mut [u32],
    ) -> Result<Spot, Refusal>
        requires { Ready self.now here.now level scope.old.items }
        ensures goes { Descends an_expr from_expr self.now scope.old.items here.now level image.old result image.new }
        ensures kept { scope.new ≡ scope.old }
    {
        match here.look.kind {
            Kind::Word(Word::Let) => self.binding(here, level, scope, image),
            Kind::Word(Word::Ifp) => self.choice(here, level, scope, image),
            _ => self.chain(Chain::Sum, here, level, scope, image),
        }
    }

    // A let expression: the value of its first part stays on the frame under its second.
    #[cycle(expressions)]
    fn binding(
        &self,
        here: &Spot,
        level: Level,
        scope: &mut Scope<'t>,
        image: &mut [u32],
    ) -> Result<Spot, Refusal>
        requires ready { Ready self.now here.now level scope.old.items }
        requires kind { AtKind here.now (WordKind LetWord) }
        ensures goes { Descends an_expr from_expr self.now scope.old.items here.now level image.old result image.new }
        ensures kept { scope.new ≡ scope.old }
    {
        let deeper = level.deeper(here)?;
        let named = here.construct(self.text)?;
        let equals = named.expect(self.text, Kind::Name)?;
        let value = equals.expect(self.text, Kind::Word(Word::Equals))?;
        let within = self.expression(&value, deeper, scope, image)?;
        let body = within.expect(self.text, Kind::Word(Word::In))?;
        let old = scope.len();
        let inner = Within { scope, old };
        inner.scope.push(Variable {
            name: named.spelling(self.text),
            slot: level.held as u16,
        });
        let last = self.expression(&body, deeper.holding(1), inner.scope, image)?;
        Ok(Spot {
            out: last.out.emit(image, Instruction::Out),
            ..last
        })
    }

    // A choice by a test: a word after the test leads past the first part, and one after that past the second, once they are known.
    #[cycle(expressions)]
    fn choice(
        &self,
        here: &Spot,
        level: Level,
        scope: &mut Scope<'t>,
        image: &mut [u32],
    ) -> Result<Spot, Refusal>
        requires ready { Ready self.now here.now level scope.old.items }
        requires kind { AtKind here.now (WordKind IfpWord) }
        ensures goes { Descends an_expr from_expr self.now scope.old.items here.now level image.old result image.new }
        ensures kept { scope.new ≡ scope.old }
    {
        let deeper = level.deeper(here)?;
        let test = here.construct(self.text)?;
        let then = self.expression(&test, deeper, scope, image)?;
        let branch = then.expect(self.text, Kind::Word(Word::Then))?;
        let first = Spot {
            out: branch.out.skip(),
            ..branch
        };
        let other = self.expression(&first, deeper, scope, image)?;
        let jump = other.expect(self.text, Kind::Word(Word::Else))?;
        let second = Spot {
            out: jump.out.skip(),
            ..jump
        };
        branch
            .out
            .put(image, Instruction::Unless(second.out.at as u16));
        let last = self.expression(&second, deeper, scope, image)?;
        jump.out.put(image, Instruction::Go(last.out.at as u16));
        Ok(last)
    }

    // A sum or a product.
    #[cycle(expressions)]
    fn chain(
        &self,
        chain: Chain,
        here: &Spot,
        level: Level,
        scope: &mut Scope<'t>,
        image: &mut [u32],
    ) -> Result<Spot, Refusal>
        requires { Ready self.now here.now level scope.old.items }
        ensures goes { Descends (a_chain chain) (from_chain chain) self.now scope.old.items here.now level image.old result image.new }
        ensures kept { scope.new ≡ scope.old }
    {
        let mut so_far = self.operand(chain, here, level, scope, image)?;
        while let Some(op) = chain.operator(so_far.look.kind) {
            let right = so_far.construct(self.text)?;
            let read = self.operand(chain, &right, level.holding(1), scope, image)?;
            so_far = Spot {
                out: read.out.emit(image, Instruction::Operator(op)),
                ..read
            };
        }
        Ok(so_far)
    }

    // What a chain joins: a product in a sum, an atom in a product.
    #[cycle(expressions)]
    fn operand(
        &self,
        chain: Chain,
        here: &Spot,
        level: Level,
        scope: &mut Scope<'t>,
        image: &mut [u32],
    ) -> Result<Spot, Refusal>
        requires { Ready self.now here.now level scope.old.items }
        ensures goes { Descends (an_operand chain) (from_operand chain) self.now scope.old.items here.now level image.old result image.new }
        ensures kept { scope.new ≡ scope.old }
    {
        match chain {
            Chain::Sum => self.chain(Chain::Product, here, level, scope, image),
            Chain::Product => self.atom(here, level, scope, image),
        }
    }

    #[cycle(expressions)]
    fn atom(
        &self,
        here: &Spot,
        level: Level,
        scope: &mut Scope<'t>,
        image: &mut [u32],
    ) -> Result<Spot, Refusal>
        requires { Ready self.now here.now level scope.old.items }
        ensures goes { Descends an_atom from_atom self.now scope.old.items here.now level image.old result image.new }
        ensures kept { scope.new ≡ scope.old }
    {
        match here.look.kind {
            Kind::Number(value) => {
                let after = here.construct(self.text)?;
                Ok(Spot {
                    out: after
                        .out
                        .push(level.held, image, Instruction::Number(value)),
                    ..after
                })
            }
            Kind::Name => self.named(here, level, scope, image),
            Kind::Word(Word::Weigh) => self.weighing(here, level, scope, image),
            Kind::Word(Word::Open) => self.bracketed(here, level, scope, image),
            _ => Err(here.refused(Cause::Grammar)),
        }
    }

    fn weighing(
        &self,
        here: &Spot,
        level: Level,
        scope: &Scope<'t>,
        image: &mut [u32],
    ) -> Result<Spot, Refusal>
        requires ready { Ready self.now here.now level scope.now.items }
        requires kind { AtKind here.now (WordKind WeighWord) }
        ensures { Descends an_atom from_atom self.now scope.now.items here.now level image.old result image.new }
    {
        let after = here.construct(self.text)?;
        match after.look.kind {
            Kind::Number(value) => {
                let out = after.channel(level.held, value, image);
                Ok(Spot {
                    out,
                    ..after.past(self.text)
                })
            }
            _ => Err(after.refused(Cause::Grammar)),
        }
    }

    #[cycle(expressions)]
    fn bracketed(
        &self,
        here: &Spot,
        level: Level,
        scope: &mut Scope<'t>,
        image: &mut [u32],
    ) -> Result<Spot, Refusal>
        requires ready { Ready self.now here.now level scope.old.items }
        requires kind { AtKind here.now (WordKind OpenWord) }
        ensures goes { Descends an_atom from_atom self.now scope.old.items here.now level image.old result image.new }
        ensures kept { scope.new ≡ scope.old }
    {
        let deeper = level.deeper(here)?;
        let inner = here.past(self.text);
        let within = self.expression(&inner, deeper, scope, image)?;
        within.expect(self.text, Kind::Word(Word::Close))
    }

    // A variable or a call.
    #[cycle(expressions)]
    fn named(
        &self,
        here: &Spot,
        level: Level,
        scope: &mut Scope<'t>,
        image: &mut [u32],
    ) -> Result<Spot, Refusal>
        requires ready { Ready self.now here.now level scope.old.items }
        requires kind { AtKind here.now NameKind }
        ensures goes { Descends an_atom from_atom self.now scope.old.items here.now level image.old result image.new }
        ensures kept { scope.new ≡ scope.old }
    {
        let after = here.construct(self.text)?;
        if after.look.kind == Kind::Word(Word::Open) {
            let deeper = level.deeper(&after)?;
            let inner = after.past(self.text);
            let given = self.arguments(&inner, deeper, scope, image)?;
            let out = self.call(here, given.count, given.next.out, image);
            Ok(Spot { out, ..given.next })
        } else {
            let out = self.load(here, scope, after.out, level.held, image);
            Ok(Spot { out, ..after })
        }
    }

    // A call's arguments, from the token after its bracket on.
    #[cycle(expressions)]
    fn arguments(
        &self,
        here: &Spot,
        level: Level,
        scope: &mut Scope<'t>,
        image: &mut [u32],
    ) -> Result<Counted, Refusal>
        requires { Ready self.now here.now level scope.old.items }
        ensures goes { GoesCall self.now.text.now (knows self.now scope.old.items) here.now level image.old result image.new }
        ensures kept { scope.new ≡ scope.old }
    {
        let mut so_far = self.expression(here, level, scope, image)?;
        // counted here, since each argument stands on the frame over those before it
        let mut count: usize = 1;
        while let Ok(next) = so_far.expect(self.text, Kind::Word(Word::Comma)) {
            so_far = self.expression(&next, level.holding(count), scope, image)?;
            count += 1;
        }
        let next = so_far.expect(self.text, Kind::Word(Word::Close))?;
        Ok(Counted { next, count })
    }
}
