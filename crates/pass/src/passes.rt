// A pass over a whole recipe: its declarations, and its main expression.
ghost use Rattle.std.specs.Prelude.{◌≡◌, ◌+◌, ◌*◌, ◌≤◌, length};
ghost use Rattle.pass.specs.Outputs.{over_with};
ghost use Rattle.pass.specs.Reads.{Fit, Takes, GoesHead, Limited, DeclarationsOn, GoesDeclaration, GoesDeclarations, GoesRecipe, GoesOver};

use crate::base::Base;
use crate::cursor::{Counted, Level, Spot};
use crate::descent::Descent;
use crate::instruction::Instruction;
use crate::names::{Function, Scope, Variable, function_of, variable_of};
use crate::output::Output;
use arrayvec::ArrayVec;
use lexer::{Kind, next_token};
use recipe::{Cause, Refusal, Word};

// The functions so far, and the place of the first whose frame is too large.
#[derive(PartialEq, Eq, Debug, Drop)]
pub(crate) struct Heads<'t> {
    pub(crate) next: Spot,
    pub(crate) over: Option<usize>,
    pub(crate) functions: ArrayVec<Function<'t>, 32>,
}

// What a pass over a recipe comes to: the indices past the functions' words and past the main expression's, the first fault of the names,
// the place of the first frame that is too large, and the functions, which stand first in the table.
#[derive(Clone, Copy, PartialEq, Eq, Debug)]
pub struct Pass<'t> {
    pub past_functions: usize,
    pub past_main: Base,
    pub fault: Option<Refusal>,
    pub over: Option<usize>,
    pub table: [Function<'t>; 32],
    pub count: usize,
}

// Past the name of a function, after as many others.
fn function_name(text: &[u8], here: Spot, before: usize) -> Result<Spot, Refusal>
    requires { (Fit text.now here) × (before ≤ 32) }
    ensures { Limited text.now here before result }
{
    let after = here.expect(text, Kind::Name)?;
    if before < 32 {
        Ok(after)
    } else {
        Err(here.refused(Cause::Functions))
    }
}

// The place of the first frame over 32 values, with one frame more.
fn first_over(over: Option<usize>, holds: usize, place: usize) -> Option<usize>
    ensures { result ≡ over_with over holds place }
{
    over.or((holds > 32).then_some(place))
}

impl<'t> Descent<'t, '_> {
    // Past the name of a parameter, which must not be among those before it.
    fn parameter(&self, here: Spot, scope: &mut Scope<'t>) -> Result<Spot, Refusal>
        requires { (Fit self.now.text.now here) × (length scope.old.items ≤ 8) }
        ensures { Takes self.now.text.now here scope.old.items result scope.new.items }
    {
        let after = here.expect(self.text, Kind::Name)?;
        let slot = scope.len();
        if slot < 8 {
            let name = here.spelling(self.text);
            let again = variable_of(scope, name).is_some();
            let fault = again.then_some(here.refused(Cause::DeclaredTwice));
            scope.push(Variable {
                name,
                slot: slot as u16,
            });
            Ok(Spot {
                out: after.out.note(fault),
                ..after
            })
        } else {
            Err(here.refused(Cause::Parameters))
        }
    }

    // A declaration, from its bracket on: its words begin with the number of its parameters, and end with the way back.
    fn head(&self, here: &Spot, image: &mut [u32]) -> Result<Counted, Refusal>
        requires { (Fit self.now.text.now here.now) × (here.now.out.at + 2 ≤ 2 * here.now.count + 4100) }
        ensures { GoesHead self.now.text.now self.now.functions.now here.now image.old result image.new }
    {
        let first = here.expect(self.text, Kind::Word(Word::Open))?;
        let mut scope = Scope::new();
        let mut so_far = self.parameter(first, &mut scope)?;
        while let Ok(next) = so_far.expect(self.text, Kind::Word(Word::Comma)) {
            so_far = self.parameter(next, &mut scope)?;
        }
        let close = so_far.expect(self.text, Kind::Word(Word::Close))?;
        let equals = close.expect(self.text, Kind::Word(Word::Equals))?;
        let arity = scope.len();
        let body = Spot {
            out: equals.out.emit(image, Instruction::Function(arity as u16)),
            ..equals
        };
        let level = Level {
            depth: 0,
            held: arity,
        };
        let last = self.expression(&body, level, &mut scope, image)?;
        Ok(Counted {
            next: Spot {
                out: last.out.emit(image, Instruction::Back),
                ..last
            },
            count: arity,
        })
    }

    // A declaration, after those before it.
    fn declaration(&self, heads: &mut Heads<'t>, image: &mut [u32]) -> Result<(), Refusal>
        requires { DeclarationsOn self.now.text.now heads.old }
        ensures { GoesDeclaration self.now.text.now self.now.functions.now heads.old image.old result heads.new image.new }
    {
        let here = heads.next;
        let after = function_name(self.text, here, heads.functions.len())?;
        let name = here.spelling(self.text);
        let again = function_of(&heads.functions, name).is_some();
        let own = Output {
            peak: 0,
            ..after.out
        };
        let named = Spot {
            out: own.note(again.then_some(here.refused(Cause::DeclaredTwice))),
            ..after
        };
        let inside = self.head(&named, image)?;
        heads.functions.push(Function {
            name,
            arity: inside.count,
            target: (here.out.at + 1) as u16,
        });
        heads.over = first_over(heads.over, inside.next.out.peak, here.look.start);
        heads.next = inside.next;
        Ok(())
    }

    // The declarations of a recipe, from its beginning on; their words begin at `base`.
    fn declarations(&self, base: Base, image: &mut [u32]) -> Result<Heads<'t>, Refusal>
        ensures { GoesDeclarations self.now.text.now self.now.functions.now base.index image.old result image.new }
    {
        let start = Spot {
            look: next_token(self.text, 0),
            count: 0,
            out: Output {
                at: base.index,
                peak: 0,
                fault: None,
            },
        };
        let mut heads = Heads {
            next: start.expect(self.text, Kind::Word(Word::Let))?,
            over: None,
            functions: ArrayVec::new(),
        };
        self.declaration(&mut heads, image)?;
        while heads.next.look.kind == Kind::Name {
            self.declaration(&mut heads, image)?;
        }
        Ok(heads)
    }
}

impl Base {
    // One pass over a recipe. The main expression's words begin at 1, after the head, and the functions' at the base.
    pub fn over<'t>(
        self,
        text: &'t [u8],
        functions: &[Function<'t>],
        image: &mut [u32],
    ) -> Result<Pass<'t>, Refusal>
        ensures { GoesRecipe text.now functions.now self.index image.old result image.new }
    {
        let descent = Descent { text, functions };
        let heads = descent.declarations(self, image)?;
        let within = heads.next.expect(text, Kind::Word(Word::In))?;
        let main = Spot {
            out: Output {
                at: 1,
                peak: 0,
                ..within.out
            },
            ..within
        };
        let level = Level { depth: 0, held: 0 };
        let last = descent.expression(&main, level, &mut Scope::new(), image)?;
        if last.look.kind != Kind::End {
            return Err(last.refused(Cause::Grammar));
        }
        let out = last.out.emit(image, Instruction::Back);
        let count = heads.functions.len();
        let mut table = [Function::default(); 32];
        table[..count].copy_from_slice(&heads.functions);
        Ok(Pass {
            past_functions: heads.next.out.at,
            past_main: Base { index: out.at },
            fault: out.fault,
            over: first_over(heads.over, out.peak, heads.next.look.start),
            table,
            count,
        })
    }
}

// The same from any index; None, and nothing is written, where the functions' words would begin beyond 4,036.
pub fn over<'t>(
    text: &'t [u8],
    functions: &[Function<'t>],
    base: usize,
    image: &mut [u32],
) -> Option<Result<Pass<'t>, Refusal>>
    ensures { GoesOver text.now functions.now base image.old result image.new }
{
    Some(Base::new(base)?.over(text, functions, image))
}
