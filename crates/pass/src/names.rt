// The names that a pass knows: the functions of a recipe, and the variables in force.
ghost use Rattle.std.specs.Prelude.{◌≡◌, ◌≤◌, ◌&&◌, nat_le, take, slice_set};
ghost use Rattle.recipe.specs.declared.cause.Cause.TheVariants.{Channel, UnknownName};
ghost use Rattle.recipe.specs.Names.{fault_unless, among, arity_of, call_faults};
ghost use Rattle.recipe.specs.Image.{VAR, WEIGH, CALL, find};
ghost use Rattle.lexer.specs.Lexed.{Valid};
ghost use Rattle.pass.specs.Known.{ident, entered, in_force, spelled, newest_of, first_of, signed};
ghost use Rattle.pass.specs.Outputs.{emitted, pushed, faulted};

use crate::cursor::Spot;
use crate::descent::Descent;
use crate::instruction::Instruction;
use crate::output::Output;
use arrayvec::ArrayVec;
use recipe::Cause;

// A function: its name, how many parameters it has, and the index of its first word.
#[derive(Clone, Copy, PartialEq, Eq, Debug, Default)]
pub struct Function<'t> {
    pub name: &'t [u8],
    pub arity: usize,
    pub target: u16,
}

// A variable: its name and its slot.
#[derive(Clone, Copy, PartialEq, Eq, Debug, Default)]
pub(crate) struct Variable<'t> {
    pub(crate) name: &'t [u8],
    pub(crate) slot: u16,
}

// The variables in force, the newest last: at most eight parameters, and a name for each nesting.
pub(crate) type Scope<'t> = ArrayVec<Variable<'t>, 40>;

// A part of the text with variables of its own: however it is left, they are in force no more.
pub(crate) struct Within<'a, 't> {
    pub(crate) scope: &'a mut Scope<'t>,
    pub(crate) old: usize,
}

impl Drop for Within<'_, '_> {
    fn drop(self)
        ensures { self.exit.0.now.items ≡ take self.entry.old self.entry.scope.now.items }
    {
        let Within { scope, old } = self;
        scope.truncate(old);
    }
}

// The newest variable of a name: the last that has it, where a function is the first.
pub(crate) fn variable_of<'t>(scope: &[Variable<'t>], name: &[u8]) -> Option<Variable<'t>>
    ensures { result ≡ newest_of scope.now name.now }
{
    scope.iter().rev().find(|v| name == v.name).copied()
}

// The first function of a name.
pub(crate) fn function_of<'t>(functions: &[Function<'t>], name: &[u8]) -> Option<Function<'t>>
    ensures { result ≡ first_of functions.now name.now }
{
    functions.iter().find(|f| name == f.name).copied()
}

impl Spot {
    // The word of a weighing, whose channel is the number of the token and one of 64.
    pub(crate) fn channel(self, held: usize, value: u32, image: &mut [u32]) -> Output
        requires { (self.out.at ≤ 8192) × ((held ≤ 4000) × (value ≤ 268435455)) }
        ensures made { result ≡ pushed held (faulted self.out (fault_unless (nat_le 1 value && nat_le value 64) self.look.start Channel)) }
        ensures written { image.new ≡ slice_set image.old self.out.at (WEIGH value) }
    {
        let known = (1..=64).contains(&value);
        let fault = (!known).then_some(self.refused(Cause::Channel));
        self.out
            .note(fault)
            .push(held, image, Instruction::Weigh(value))
    }
}

impl Descent<'_, '_> {
    // The word of the variable that is named here, which has to be in force.
    pub(crate) fn load(
        &self,
        here: &Spot,
        scope: &[Variable],
        out: Output,
        held: usize,
        image: &mut [u32],
    ) -> Output
        requires { (Valid self.now.text.now here.now.look) × ((out.at ≤ 8192) × (held ≤ 4000)) }
        ensures made { let x = ident self.now.text.now here.now.look in
            result ≡ pushed held (faulted out (fault_unless (among (spelled (in_force scope.now)) x.name) x.place UnknownName)) }
        ensures written { image.new ≡ slice_set image.old out.at (VAR (find (in_force scope.now) (ident self.now.text.now here.now.look).name)) }
    {
        match variable_of(scope, here.spelling(self.text)) {
            Some(v) => out.push(held, image, Instruction::Variable(v.slot)),
            None => out
                .note(Some(here.refused(Cause::UnknownName)))
                .push(held, image, Instruction::Variable(0)),
        }
    }

    // The word of a call of the function that is named here, which has to take as many arguments.
    pub(crate) fn call(&self, here: &Spot, given: usize, out: Output, image: &mut [u32]) -> Output
        requires { (Valid self.now.text.now here.now.look) × ((out.at ≤ 8192) × (given ≤ 4000)) }
        ensures made { let f = ident self.now.text.now here.now.look in
            result ≡ emitted (faulted out (call_faults (arity_of (signed self.now.functions.now) f.name) given f.place)) }
        ensures written { image.new ≡ slice_set image.old out.at
            (CALL given (find (entered self.now.functions.now) (ident self.now.text.now here.now.look).name)) }
    {
        match function_of(self.functions, here.spelling(self.text)) {
            Some(f) => {
                let fault = (f.arity != given).then_some(here.refused(Cause::ArgumentCount));
                out.note(fault).emit(
                    image,
                    Instruction::Call {
                        arity: given as u16,
                        target: f.target,
                    },
                )
            }
            None => out.note(Some(here.refused(Cause::UnknownName))).emit(
                image,
                Instruction::Call {
                    arity: given as u16,
                    target: 0,
                },
            ),
        }
    }
}
