// Instructions: each opcode's fields, and the one match that decides by the opcode.
ghost use Rattle.std.specs.Prelude.{◌≡◌};
ghost use Rattle.value.specs.Refusal.{unknown};
ghost use Rattle.image.specs.Fields.{below, optional, list_of, bytes};
ghost use Rattle.image.specs.Image.{var, label, constant, callee, u32, size, type, operand, branch, declared, instruction};
ghost use Rattle.image.specs.Answer.{shape, walk};
ghost use Rattle.loader.specs.Fields.{field_of};

use crate::fields::Fields;
use image::field::below_after;
use image::number::{Stop, read_number};
use value::refusal::Refusal;

impl<'a> Fields<'a> {
    // A Switch's branch: any number, and its label.
    #[tactic(auto, using(crate::proofs::Rows::branch_walk))]
    fn branch(self, at: usize) -> Result<usize, Stop>
        ensures { result ≡ shape (field_of self.entry branch at) }
    {
        let (_, label) = read_number(self.image, at)?;
        self.label(label)
    }

    // A variable and its type.
    #[tactic(auto, using(crate::proofs::Rows::declared_walk))]
    fn declared(self, at: usize) -> Result<usize, Stop>
        ensures { result ≡ shape (field_of self.entry declared at) }
    {
        self.tag(self.variable(at)?)
    }

    fn branches(self, at: usize) -> Result<usize, Stop>
        ensures { result ≡ shape (list_of self.entry.image.now 64 (field_of self.entry branch) at) }
    {
        self.list(at, 64, |at| self.branch(at))
    }

    fn optional_declared(self, at: usize) -> Result<usize, Stop>
        ensures { result ≡ shape (optional self.entry.image.now (field_of self.entry declared) at) }
    {
        self.optional(at, |at| self.declared(at))
    }

    // Switch: operand, branches, default label.
    fn switch(self, at: usize) -> Result<usize, Stop>
        ensures { result ≡ walk (field_of self.entry label) (walk (list_of self.entry.image.now 64 (field_of self.entry branch)) (shape (field_of self.entry operand at))) }
    {
        let branches = self.operand(at)?;
        self.label(self.branches(branches)?)
    }

    // Assign, Read: to, operand, type.
    fn typed(self, at: usize) -> Result<usize, Stop>
        ensures { result ≡ walk (type (self.entry.image.now)) (walk (field_of self.entry operand) (shape (field_of self.entry var at))) }
    {
        self.tag(self.two(at)?)
    }

    // ConstantAddress: to, constant.
    fn constant_address(self, at: usize) -> Result<usize, Stop>
        ensures { result ≡ walk (field_of self.entry constant) (shape (field_of self.entry var at)) }
    {
        self.constant(self.variable(at)?)
    }

    // Call: optional (to, type), optional context, function, arguments, optional return-pointer variable.
    fn call(self, at: usize) -> Result<usize, Stop>
        ensures { result ≡ walk (optional self.entry.image.now (field_of self.entry var)) (walk (list_of self.entry.image.now 16 (field_of self.entry operand)) (walk (field_of self.entry callee) (walk (optional self.entry.image.now (field_of self.entry operand)) (shape (optional self.entry.image.now (field_of self.entry declared) at))))) }
    {
        let context = self.optional_declared(at)?;
        let function = self.optional_operand(context)?;
        let arguments = self.callee(function)?;
        let pointer = self.arguments(arguments)?;
        self.optional_variable(pointer)
    }

    // IntCmp, FloatCmp, Div, Mod: to, a comparison or a flag below `limit`, two operands.
    fn chosen(self, at: usize, limit: u64) -> Result<usize, Stop>
        ensures { result ≡ walk (field_of self.entry operand) (walk (field_of self.entry operand) (walk (below self.entry.image.now limit unknown) (shape (field_of self.entry var at)))) }
    {
        let choice = self.variable(at)?;
        let (_, operands) = below_after(self.image, choice, limit, Refusal::Unknown)?;
        self.pair(operands)
    }

    // Write: where, what.
    fn pair(self, at: usize) -> Result<usize, Stop>
        ensures { result ≡ walk (field_of self.entry operand) (shape (field_of self.entry operand at)) }
    {
        self.operand(self.operand(at)?)
    }

    // Add, Sub, Mul, FDiv: to, two operands.
    fn three(self, at: usize) -> Result<usize, Stop>
        ensures { result ≡ walk (field_of self.entry operand) (walk (field_of self.entry operand) (shape (field_of self.entry var at))) }
    {
        self.pair(self.variable(at)?)
    }

    // Not, Negate: to, operand.
    fn two(self, at: usize) -> Result<usize, Stop>
        ensures { result ≡ walk (field_of self.entry operand) (shape (field_of self.entry var at)) }
    {
        self.operand(self.variable(at)?)
    }

    // Offset: to, operand, u32.
    fn offset(self, at: usize) -> Result<usize, Stop>
        ensures { result ≡ walk (u32 self.entry.image.now) (walk (field_of self.entry operand) (shape (field_of self.entry var at))) }
    {
        self.u32(self.two(at)?)
    }

    // Initialize: to, size, bytes.
    fn initialize(self, at: usize) -> Result<usize, Stop>
        ensures { result ≡ walk (bytes self.entry.image.now 256) (walk (size self.entry.image.now) (shape (field_of self.entry var at))) }
    {
        let size = self.variable(at)?;
        self.bytes(self.size(size)?, 256)
    }

    // Copy: to, from, u32.
    fn copy(self, at: usize) -> Result<usize, Stop>
        ensures { result ≡ walk (u32 self.entry.image.now) (walk (field_of self.entry operand) (shape (field_of self.entry operand at))) }
    {
        self.u32(self.pair(at)?)
    }

    // An instruction: its opcode, and the fields that the opcode has.
    pub fn instruction(self, at: usize) -> Result<usize, Stop>
        ensures { result ≡ shape (field_of self.entry instruction at) }
    {
        let (opcode, next) = read_number(self.image, at)?;
        match opcode {
            0 => self.label(next),
            1 => self.switch(next),
            2 | 19 => self.typed(next),
            3 => self.constant_address(next),
            4 => self.call(next),
            5 => self.optional_operand(next),
            6 => self.chosen(next, 10),
            7 => self.chosen(next, 6),
            8..=10 | 13 => self.three(next),
            11..=12 => self.chosen(next, 2),
            14..=15 => self.two(next),
            16 => self.offset(next),
            17 => self.initialize(next),
            18 => self.pair(next),
            20 => self.copy(next),
            21 => self.operand(next),
            22..=0xffff_ffff_ffff_ffff => Err(Stop {
                why: Refusal::Unknown,
                place: at,
            }),
        }
    }
}
