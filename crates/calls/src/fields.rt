// The fields of a Call and of its callee, read again at their places. A place after them that is 0 means refused.
ghost use Rattle.std.specs.Prelude.{◌≡◌};
ghost use Rattle.calls.specs.Fields.{numbers_skipped, operands_skipped, optional_variable, optional_to, optional_operand, slot_at, call_at, place_in, callee_at, entry_of};

use instruction::field::{Field, read_field, read_operand};
use memory::MAX_VARIABLES;
use value::refusal::Refusal;

// Where an optional operand stands, if there is one, and the place after it.
#[derive(Clone, Copy, Debug, PartialEq, Eq)]
pub struct Spot {
    pub start: Option<usize>,
    pub next: usize,
}

// A slot's variable and size, and the place after it.
#[derive(Clone, Copy, Debug, PartialEq, Eq)]
pub struct Slot {
    pub variable: u64,
    pub size: u64,
    pub next: usize,
}

// to: the variable that takes the result + 1, or 0 for none, as the frame's record keeps it; context: where its operand stands, if there is one;
// callee: the function's number; given: how many arguments; arguments: where the first stands;
// pointer: the return-pointer variable, if there is one; next: the place after the fields
#[derive(Clone, Copy, Debug, PartialEq, Eq)]
pub struct CallFields {
    pub to: u64,
    pub context: Option<usize>,
    pub callee: u64,
    pub given: u64,
    pub arguments: usize,
    pub pointer: Option<u64>,
    pub next: usize,
}

// entry: a label; result, context: the return and the context variable; flag: the return-pointer flag;
// wanted: how many parameters; parameters: where the first stands; count: how many slots; slots: where the first stands, 0 where refused
#[derive(Clone, Copy, Debug, PartialEq, Eq)]
pub struct Callee {
    pub entry: u64,
    pub result: u64,
    pub context: u64,
    pub flag: u64,
    pub wanted: u64,
    pub parameters: usize,
    pub count: u64,
    pub slots: usize,
}

// The place after `count` numbers.
#[tactic(auto, using(crate::proofs::Laws::number_passed, crate::proofs::Laws::numbers_passed))]
pub fn skip_numbers(image: &[u8], start: usize, count: u64) -> usize
    ensures { result ≡ numbers_skipped image.now count start }
{
    let mut at = start;
    for _ in 0..count {
        at = read_field(image, at).next;
    }
    at
}

// The place after `count` operands.
#[tactic(auto, using(crate::proofs::Laws::operand_passed, crate::proofs::Laws::operands_passed))]
pub fn skip_operands(image: &[u8], start: usize, count: u64) -> usize
    ensures { result ≡ operands_skipped image.now count start }
{
    let mut at = start;
    for _ in 0..count {
        at = read_operand(image, at).next;
    }
    at
}

// An optional variable: its number + 1, or 0 for none.
#[tactic(auto, unfolding(crate::specs::Fields::optional_variable, crate::specs::Fields::one_more))]
pub fn optional_variable(image: &[u8], at: usize) -> Field
    ensures { result ≡ optional_variable image.now at }
{
    let mark = read_field(image, at);
    if mark.value == 0 {
        return mark;
    }
    let variable = read_field(image, mark.next);
    if MAX_VARIABLES <= variable.value {
        return Field { value: 0, next: 0 };
    }
    Field {
        value: variable.value + 1,
        next: variable.next,
    }
}

// An optional (to, type): the variable's number + 1, or 0 for none. The type is passed over.
#[tactic(auto, unfolding(crate::specs::Fields::optional_to))]
pub fn optional_to(image: &[u8], at: usize) -> Field
    ensures { result ≡ optional_to image.now at }
{
    let to = optional_variable(image, at);
    if to.value == 0 {
        return to;
    }
    let declared = read_field(image, to.next);
    Field {
        value: to.value,
        next: declared.next,
    }
}

#[tactic(auto, unfolding(crate::specs::Fields::optional_operand))]
pub fn optional_operand(image: &[u8], at: usize) -> Spot
    ensures { result ≡ optional_operand image.now at }
{
    let mark = read_field(image, at);
    if mark.value == 0 {
        return Spot {
            start: None,
            next: mark.next,
        };
    }
    let operand = read_operand(image, mark.next);
    Spot {
        start: Some(mark.next),
        next: operand.next,
    }
}

#[tactic(auto, unfolding(crate::specs::Fields::slot_at))]
pub fn read_slot(image: &[u8], at: usize) -> Slot
    ensures { result ≡ slot_at image.now at }
{
    let variable = read_field(image, at);
    let size = read_field(image, variable.next);
    Slot {
        variable: variable.value,
        size: size.value,
        next: size.next,
    }
}

// Call: optional (to, type), optional context operand, function, count and operands, optional return-pointer variable.
#[tactic(auto, unfolding(crate::specs::Fields::call_at))]
pub fn read_call(image: &[u8], at: usize) -> CallFields
    ensures { result ≡ call_at image.now at }
{
    let to = optional_to(image, at);
    let context = optional_operand(image, to.next);
    let callee = read_field(image, context.next);
    let given = read_field(image, callee.next);
    let after = skip_operands(image, given.next, given.value);
    let pointer = optional_variable(image, after);
    CallFields {
        to: to.value,
        context: context.start,
        callee: callee.value,
        given: given.value,
        arguments: given.next,
        pointer: pointer.value.checked_sub(1),
        next: pointer.next,
    }
}

// Where a function stands in the image; 0 where there is none.
#[tactic(auto, unfolding(crate::specs::Fields::place_in))]
pub fn place_in(functions: &[usize], number: u64) -> usize
    ensures { result ≡ place_in functions.now number }
{
    functions.get(number as usize).copied().unwrap_or(0)
}

// A function: kind, entry label, return variable, context variable, flag, parameters, slots.
#[tactic(auto, unfolding(crate::specs::Fields::callee_at))]
pub fn read_callee(image: &[u8], at: usize) -> Callee
    ensures { result ≡ callee_at image.now at }
{
    let kind = read_field(image, at);
    let entry = read_field(image, kind.next);
    let result = read_field(image, entry.next);
    let context = read_field(image, result.next);
    let flag = read_field(image, context.next);
    let wanted = read_field(image, flag.next);
    let after = skip_numbers(image, wanted.next, wanted.value);
    let count = read_field(image, after);
    Callee {
        entry: entry.value,
        result: result.value,
        context: context.value,
        flag: flag.value,
        wanted: wanted.value,
        parameters: wanted.next,
        count: count.value,
        slots: count.next,
    }
}

// The place of the callee's entry label. An accepted image has no other labels.
#[tactic(auto, unfolding(crate::specs::Fields::entry_of))]
pub fn entry_place(labels: &[usize], callee: Callee) -> Result<usize, Refusal>
    ensures { result ≡ entry_of labels.now callee }
{
    if callee.slots == 0 {
        return Err(Refusal::NoInstruction);
    }
    labels
        .get(callee.entry as usize)
        .copied()
        .ok_or(Refusal::NoInstruction)
}
