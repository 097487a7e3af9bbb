// What a Call sets: its slots' variables, then what it hands over. Where all that is handed over has a value, none of it is refused, and
// no old words are kept; else each variable is set with its old words at hand.
ghost use Rattle.std.specs.Prelude.{◌≡◌, ℕ, true, ◌+◌, ◌-◌, ◌<◌, ltb, Err, Some, IsOk};
ghost use Rattle.value.specs.Refusal.{not_sound};
ghost use Rattle.value.specs.Answer.{ok, pick};
ghost use Rattle.memory.specs.Tables.{both};
ghost use Rattle.instruction.specs.Decode.{operand_at};
ghost use Rattle.instruction.specs.Variables.{read_variable, evaluated};
ghost use Rattle.calls.specs.Variables.{all_or_nothing, slots_pointed, arguments_set, context_set, pointer_set, pointer_on, slots_on, all_found, Sure};

use crate::fields::{CallFields, Callee, read_slot};
use crate::variables::{held, set_pointer, undo};
use instruction::field::{read_field, read_operand};
use instruction::variables::{Found, evaluate, read_variable, set_variable};
use value::IrType;
use value::refusal::Refusal;

// The variables of the slots take the pointers from number `first` on.
#[tactic(auto, using(crate::proofs::Sets::slot_pointed, crate::proofs::Sets::slots_done))]
fn point(image: &[u8], callee: Callee, first: usize, vars: &mut [u64])
    requires { first + callee.count < 18446744073709551616 }
    ensures { vars.new ≡ slots_pointed image.now callee.count callee.slots first vars.old }
{
    let mut at = callee.slots;
    for k in 0..callee.count {
        let slot = read_slot(image, at);
        set_variable(
            vars,
            slot.variable as usize,
            Found {
                tag: IrType::POINTER_TAG,
                bits: first as u64 + k,
            },
        );
        at = slot.next;
    }
}

// The same; nothing where a pointer's number would be past the greatest.
pub fn point_slots(image: &[u8], callee: Callee, first: usize, vars: &mut [u64])
    ensures { vars.new ≡ pick (ltb (18446744073709551615 - first) callee.count) vars.old (slots_pointed image.now callee.count callee.slots first vars.old) }
{
    if u64::MAX - (first as u64) < callee.count {
        return;
    }
    point(image, callee, first, vars);
}

// Whether `count` operands all have values.
#[tactic(auto, using(crate::proofs::Sure::all_on, crate::proofs::Sure::all_stop, crate::proofs::Sure::all_none))]
fn all_found(image: &[u8], start: usize, count: u64, vars: &[u64]) -> bool
    ensures { result ≡ all_found image.now count start vars.now }
{
    let mut at = start;
    for _ in 0..count {
        let operand = read_operand(image, at);
        if evaluate(vars, operand).is_err() {
            return false;
        }
        at = operand.next;
    }
    true
}

// Whether the return pointer, if there is one, has a value.
fn has_pointer(call: CallFields, vars: &[u64]) -> bool
    ensures { result ≡ true → (x : ℕ) → call.pointer ≡ Some x → IsOk (read_variable vars.now x) }
{
    match call.pointer {
        Some(x) => read_variable(vars, x as usize).is_ok(),
        None => true,
    }
}

// Whether the context, if there is one, has a value.
fn has_context(image: &[u8], call: CallFields, vars: &[u64]) -> bool
    ensures { result ≡ true → (at : ℕ) → call.context ≡ Some at → IsOk (evaluated vars.now (operand_at image.now at)) }
{
    match call.context {
        Some(at) => evaluate(vars, read_operand(image, at)).is_ok(),
        None => true,
    }
}

// Whether all that the Call hands over has a value as the variables stand.
fn is_sure(image: &[u8], call: CallFields, vars: &[u64]) -> bool
    ensures { result ≡ true → Sure image.now call vars.now }
{
    has_pointer(call, vars)
        && has_context(image, call, vars)
        && all_found(image, call.arguments, call.given, vars)
}

// The return pointer, if there is one, and it has a value.
#[tactic(auto, unfolding(crate::specs::Variables::pointer_set, crate::specs::Variables::found_set))]
fn put_pointer(call: CallFields, callee: Callee, vars: &mut [u64])
    requires { (x : ℕ) → call.pointer ≡ Some x → IsOk (read_variable vars.old x) }
    ensures { pointer_set call callee vars.old ≡ ok vars.new }
{
    if let Some(x) = call.pointer {
        let v = read_variable(vars, x as usize).unwrap();
        set_variable(vars, callee.result as usize, v);
    }
}

// The context, if there is one, and it has a value.
#[tactic(auto, unfolding(crate::specs::Variables::context_set, crate::specs::Variables::found_set))]
fn put_context(image: &[u8], call: CallFields, callee: Callee, vars: &mut [u64])
    requires { (at : ℕ) → call.context ≡ Some at → IsOk (evaluated vars.old (operand_at image.now at)) }
    ensures { context_set image.now call callee vars.old ≡ ok vars.new }
{
    if let Some(at) = call.context {
        let v = evaluate(vars, read_operand(image, at)).unwrap();
        set_variable(vars, callee.context as usize, v);
    }
}

// The arguments, which all have values.
#[tactic(auto, using(crate::proofs::Sure::all_first, crate::proofs::Sure::argument_put, crate::proofs::Sets::argument_set, crate::proofs::Sets::unwanted_done, crate::proofs::Sets::missing_done))]
fn put_arguments(image: &[u8], call: CallFields, callee: Callee, vars: &mut [u64])
    requires { all_found image.now call.given call.arguments vars.old ≡ true }
    ensures { arguments_set image.now callee.wanted callee.parameters call.given call.arguments vars.old ≡ ok vars.new }
{
    let mut parameter = callee.parameters;
    let mut argument = call.arguments;
    for _ in 0..callee.wanted.min(call.given) {
        let to = read_field(image, parameter);
        let from = read_operand(image, argument);
        let v = evaluate(vars, from).unwrap();
        set_variable(vars, to.value as usize, v);
        parameter = to.next;
        argument = from.next;
    }
}

// All that a sure Call hands over.
#[tactic(auto, using(crate::proofs::Sure::sure_context, crate::proofs::Sure::sure_arguments, crate::proofs::Sure::handed))]
fn put_handed(image: &[u8], call: CallFields, callee: Callee, vars: &mut [u64])
    requires { Sure image.now call vars.old }
    ensures { pointer_on image.now call callee vars.old ≡ ok vars.new }
{
    put_pointer(call, callee, vars);
    put_context(image, call, callee, vars);
    put_arguments(image, call, callee, vars);
}

// The variables of `left` slots take the pointers from `number` on; then the return pointer, the context and the arguments.
#[tactic(auto, using(crate::proofs::Sets::slots_none))]
fn set_slots(
    image: &[u8],
    call: CallFields,
    callee: Callee,
    at: usize,
    left: u64,
    number: usize,
    vars: &mut [u64],
) -> Result<(), Refusal>
    requires { number + left < 18446744073709551616 }
    ensures { both result vars.new ≡ all_or_nothing vars.old (slots_on image.now call callee left at number vars.old) }
{
    if left == 0 {
        return set_pointer(image, call, callee, vars);
    }
    let slot = read_slot(image, at);
    let x = slot.variable as usize;
    let old = held(vars, x);
    set_variable(
        vars,
        x,
        Found {
            tag: IrType::POINTER_TAG,
            bits: number as u64,
        },
    );
    let rest = set_slots(image, call, callee, slot.next, left - 1, number + 1, vars);
    undo(vars, x, old, rest)
}

// The variables of the slots, whose pointers are those from `first` on, then the return pointer, the context and the arguments: all, or nothing.
#[tactic(auto, using(crate::proofs::Sure::sure_pointed, crate::proofs::Sure::handed_all))]
pub fn set_all(
    image: &[u8],
    call: CallFields,
    callee: Callee,
    first: usize,
    vars: &mut [u64],
) -> Result<(), Refusal>
    ensures { both result vars.new ≡ pick (ltb (18446744073709551615 - first) callee.count) (both (Err not_sound) vars.old) (all_or_nothing vars.old (slots_on image.now call callee callee.count callee.slots first vars.old)) }
{
    if u64::MAX - (first as u64) < callee.count {
        return Err(Refusal::NotSound);
    }
    if is_sure(image, call, vars) {
        point(image, callee, first, vars);
        put_handed(image, call, callee, vars);
        return Ok(());
    }
    let at = callee.slots;
    let left = callee.count;
    set_slots(image, call, callee, at, left, first, vars)
}
