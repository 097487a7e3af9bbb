// A Call's variables, each set before the next is read. Where one is refused, those before it get their old words back
// on the way out, so that a refusal leaves the table as it stood.
ghost use Rattle.std.specs.Prelude.{◌≡◌};
ghost use Rattle.memory.specs.Tables.{both};
ghost use Rattle.calls.specs.Variables.{held_of, undone_of, all_or_nothing, arguments_set, context_on, pointer_on};

use crate::fields::{CallFields, Callee};
use instruction::field::{read_field, read_operand};
use instruction::variables::{Found, evaluate, read_variable, set_variable};
use value::refusal::Refusal;

// A variable's two words as they stand.
#[tactic(auto, unfolding(crate::specs::Variables::held_of))]
pub fn held(vars: &[u64], x: usize) -> Found
    ensures { result ≡ held_of vars.now x }
{
    if x < vars.len() / 2 {
        let at = x * 2;
        return Found {
            tag: vars[at],
            bits: vars[at + 1],
        };
    }
    Found { tag: 0, bits: 0 }
}

// Where the rest was refused, the variable gets its old words back.
pub fn undo(
    vars: &mut [u64],
    x: usize,
    old: Found,
    rest: Result<(), Refusal>,
) -> Result<(), Refusal>
    ensures { both result vars.new ≡ undone_of vars.old x old rest }
{
    match rest {
        Ok(()) => Ok(()),
        Err(n) => {
            set_variable(vars, x, old);
            Err(n)
        }
    }
}

// The arguments: spare ones are not evaluated, missing ones leave the old value.
#[tactic(auto, using(crate::proofs::Sets::arguments_refused, crate::proofs::Sets::arguments_unwanted, crate::proofs::Sets::arguments_missing), unfolding(crate::specs::Variables::all_or_nothing))]
pub fn set_arguments(
    image: &[u8],
    parameters: usize,
    wanted: u64,
    arguments: usize,
    given: u64,
    vars: &mut [u64],
) -> Result<(), Refusal>
    ensures { both result vars.new ≡ all_or_nothing vars.old (arguments_set image.now wanted parameters given arguments vars.old) }
{
    if wanted == 0 {
        return Ok(());
    }
    if given == 0 {
        return Ok(());
    }
    let to = read_field(image, parameters);
    let from = read_operand(image, arguments);
    let v = evaluate(vars, from)?;
    let x = to.value as usize;
    let old = held(vars, x);
    set_variable(vars, x, v);
    let rest = set_arguments(image, to.next, wanted - 1, from.next, given - 1, vars);
    undo(vars, x, old, rest)
}

// The context, if there is one, then the arguments.
#[tactic(auto, using(crate::proofs::Sets::context_none, crate::proofs::Sets::context_refused), unfolding(crate::specs::Variables::all_or_nothing))]
pub fn set_context(
    image: &[u8],
    call: CallFields,
    callee: Callee,
    vars: &mut [u64],
) -> Result<(), Refusal>
    ensures { both result vars.new ≡ all_or_nothing vars.old (context_on image.now call callee vars.old) }
{
    let Some(at) = call.context else {
        return set_arguments(
            image,
            callee.parameters,
            callee.wanted,
            call.arguments,
            call.given,
            vars,
        );
    };
    let v = evaluate(vars, read_operand(image, at))?;
    let x = callee.context as usize;
    let old = held(vars, x);
    set_variable(vars, x, v);
    let rest = set_arguments(
        image,
        callee.parameters,
        callee.wanted,
        call.arguments,
        call.given,
        vars,
    );
    undo(vars, x, old, rest)
}

// The return pointer, if there is one, then the context and the arguments.
#[tactic(auto, using(crate::proofs::Sets::pointer_none, crate::proofs::Sets::pointer_refused), unfolding(crate::specs::Variables::all_or_nothing))]
pub fn set_pointer(
    image: &[u8],
    call: CallFields,
    callee: Callee,
    vars: &mut [u64],
) -> Result<(), Refusal>
    ensures { both result vars.new ≡ all_or_nothing vars.old (pointer_on image.now call callee vars.old) }
{
    let Some(pointer) = call.pointer else {
        return set_context(image, call, callee, vars);
    };
    let v = read_variable(vars, pointer as usize)?;
    let x = callee.result as usize;
    let old = held(vars, x);
    set_variable(vars, x, v);
    let rest = set_context(image, call, callee, vars);
    undo(vars, x, old, rest)
}
