// Fresh memory, start, step and run.
ghost use Rattle.std.specs.Prelude.{◌≡◌};
ghost use Rattle.instruction.specs.Variables.{found};
ghost use Rattle.replies.specs.Words.{registers_put, reply_put};
ghost use Rattle.embed.specs.Called.{lent, gave, fresh_called, start_called, step_called, run_called};

use eval::after::{after_entered, after_moved, after_run};
use eval::entry::{run, step};
use eval::start::start;
use instruction::variables::Found;
use memory::{Registers, fresh};
use replies::words::{
    Reply, put_registers, put_reply, registers_in, reply_entered, reply_moved, reply_run, shaped,
};
use value::refusal::Refusal;

// Registers and reply as words, and the reply's number.
pub(crate) fn tell(m: Registers, reply: Reply, registers: &mut [u64], answer: &mut [u64]) -> u64
    ensures { (result ≡ reply.number) × (registers.new ≡ registers_put m registers.old) × (answer.new ≡ reply_put reply answer.old) }
{
    put_registers(m, registers);
    put_reply(reply, answer);
    reply.number
}

// Fresh memory in the tables.
#[tactic(auto, unfolding(crate::specs::Called::fresh_called, replies::specs::Words::shaped_of, replies::specs::Words::registers_put, replies::specs::Words::reply_put))]
pub fn lir_fresh(
    registers: &mut [u64],
    answer: &mut [u64],
    store: &mut [u8],
    frames: &mut [u64],
    bounds: &mut [u64],
    pointers: &mut [u64],
    variables: &mut [u64],
) -> u64
    ensures { gave result (lent registers.new answer.new store.new frames.new bounds.new pointers.new variables.new) ≡ fresh_called (lent registers.old answer.old store.old frames.old bounds.old pointers.old variables.old) }
{
    if !shaped(registers.len(), answer.len()) {
        return Refusal::NotSound.number();
    }
    let m = registers_in(registers);
    let r = fresh(store, frames, bounds, pointers, variables);
    tell(after_moved(r, m), reply_moved(r), registers, answer)
}

// The function with this number begins, with a context and arguments as tags and bits.
#[tactic(auto, unfolding(crate::specs::Called::start_called, replies::specs::Words::shaped_of, replies::specs::Words::registers_put, replies::specs::Words::reply_put))]
pub fn lir_start(
    image: &[u8],
    function: u64,
    context_tag: u64,
    context_bits: u64,
    tags: &[u64],
    bits: &[u64],
    registers: &mut [u64],
    answer: &mut [u64],
    store: &mut [u8],
    frames: &mut [u64],
    bounds: &mut [u64],
    pointers: &mut [u64],
    variables: &mut [u64],
) -> u64
    ensures { gave result (lent registers.new answer.new store.new frames.new bounds.new pointers.new variables.new) ≡ start_called image.now function (found context_tag context_bits) tags.now bits.now (lent registers.old answer.old store.old frames.old bounds.old pointers.old variables.old) }
{
    if !shaped(registers.len(), answer.len()) {
        return Refusal::NotSound.number();
    }
    let m = registers_in(registers);
    let context = Found {
        tag: context_tag,
        bits: context_bits,
    };
    let r = start(
        image, function, context, tags, bits, m, store, frames, bounds, pointers, variables,
    );
    tell(after_entered(r, m), reply_entered(r), registers, answer)
}

// One step.
#[tactic(auto, unfolding(crate::specs::Called::step_called, replies::specs::Words::shaped_of, replies::specs::Words::registers_put, replies::specs::Words::reply_put))]
pub fn lir_step(
    image: &[u8],
    registers: &mut [u64],
    answer: &mut [u64],
    store: &mut [u8],
    frames: &mut [u64],
    bounds: &mut [u64],
    pointers: &mut [u64],
    variables: &mut [u64],
) -> u64
    ensures { gave result (lent registers.new answer.new store.new frames.new bounds.new pointers.new variables.new) ≡ step_called image.now (lent registers.old answer.old store.old frames.old bounds.old pointers.old variables.old) }
{
    if !shaped(registers.len(), answer.len()) {
        return Refusal::NotSound.number();
    }
    let m = registers_in(registers);
    let r = step(image, m, store, frames, bounds, pointers, variables);
    tell(after_entered(r, m), reply_entered(r), registers, answer)
}

// Steps until the budget is spent, the run returns, or an instruction is refused.
#[tactic(auto, unfolding(crate::specs::Called::run_called, replies::specs::Words::shaped_of, replies::specs::Words::registers_put, replies::specs::Words::reply_put))]
pub fn lir_run(
    image: &[u8],
    budget: u32,
    registers: &mut [u64],
    answer: &mut [u64],
    store: &mut [u8],
    frames: &mut [u64],
    bounds: &mut [u64],
    pointers: &mut [u64],
    variables: &mut [u64],
) -> u64
    ensures { gave result (lent registers.new answer.new store.new frames.new bounds.new pointers.new variables.new) ≡ run_called image.now budget (lent registers.old answer.old store.old frames.old bounds.old pointers.old variables.old) }
{
    if !shaped(registers.len(), answer.len()) {
        return Refusal::NotSound.number();
    }
    let m = registers_in(registers);
    let r = run(image, budget, m, store, frames, bounds, pointers, variables);
    tell(after_run(r, m), reply_run(r), registers, answer)
}
