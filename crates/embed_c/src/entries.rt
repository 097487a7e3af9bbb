// Fresh memory, start, step and run.
ghost use Rattle.std.specs.Prelude.{◌≡◌};
ghost use Rattle.instruction.specs.Variables.{found};
ghost use Rattle.embed.specs.Called.{lent, gave, fresh_called, start_called, step_called, run_called};

// Fresh memory in the tables.
#[unsafe(no_mangle)]
pub extern "C" fn lir_fresh(
    registers: &mut [u64],
    answer: &mut [u64],
    store: &mut [u8],
    frames: &mut [u64],
    bounds: &mut [u64],
    pointers: &mut [u64],
    variables: &mut [u64],
) -> u64
    ensures { gave result (lent registers.new answer.new store.new frames.new bounds.new pointers.new variables.new) ≡ fresh_called (lent registers.old answer.old store.old frames.old bounds.old pointers.old variables.old) }
{
    embed::entries::lir_fresh(
        registers, answer, store, frames, bounds, pointers, variables,
    )
}

// The function with this number begins, with a context and arguments as tags and bits.
#[unsafe(no_mangle)]
pub extern "C" fn lir_start(
    image: &[u8],
    function: u64,
    context_tag: u64,
    context_bits: u64,
    tags: &[u64],
    bits: &[u64],
    registers: &mut [u64],
    answer: &mut [u64],
    store: &mut [u8],
    frames: &mut [u64],
    bounds: &mut [u64],
    pointers: &mut [u64],
    variables: &mut [u64],
) -> u64
    ensures { gave result (lent registers.new answer.new store.new frames.new bounds.new pointers.new variables.new) ≡ start_called image.now function (found context_tag context_bits) tags.now bits.now (lent registers.old answer.old store.old frames.old bounds.old pointers.old variables.old) }
{
    embed::entries::lir_start(
        image,
        function,
        context_tag,
        context_bits,
        tags,
        bits,
        registers,
        answer,
        store,
        frames,
        bounds,
        pointers,
        variables,
    )
}

// One step.
#[unsafe(no_mangle)]
pub extern "C" fn lir_step(
    image: &[u8],
    registers: &mut [u64],
    answer: &mut [u64],
    store: &mut [u8],
    frames: &mut [u64],
    bounds: &mut [u64],
    pointers: &mut [u64],
    variables: &mut [u64],
) -> u64
    ensures { gave result (lent registers.new answer.new store.new frames.new bounds.new pointers.new variables.new) ≡ step_called image.now (lent registers.old answer.old store.old frames.old bounds.old pointers.old variables.old) }
{
    embed::entries::lir_step(
        image, registers, answer, store, frames, bounds, pointers, variables,
    )
}

// Steps until the budget is spent, the run returns, or an instruction is refused.
#[unsafe(no_mangle)]
pub extern "C" fn lir_run(
    image: &[u8],
    budget: u32,
    registers: &mut [u64],
    answer: &mut [u64],
    store: &mut [u8],
    frames: &mut [u64],
    bounds: &mut [u64],
    pointers: &mut [u64],
    variables: &mut [u64],
) -> u64
    ensures { gave result (lent registers.new answer.new store.new frames.new bounds.new pointers.new variables.new) ≡ run_called image.now budget (lent registers.old answer.old store.old frames.old bounds.old pointers.old variables.old) }
{
    embed::entries::lir_run(
        image, budget, registers, answer, store, frames, bounds, pointers, variables,
    )
}
