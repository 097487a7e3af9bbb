// The host's calls, the live list and the image writer.
ghost use Rattle.std.specs.Prelude.{◌≡◌};
ghost use Rattle.memory.specs.Tables.{both};
ghost use Rattle.embed.specs.Called.{lent, gave, filled, listed, allocate_called, write_called, read_called, image_called, list_called};

// A new allocation in the top frame; its pointer's number is the answer's count.
#[unsafe(no_mangle)]
pub extern "C" fn lir_allocate(
    size: usize,
    registers: &mut [u64],
    answer: &mut [u64],
    store: &mut [u8],
    frames: &mut [u64],
    bounds: &mut [u64],
    pointers: &mut [u64],
    variables: &[u64],
) -> u64
    ensures { gave result (lent registers.new answer.new store.new frames.new bounds.new pointers.new variables.now) ≡ allocate_called size (lent registers.old answer.old store.old frames.old bounds.old pointers.old variables.now) }
{
    embed::host::lir_allocate(
        size, registers, answer, store, frames, bounds, pointers, variables,
    )
}

// Bytes written through a pointer.
#[unsafe(no_mangle)]
pub extern "C" fn lir_write(
    pointer: usize,
    bytes: &[u8],
    registers: &[u64],
    store: &mut [u8],
    frames: &[u64],
    bounds: &[u64],
    pointers: &[u64],
    variables: &[u64],
) -> u64
    ensures { both result store.new ≡ write_called pointer bytes.now registers.now store.old frames.now bounds.now pointers.now variables.now }
{
    embed::host::lir_write(
        pointer, bytes, registers, store, frames, bounds, pointers, variables,
    )
}

// As many bytes as the buffer holds, read through a pointer.
#[unsafe(no_mangle)]
pub extern "C" fn lir_read(
    image: &[u8],
    pointer: usize,
    bytes: &mut [u8],
    registers: &[u64],
    answer: &mut [u64],
    store: &[u8],
    frames: &[u64],
    bounds: &[u64],
    pointers: &[u64],
    variables: &[u64],
) -> u64
    ensures { filled result answer.new bytes.new ≡ read_called image.now pointer bytes.old (lent registers.now answer.old store.now frames.now bounds.now pointers.now variables.now) }
{
    embed::host::lir_read(
        image, pointer, bytes, registers, answer, store, frames, bounds, pointers, variables,
    )
}

// The live list, in four slices.
#[unsafe(no_mangle)]
pub extern "C" fn lir_list(
    registers: &[u64],
    store: &[u8],
    frames: &[u64],
    bounds: &[u64],
    pointers: &[u64],
    variables: &[u64],
    live: &mut [u64],
    frame: &mut [u64],
    allocation: &mut [u64],
    offset: &mut [u64],
) -> u64
    ensures { listed result live.new frame.new allocation.new offset.new ≡ list_called registers.now store.now frames.now bounds.now pointers.now variables.now live.old frame.old allocation.old offset.old }
{
    embed::host::lir_list(
        registers, store, frames, bounds, pointers, variables, live, frame, allocation, offset,
    )
}

// An image through its program back to bytes; how many is the answer's count.
#[unsafe(no_mangle)]
pub extern "C" fn lir_write_image(image: &[u8], out: &mut [u8], answer: &mut [u64]) -> u64
    ensures { filled result answer.new out.new ≡ image_called image.now out.old answer.old }
{
    embed::host::lir_write_image(image, out, answer)
}
