// The host's calls, the live list and the image writer.
ghost use Rattle.std.specs.Prelude.{◌≡◌};
ghost use Rattle.memory.specs.Tables.{both};
ghost use Rattle.embed.specs.Called.{lent, gave, filled, listed, allocate_called, write_called, read_called, image_called, list_called};

use crate::entries::tell;
use eval::after::after_given;
use eval::entry::host_read;
use eval::host::{host_allocate, host_list, host_write};
use image_writer::writer::write_image;
use replies::words::{
    ANSWER, REGISTERS, number_of, put_reply, registers_in, reply_given, reply_read, reply_written,
    shaped,
};
use value::refusal::Refusal;

// A new allocation in the top frame; its pointer's number is the answer's count.
#[tactic(auto, unfolding(crate::specs::Called::allocate_called, replies::specs::Words::shaped_of, replies::specs::Words::registers_put, replies::specs::Words::reply_put))]
pub fn lir_allocate(
    size: usize,
    registers: &mut [u64],
    answer: &mut [u64],
    store: &mut [u8],
    frames: &mut [u64],
    bounds: &mut [u64],
    pointers: &mut [u64],
    variables: &[u64],
) -> u64
    ensures { gave result (lent registers.new answer.new store.new frames.new bounds.new pointers.new variables.now) ≡ allocate_called size (lent registers.old answer.old store.old frames.old bounds.old pointers.old variables.now) }
{
    if !shaped(registers.len(), answer.len()) {
        return Refusal::NotSound.number();
    }
    let m = registers_in(registers);
    let r = host_allocate(m, size, store, frames, bounds, pointers, variables);
    tell(after_given(r, m), reply_given(r), registers, answer)
}

// Bytes written through a pointer.
#[tactic(auto, unfolding(crate::specs::Called::write_called))]
pub fn lir_write(
    pointer: usize,
    bytes: &[u8],
    registers: &[u64],
    store: &mut [u8],
    frames: &[u64],
    bounds: &[u64],
    pointers: &[u64],
    variables: &[u64],
) -> u64
    ensures { both result store.new ≡ write_called pointer bytes.now registers.now store.old frames.now bounds.now pointers.now variables.now }
{
    if registers.len() != REGISTERS {
        return Refusal::NotSound.number();
    }
    let m = registers_in(registers);
    number_of(host_write(
        m, pointer, bytes, store, frames, bounds, pointers, variables,
    ))
}

// As many bytes as the buffer holds, read through a pointer.
#[tactic(auto, unfolding(crate::specs::Called::read_called, replies::specs::Words::shaped_of, replies::specs::Words::reply_put))]
pub fn lir_read(
    image: &[u8],
    pointer: usize,
    bytes: &mut [u8],
    registers: &[u64],
    answer: &mut [u64],
    store: &[u8],
    frames: &[u64],
    bounds: &[u64],
    pointers: &[u64],
    variables: &[u64],
) -> u64
    ensures { filled result answer.new bytes.new ≡ read_called image.now pointer bytes.old (lent registers.now answer.old store.now frames.now bounds.now pointers.now variables.now) }
{
    if !shaped(registers.len(), answer.len()) {
        return Refusal::NotSound.number();
    }
    let m = registers_in(registers);
    let r = host_read(
        image, m, pointer, bytes, store, frames, bounds, pointers, variables,
    );
    let reply = reply_read(r);
    put_reply(reply, answer);
    reply.number
}

// The live list, in four slices.
#[tactic(auto, unfolding(crate::specs::Called::list_called))]
pub fn lir_list(
    registers: &[u64],
    store: &[u8],
    frames: &[u64],
    bounds: &[u64],
    pointers: &[u64],
    variables: &[u64],
    live: &mut [u64],
    frame: &mut [u64],
    allocation: &mut [u64],
    offset: &mut [u64],
) -> u64
    ensures { listed result live.new frame.new allocation.new offset.new ≡ list_called registers.now store.now frames.now bounds.now pointers.now variables.now live.old frame.old allocation.old offset.old }
{
    if registers.len() != REGISTERS {
        return Refusal::NotSound.number();
    }
    let m = registers_in(registers);
    number_of(host_list(
        m, store, frames, bounds, pointers, variables, live, frame, allocation, offset,
    ))
}

// An image through its program back to bytes; how many is the answer's count.
#[tactic(auto, unfolding(crate::specs::Called::image_called, replies::specs::Words::reply_put))]
pub fn lir_write_image(image: &[u8], out: &mut [u8], answer: &mut [u64]) -> u64
    ensures { filled result answer.new out.new ≡ image_called image.now out.old answer.old }
{
    if answer.len() != ANSWER {
        return Refusal::NotSound.number();
    }
    let reply = reply_written(write_image(image, out));
    put_reply(reply, answer);
    reply.number
}
