//! The stack that the deepest source needs.

use std::alloc::Global;

/// The bytes of stack that the program takes before it takes memory: more than any statement needs to be read, run and
/// dropped, since a card has 1,320 bytes of text at most.
const STACK_BYTES: usize = 4 * 1024 * 1024;

/// The bytes between two that are touched: no more than a page of any system.
const PAGE_BYTES: usize = 4096;

/// Whether there is memory for the stack. It is given back at once.
fn has_room(alloc: Global) -> bool {
    let mut room: Vec<u8> = Vec::new(alloc);
    room.reserve_exact(STACK_BYTES).is_ok()
}

/// Touches the pages of that much stack. Whether each holds the mark.
#[inline(never)]
fn touch(mark: u8) -> bool {
    let mut bytes = [0; STACK_BYTES];
    for at in (0..STACK_BYTES).step_by(PAGE_BYTES) {
        bytes[at] = mark;
    }
    let mut holds = true;
    for at in (0..STACK_BYTES).step_by(PAGE_BYTES) {
        holds = holds && bytes[at] == mark;
    }
    holds
}

/// Takes the stack that the deepest source needs. Whether it could be had.
///
/// A system that has no room for one more page of stack ends the program by a signal. So the room is asked for as memory
/// first, which can be refused, and given back; then the stack is touched, and stays the program's.
pub fn take_stack(alloc: Global) -> bool {
    has_room(alloc) && touch(1)
}
