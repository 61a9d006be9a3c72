// The reply of kind 8 (PROFILE 3.4): the handles are written first, one by one, and then what stands in front of them.
#![tactic(auto)]

ghost use Rattle.std.specs.Prelude.{◌≡◌, ◌+◌, ◌*◌, ◌≤◌, length};
ghost use Rattle.profile.specs.Bytes.{over};
ghost use Rattle.profile.specs.Sizes.{most_slots, handle_size, handle_at};
ghost use Rattle.profile.specs.Table.{handle_of};
ghost use Rattle.buffers.specs.Over.{over_at};
ghost use Rattle.list_replies.specs.Listed.{list_start};

use codes::refusal::SUCCESS;
use profile::sizes::HANDLE_BYTES;
use profile::slot::{HANDLE_AT, KEY_AT};

// A slot's handle goes after k others. A slice, since a `Slot` asks for more bytes than the clause does.
pub fn put_handle(reply: &mut [u8], k: usize, slot: &[u8])
    requires { (5 + handle_size + handle_size * k ≤ length reply.old) × (handle_at + handle_size ≤ length slot.now) }
    ensures { reply.new ≡ over_at (5 + handle_size * k) (handle_of slot.now) reply.old }
{
    buffers::put_bytes(reply, 5 + HANDLE_BYTES * k, &slot[HANDLE_AT..KEY_AT]);
}

// The head and the byte of "more", in front of n handles, which stay.
pub fn close_list(reply: &mut [u8], n: usize, more: bool)
    requires { (n ≤ most_slots) × (5 ≤ length reply.old) }
    ensures { reply.new ≡ over (list_start n more) reply.old }
{
    // `as` is proved to lose nothing; a TryFrom would bring an Err that cannot come.
    let size = (1 + HANDLE_BYTES * n) as u16;
    let head = buffers::frame_start(8, SUCCESS, size);
    buffers::put_bytes(reply, 0, &head);
    let flag = [bits::fields::flag_byte(more)];
    buffers::put_bytes(reply, 4, &flag);
}
