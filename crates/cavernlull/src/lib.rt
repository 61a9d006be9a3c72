// What a front end or a device links: eight functions under C's calling convention, declared for C in include/cavernlull.h. In C a slice is
// a pointer and then a length, and an array is a pointer. Any bytes and any lengths may be lent. What is lent to be changed shares no byte
// with anything else that is lent in the same call.
#![tactic(auto)]

use crate::numbers::REPLY_NUMBERS;
use codes::fault::{self, DONE, Fault};
use listing::LISTING_ROOM;
use profile::Tally;
use profile::sizes::{HANDLE_BYTES, KEY_BYTES};
use request_fields::Fields;

mod numbers; // numbers.rt: a reply as eleven numbers

ghost use Rattle.std.specs.Prelude.{◌≡◌, length};
ghost use Rattle.profile.specs.Agent.{agent as agent_of};
ghost use Rattle.profile.specs.Bytes.{over};
ghost use Rattle.profile.specs.Device.{fields_with, write};
ghost use Rattle.profile.specs.Listing.{listing};
ghost use Rattle.profile.specs.Salvage.{salvage as salvage_of};
ghost use Rattle.profile.specs.Tally.{tallied, work_out};
ghost use Rattle.profile.specs.Total.{totals_with, totals_hold, totalling};
ghost use Rattle.profile.specs.Turning.{turn as turn_of};
ghost use Rattle.serving.specs.Call.{outcome, call_of};
ghost use Rattle.request_writer.specs.Writing.{wrote};
ghost use Rattle.salvage.specs.Salvages.{salvaged};
ghost use Rattle.totals.specs.Returns.{totalled};
ghost use Rattle.turning.specs.Turns.{turned};
ghost use Rattle.cavernlull.specs.Numbers.{left, ReadsInto};

// The card agent (PROFILE 1.1): answers one request frame. A setup searches for an empty slot from `start`. With 0 the reply stands at the
// start of `reply`, whose other bytes stay, `table` is as the request leaves it, and `tally` is the tally of that table. With 101 to 106
// (PROFILE 4.1) nothing is changed.
#[unsafe(no_mangle)]
pub extern "C" fn cavernlull_call(
    table: &mut [u8],
    tally: &mut Tally,
    start: usize,
    frame: &[u8],
    reply: &mut [u8],
) -> u16
    ensures { outcome result reply.new table.new tally.new ≡ agent_of table.old (call_of tally.old start frame.now reply.old) }
{
    match agent::call(table, *tally, start, frame, reply) {
        Ok(called) => {
            *tally = called.tally;
            DONE
        }
        Err(fault) => fault.number(),
    }
}

// Whether there is room for one more return in the totals (PROFILE 4.5). It is tested before the tally is copied, and apart from the call, so that
// the totalling call keeps fewer values on the stack.
#[inline(never)]
fn has_room(total: &i32, returns: &u16) -> bool
    ensures { result ≡ totals_hold (totals_with total.now returns.now) }
{
    totals::total::holds(*total, *returns)
}

// The totalling call (PROFILE 4.5): one call, and what its return did to a count, added to a running total. With 108 nothing is changed. With
// every other number but 0 total and returns stay, and the change is 0.
#[unsafe(no_mangle)]
pub extern "C" fn cavernlull_call_totalling(
    table: &mut [u8],
    tally: &mut Tally,
    start: usize,
    frame: &[u8],
    reply: &mut [u8],
    total: &mut i32,
    returns: &mut u16,
    change: &mut i32,
) -> u16
    ensures { totalled (outcome result reply.new table.new tally.new) total.new returns.new change.new ≡ totalling table.old (call_of tally.old start frame.now reply.old) (totals_with total.old returns.old) change.old }
{
    if !has_room(total, returns) {
        return Fault::TotalOutside.number();
    }
    match totals::counted_call(table, *tally, start, frame, reply, total, returns, change) {
        Ok(after) => {
            *tally = after;
            DONE
        }
        Err(fault) => fault.number(),
    }
}

// Works out the tally of a table (PROFILE 2.8), whatever numbers `tally` has. With 102 and 103 nothing is changed.
#[unsafe(no_mangle)]
pub extern "C" fn cavernlull_tally(table: &[u8], tally: &mut Tally) -> u16
    ensures { tallied result tally.new ≡ work_out table.now tally.old }
{
    match tallies::work_out(table) {
        Ok(worked) => {
            *tally = worked;
            DONE
        }
        Err(fault) => fault.number(),
    }
}

// The request writer of a device (PROFILE 6.2): takes a kind and the fields of all kinds, of which those that the kind lacks must be zero or
// empty. A count is a number and, beside it, whether one is kept. With 0 the frame stands at the start of `out`, whose other bytes stay. With 202 or 201 nothing is changed.
#[unsafe(no_mangle)]
pub extern "C" fn cavernlull_write_request(
    kind: u8,
    handle: &[u8; HANDLE_BYTES],
    new: &[u8; HANDLE_BYTES],
    key: &[u8; KEY_BYTES],
    room: u16,
    count: u16,
    kept: u8,
    limit: u16,
    hashes: &[u8],
    payload: &[u8],
    out: &mut [u8],
) -> u16
    ensures { wrote result out.new ≡ write kind (fields_with handle.now new.now key.now room count kept limit hashes.now payload.now) out.old }
{
    let fields = Fields {
        handle: *handle,
        new: *new,
        key: *key,
        room,
        count,
        kept,
        limit,
        hashes,
        payload,
    };
    fault::number_of(request_writer::writer::write_request(kind, &fields, out))
}

// The reply reader of a device (PROFILE 6.3). With 0 the key and all eleven numbers are written: kind, status, the count's number, number of
// hashes, offset of the hashes, offset of the payload, payload length, more, number of handles, offset of the handles, whether a count is
// kept. What the reply lacks is 0. With 203 nothing is changed.
#[unsafe(no_mangle)]
pub extern "C" fn cavernlull_read_reply(
    frame: &[u8],
    key: &mut [u8; KEY_BYTES],
    fields: &mut [u16; REPLY_NUMBERS],
) -> u16
    ensures { ReadsInto frame.now key.old fields.old (left result key.new fields.new) }
{
    match reply_reader::reader::read_reply(frame) {
        Ok(told) => {
            // Locals, since an array of a field is not stored straight into what is lent.
            let told_key = told.key;
            let told_fields = crate::numbers::numbers_of(told.answer);
            *key = told_key;
            *fields = told_fields;
            DONE
        }
        Err(fault) => fault.number(),
    }
}

// Turns a table from before counts had their bit (PROFILE 2.7). With 0 each slot with a count has the bit, and no other byte is changed. With
// 102, and with 103 by the rules of then, nothing is changed.
#[unsafe(no_mangle)]
pub extern "C" fn cavernlull_turn(table: &mut [u8]) -> u16
    ensures { turned result table.new ≡ turn_of table.old }
{
    fault::number_of(turning::turn(table))
}

// Salvages a damaged table (PROFILE 2.10): gives how many slots were cleared, and byte i of `report` says what was found of slot i. Every other
// byte of both stays. With 102 and 107 nothing is changed.
#[unsafe(no_mangle)]
pub extern "C" fn cavernlull_salvage(table: &mut [u8], report: &mut [u8]) -> u16
    ensures { salvaged result table.new report.new ≡ salvage_of table.old report.old }
{
    salvage::salvage(table, report).unwrap_or_else(|fault| fault.number())
}

// The listing of a table (PROFILE 7.1 and 7.2) at the start of `out`, whose other bytes stay. It gives the listing's length, and refuses
// nothing: of bytes that are no table the listing is the line that says so.
#[unsafe(no_mangle)]
pub extern "C" fn cavernlull_list(table: &[u8], out: &mut [u8; LISTING_ROOM]) -> usize
    ensures { (result ≡ length (listing table.now)) × (out.new ≡ over (listing table.now) out.old) }
{
    listing::list(table, out)
}
