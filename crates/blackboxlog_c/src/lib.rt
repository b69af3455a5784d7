// What C and Rust link: an export for each function of the crate `blackboxlog` that they call, which calls it and promises the same. (Twice,
// since C needs exports, and a crate is a library or a static library, and not both.)
// include/blackboxlog.h says in words what each does.
#![tactic(auto)]

ghost use Rattle.std.specs.Prelude.{◌≡◌, List, [], ℕ, Err};
ghost use lib.ListN.{length};
ghost use Rattle.crc64.specs.Crc64.{crc_of};
ghost use Rattle.device.specs.Word.{le};
ghost use Rattle.carrier.specs.Plan.{bytes_at, part_at, step_in, carried, leaves};
ghost use Rattle.record_log.specs.Log.{append, advance};
ghost use Rattle.record_log.specs.Opening.{open_of};
ghost use Rattle.record_log.specs.Operations.{plan_of, append_of, advance_of, read_of, read_into, ask_of, set_up_of, set_up_plan};
ghost use Rattle.operations.specs.Planning.{plan_words, if_room, Planned};
ghost use Rattle.blackboxlog.specs.Replies.{kept, handle_of, if_known, bad_handle, opened_reply, set_up_reply, appended_reply, advanced_reply, got_reply, numbers_reply, step_reply, bytes_put};
ghost use Rattle.record_log.specs.declared.Refused.{Refused};

use blackboxlog::{Kept, Reply, Stepped};

// The checksum of bytes.
#[unsafe(no_mangle)]
pub extern "C" fn bbl_crc64(bytes: &[u8]) -> u64
    ensures { result ≡ crc_of bytes.now }
{
    blackboxlog::bbl_crc64(bytes)
}

// What stands on a medium.
#[unsafe(no_mangle)]
pub extern "C" fn bbl_open(medium: &[u8]) -> Reply
    ensures { result ≡ opened_reply (open_of medium.now) }
{
    blackboxlog::bbl_open(medium)
}

// A plan to set up the medium.
#[unsafe(no_mangle)]
pub extern "C" fn bbl_plan_setup(medium: &[u8], plan: &mut [u64]) -> Reply
    ensures { (result ≡ set_up_reply (if_room plan.old (Err (Refused.ShortPlan plan_words)) (set_up_of (length medium.now))) result.steps) × ((b : List ℕ) → Planned plan.old b (if_room plan.old [] (set_up_plan (length medium.now))) result.steps plan.new) }
{
    blackboxlog::bbl_plan_setup(medium, plan)
}

// A plan to append `length` bytes. The handle comes as its four numbers: handed over as a struct it would be copied in pieces of 16 bytes that
// were written in pieces of 8, for which a processor waits, and the next append with it.
#[unsafe(no_mangle)]
pub extern "C" fn bbl_plan_append_of(
    medium: &[u8],
    live: u64,
    head: u64,
    tail: u64,
    size: u64,
    length: u64,
    plan: &mut [u64],
) -> Reply
    ensures { (b : List ℕ) → lib.ListN.length b ≡ length → (result ≡ if_known (kept live head tail size) (appended_reply (if_room plan.old (Err (Refused.ShortPlan plan_words)) (append_of (handle_of (kept live head tail size)) b (lib.ListN.length medium.now))) result.steps) bad_handle) × Planned plan.old b (if_known (kept live head tail size) (if_room plan.old [] (plan_of (handle_of (kept live head tail size)) (append b) medium.now)) []) result.steps plan.new }
{
    blackboxlog::bbl_plan_append_of(medium, live, head, tail, size, length, plan)
}

// A plan to advance the head to a position.
#[unsafe(no_mangle)]
pub extern "C" fn bbl_plan_advance(
    medium: &[u8],
    handle: Kept,
    position: u64,
    plan: &mut [u64],
) -> Reply
    ensures { (b : List ℕ) → (result ≡ if_known handle (advanced_reply (if_room plan.old (Err (Refused.ShortPlan plan_words)) (advance_of (handle_of handle) position (length medium.now))) result.steps) bad_handle) × Planned plan.old b (if_known handle (if_room plan.old [] (plan_of (handle_of handle) (advance position) medium.now)) []) result.steps plan.new }
{
    blackboxlog::bbl_plan_advance(medium, handle, position, plan)
}

// One step of a plan: at most one write.
#[unsafe(no_mangle)]
pub extern "C" fn bbl_step(medium: &mut [u8], plan: &[u64], bytes: &[u8], i: u64) -> Stepped
    ensures { (result ≡ step_reply (carried medium.old (step_in plan.now bytes.now i))) × (medium.new ≡ leaves medium.old (step_in plan.now bytes.now i)) }
{
    blackboxlog::bbl_step(medium, plan, bytes, i)
}

// Puts the bytes from a to b at a place: what `bbl_step` does where the step's kind is 1. How many bytes were put: none if they are not
// there or do not fit.
#[unsafe(no_mangle)]
pub extern "C" fn bbl_put_bytes(medium: &mut [u8], at: u64, bytes: &[u8], a: u64, b: u64) -> u64
    ensures { (result ≡ bytes_put (carried medium.old (part_at at a b bytes.now))) × (medium.new ≡ leaves medium.old (part_at at a b bytes.now)) }
{
    blackboxlog::bbl_put_bytes(medium, at, bytes, a, b)
}

// Puts a number: what `bbl_step` does where the step's kind is 2. How many bytes were put: eight, or none if they do not fit.
#[unsafe(no_mangle)]
pub extern "C" fn bbl_put_number(medium: &mut [u8], at: u64, x: u64) -> u64
    ensures { (result ≡ bytes_put (carried medium.old (bytes_at at (le x)))) × (medium.new ≡ leaves medium.old (bytes_at at (le x))) }
{
    blackboxlog::bbl_put_number(medium, at, x)
}

// The bytes from a position on, as many as `out` has.
#[unsafe(no_mangle)]
pub extern "C" fn bbl_read(medium: &[u8], handle: Kept, position: u64, out: &mut [u8]) -> Reply
    ensures { (result ≡ if_known handle (got_reply (read_of (handle_of handle) position (length out.old) (length medium.now))) bad_handle) × (out.new ≡ if_known handle (read_into medium.now (handle_of handle) position out.old) out.old) }
{
    blackboxlog::bbl_read(medium, handle, position, out)
}

// Head, tail and capacity.
#[unsafe(no_mangle)]
pub extern "C" fn bbl_ask(medium: &[u8], handle: Kept) -> Reply
    ensures { result ≡ if_known handle (numbers_reply (ask_of (handle_of handle) (length medium.now))) bad_handle }
{
    blackboxlog::bbl_ask(medium, handle)
}
