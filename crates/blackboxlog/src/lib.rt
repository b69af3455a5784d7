// The boundary: what C and Rust link, by the exports of the crate blackboxlog_c. Each function is a thin wrapper; none makes more than one
// write, so that the caller can flush between two; none has a `requires`. include/blackboxlog.h says in words what each does.
#![tactic(auto)]

ghost use Rattle.std.specs.Prelude.{◌≡◌, List, [], ℕ, Ok, Err};
ghost use lib.ListN.{length};
ghost use Rattle.crc64.specs.Crc64.{crc_of};
ghost use Rattle.device.specs.Word.{le};
ghost use Rattle.carrier.specs.Plan.{bytes_at, part_at, step_in, carried, leaves};
ghost use Rattle.record_log.specs.Log.{append, advance};
ghost use Rattle.record_log.specs.Opening.{open_of};
ghost use Rattle.record_log.specs.Operations.{plan_of, append_of, advance_of, read_of, read_into, ask_of, set_up_of, set_up_plan};
ghost use Rattle.operations.specs.Planning.{plan_words, if_room, Planned};
ghost use Rattle.blackboxlog.specs.Replies.{kept_of, said, done, kept, handle_of, if_known, known_handle, bad_handle, refused_reply, damaged_reply, opened_reply, set_up_reply, appended_reply, advanced_reply, got_reply, numbers_reply, step_reply, bytes_put, Boundary};

use carrier::Done;
use operations::{Facts, Plan};
use record_log::{Appended, Handle, Numbers, OpenError, Refused, SetUp};

// A handle as C has it: the header that is live is the first (0) or the second (1). Numbers and no enums, here and in the structs below, since
// C reads them.
#[repr(C)]
#[derive(Clone, Copy, Default)]
pub struct Kept {
    pub live: u64,
    pub head: u64,
    pub tail: u64,
    pub size: u64,
}

impl From<Handle> for Kept {
    ghost from_gives = { λ h k. k ≡ kept_of h };

    fn from(h: Handle) -> Kept {
        Kept {
            live: u64::from(h.second),
            head: h.head,
            tail: h.tail,
            size: h.size,
        }
    }
}

// Below, four functions take a handle by `let .. else`, and six make a reply of an answer or a refusal by `match`: functions that answer a Result,
// one for each, would be longer than that.
impl TryFrom<Kept> for Handle {
    type Error = Refused;

    ghost try_from_gives = { λ k r. r ≡ known_handle k };

    fn try_from(k: Kept) -> Result<Handle, Refused> {
        let second = match k.live {
            0 => false,
            1 => true,
            _ => return Err(Refused::BadHandle),
        };
        Ok(Handle {
            second,
            head: k.head,
            tail: k.tail,
            size: k.size,
        })
    }
}

// An answer: a code (include/blackboxlog.h has their names), up to two numbers, the number of steps where it is a plan, and the handle.
#[repr(C)]
#[derive(Clone, Copy)]
pub struct Reply {
    pub code: u64,
    pub number: u64,
    pub other: u64,
    pub steps: u64,
    pub handle: Kept,
}

// A code, which is C's number, and two numbers. (A function and no conversion: there is no type of such three.)
fn said(code: u64, number: u64, other: u64) -> Reply
    ensures { result ≡ said code number other }
{
    Reply {
        code,
        number,
        other,
        steps: 0,
        handle: Kept::default(),
    }
}

// It went well: a number, the steps of the plan, and the handle from now on. (As for `said`.)
fn done(number: u64, steps: u64, h: Handle) -> Reply
    ensures { result ≡ done number steps h }
{
    Reply {
        code: 0,
        number,
        other: 0,
        steps,
        handle: Kept::from(h),
    }
}

impl From<Refused> for Reply {
    ghost from_gives = { λ e r. r ≡ refused_reply e };

    fn from(e: Refused) -> Reply {
        match e {
            Refused::TooShort { required } => said(1, required, 0),
            Refused::NoRoom { room } => said(8, room, 0),
            Refused::BeforeHead { head } => said(9, head, 0),
            Refused::BeyondTail { tail } => said(10, tail, 0),
            Refused::BadHandle => said(11, 0, 0),
            Refused::ShortPlan { words } => said(12, words, 0),
        }
    }
}

impl From<OpenError> for Reply {
    ghost from_gives = { λ e r. r ≡ damaged_reply e };

    fn from(e: OpenError) -> Reply {
        match e {
            OpenError::TooShort { required } => said(1, required, 0),
            OpenError::BadSelector { found } => said(2, found, 0),
            OpenError::BadChecksum {
                second,
                stored,
                computed,
            } => Reply {
                handle: Kept {
                    live: u64::from(second),
                    ..Kept::default()
                },
                ..said(3, stored, computed)
            },
            OpenError::SizeZero => said(4, 0, 0),
            OpenError::HeadPastTail { head, tail } => said(5, head, tail),
            OpenError::TooFull { head, tail, size } => Reply {
                handle: Kept {
                    size,
                    ..Kept::default()
                },
                ..said(6, head, tail)
            },
            OpenError::WrongSize { size, ring } => said(7, size, ring),
        }
    }
}

// What a step did: put so many bytes at a place (0), asked for a flush (1), or was refused (2).
#[repr(C)]
#[derive(Clone, Copy)]
pub struct Stepped {
    pub code: u64,
    pub at: u64,
    pub length: u64,
}

impl From<Option<Done>> for Stepped {
    ghost from_gives = { λ o r. r ≡ step_reply o };

    fn from(o: Option<Done>) -> Stepped {
        match o {
            Some(Done::Put { at, len }) => Stepped {
                code: 0,
                at,
                length: len,
            },
            Some(Done::Flush) => Stepped {
                code: 1,
                at: 0,
                length: 0,
            },
            None => Stepped {
                code: 2,
                at: 0,
                length: 0,
            },
        }
    }
}

// How many bytes were put. (One number of what was done, so no conversion.)
fn bytes_put(o: Option<Done>) -> u64
    ensures { result ≡ bytes_put o }
{
    match o {
        Some(Done::Put { len, .. }) => len,
        Some(Done::Flush) => 0,
        None => 0,
    }
}

// The checksum of bytes.
pub fn bbl_crc64(bytes: &[u8]) -> u64
    ensures { result ≡ crc_of bytes.now }
{
    crc64_fast::crc64(bytes)
}

// What stands on a medium.
pub fn bbl_open(medium: &[u8]) -> Reply
    ensures { result ≡ opened_reply (open_of medium.now) }
{
    match operations::start(medium) {
        Ok(handle) => done(0, 0, handle),
        Err(e) => Reply::from(e),
    }
}

// A plan to set up the medium.
pub fn bbl_plan_setup(medium: &[u8], plan: &mut [u64]) -> Reply
    ensures { (result ≡ set_up_reply (if_room plan.old (Err (Refused.ShortPlan plan_words)) (set_up_of (length medium.now))) result.steps) × ((b : List ℕ) → Planned plan.old b (if_room plan.old [] (set_up_plan (length medium.now))) result.steps plan.new) }
{
    match operations::plan_setup(medium.len() as u64, plan) {
        Ok(Plan { steps, answer }) => done(answer.capacity, steps, answer.handle),
        Err(e) => Reply::from(e),
    }
}

// A plan to append `length` bytes. The handle comes as its four numbers: handed over as a struct it would be copied in pieces of 16 bytes that
// were written in pieces of 8, for which a processor waits, and the next append with it.
pub fn bbl_plan_append_of(
    medium: &[u8],
    live: u64,
    head: u64,
    tail: u64,
    size: u64,
    length: u64,
    plan: &mut [u64],
) -> Reply
    ensures { (b : List ℕ) → lib.ListN.length b ≡ length → (result ≡ if_known (kept live head tail size) (appended_reply (if_room plan.old (Err (Refused.ShortPlan plan_words)) (append_of (handle_of (kept live head tail size)) b (lib.ListN.length medium.now))) result.steps) bad_handle) × Planned plan.old b (if_known (kept live head tail size) (if_room plan.old [] (plan_of (handle_of (kept live head tail size)) (append b) medium.now)) []) result.steps plan.new }
{
    let handle = Kept {
        live,
        head,
        tail,
        size,
    };
    let Ok(h) = Handle::try_from(handle) else {
        return Reply::from(Refused::BadHandle);
    };
    match Facts::of(medium, h).plan_append(length, plan) {
        Ok(Plan { steps, answer }) => done(answer.position, steps, answer.handle),
        Err(e) => Reply::from(e),
    }
}

// A plan to advance the head to a position.
pub fn bbl_plan_advance(medium: &[u8], handle: Kept, position: u64, plan: &mut [u64]) -> Reply
    ensures { (b : List ℕ) → (result ≡ if_known handle (advanced_reply (if_room plan.old (Err (Refused.ShortPlan plan_words)) (advance_of (handle_of handle) position (length medium.now))) result.steps) bad_handle) × Planned plan.old b (if_known handle (if_room plan.old [] (plan_of (handle_of handle) (advance position) medium.now)) []) result.steps plan.new }
{
    let Ok(h) = Handle::try_from(handle) else {
        return Reply::from(Refused::BadHandle);
    };
    match Facts::of(medium, h).plan_advance(position, plan) {
        Ok(Plan { steps, answer }) => done(0, steps, answer),
        Err(e) => Reply::from(e),
    }
}

// One step of a plan: at most one write.
pub fn bbl_step(medium: &mut [u8], plan: &[u64], bytes: &[u8], i: u64) -> Stepped
    ensures { (result ≡ step_reply (carried medium.old (step_in plan.now bytes.now i))) × (medium.new ≡ leaves medium.old (step_in plan.now bytes.now i)) }
{
    Stepped::from(carrier::step(medium, plan, bytes, i as usize))
}

// Puts the bytes from a to b at a place: what `bbl_step` does where the step's kind is 1. How many bytes were put: none if they are not
// there or do not fit.
pub fn bbl_put_bytes(medium: &mut [u8], at: u64, bytes: &[u8], a: u64, b: u64) -> u64
    ensures { (result ≡ bytes_put (carried medium.old (part_at at a b bytes.now))) × (medium.new ≡ leaves medium.old (part_at at a b bytes.now)) }
{
    bytes_put(carrier::put_part(medium, at, bytes, a, b))
}

// Puts a number: what `bbl_step` does where the step's kind is 2. How many bytes were put: eight, or none if they do not fit.
pub fn bbl_put_number(medium: &mut [u8], at: u64, x: u64) -> u64
    ensures { (result ≡ bytes_put (carried medium.old (bytes_at at (le x)))) × (medium.new ≡ leaves medium.old (bytes_at at (le x))) }
{
    bytes_put(carrier::put_numbers(medium, at, [x]))
}

// The bytes from a position on, as many as `out` has.
pub fn bbl_read(medium: &[u8], handle: Kept, position: u64, out: &mut [u8]) -> Reply
    ensures { (result ≡ if_known handle (got_reply (read_of (handle_of handle) position (length out.old) (length medium.now))) bad_handle) × (out.new ≡ if_known handle (read_into medium.now (handle_of handle) position out.old) out.old) }
{
    let Ok(h) = Handle::try_from(handle) else {
        return Reply::from(Refused::BadHandle);
    };
    match operations::read(medium, h, position, out) {
        Ok(()) => said(0, 0, 0),
        Err(e) => Reply::from(e),
    }
}

// Head, tail and capacity.
pub fn bbl_ask(medium: &[u8], handle: Kept) -> Reply
    ensures { result ≡ if_known handle (numbers_reply (ask_of (handle_of handle) (length medium.now))) bad_handle }
{
    let Ok(h) = Handle::try_from(handle) else {
        return Reply::from(Refused::BadHandle);
    };
    match operations::get_head_and_tail(h, medium.len() as u64) {
        Ok(
            Numbers {
                head,
                tail,
                capacity,
            },
        ) => Reply {
            handle: Kept {
                head,
                tail,
                ..Kept::default()
            },
            ..said(0, capacity, 0)
        },
        Err(e) => Reply::from(e),
    }
}

// What joins these contracts to the log: `Boundary` of specs/Replies.antt.
pub fn joined()
    ensures { Boundary }
{}
