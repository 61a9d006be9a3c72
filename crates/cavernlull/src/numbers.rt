// A reply's answer as eleven numbers, in the order in which C has them.
ghost use Rattle.std.specs.Prelude.{◌≡◌, ◌<◌};
ghost use Rattle.cavernlull.specs.Numbers.{numbers, Small, of_status, of_right, of_handles, of_counted};

use codes::kind::Kind;
use codes::refusal::SUCCESS;
use profile::Count;
use reply_reader::answer::Answer;

// Offsets and lengths of a reply have 16 bits: `as` is proved to lose nothing of them, and a TryFrom would bring an Err that cannot come.
// The rows are written out, each in the order that C reads: a struct of eleven names would only say the order once more.

// How many numbers tell a reply.
pub const REPLY_NUMBERS: usize = 11;

// A status, or a success without a body or with a key alone.
fn of_status(kind: u8, status: u8) -> [u16; REPLY_NUMBERS]
    ensures { result ≡ of_status kind status }
{
    [
        u16::from(kind),
        u16::from(status),
        0,
        0,
        0,
        0,
        0,
        0,
        0,
        0,
        0,
    ]
}

// A right, of kind 3. A count is its number, and last whether one is kept.
fn of_right(
    count: Count,
    hashes: usize,
    hashes_at: usize,
    at: usize,
    size: usize,
) -> [u16; REPLY_NUMBERS]
    requires { (hashes < 65536) × (hashes_at < 65536) × (at < 65536) × (size < 65536) }
    ensures { result ≡ of_right count hashes hashes_at at size }
{
    let number = counts::number_of(count);
    let kept = counts::kept_bit(count);
    [
        3,
        0,
        number,
        hashes as u16,
        hashes_at as u16,
        at as u16,
        size as u16,
        0,
        0,
        0,
        u16::from(kept),
    ]
}

// A list of handles, of kind 8.
fn of_handles(more: bool, handles: usize, at: usize) -> [u16; REPLY_NUMBERS]
    requires { (handles < 65536) × (at < 65536) }
    ensures { result ≡ of_handles more handles at }
{
    [
        8,
        0,
        0,
        0,
        0,
        0,
        0,
        u16::from(more),
        handles as u16,
        at as u16,
        0,
    ]
}

// A count and a payload, of kind 9.
fn of_counted(count: Count, at: usize, size: usize) -> [u16; REPLY_NUMBERS]
    requires { (at < 65536) × (size < 65536) }
    ensures { result ≡ of_counted count at size }
{
    let number = counts::number_of(count);
    let kept = counts::kept_bit(count);
    [
        9,
        0,
        number,
        0,
        0,
        at as u16,
        size as u16,
        0,
        0,
        0,
        u16::from(kept),
    ]
}

// The numbers of every answer. What a reply lacks is 0.
pub fn numbers_of(answer: Answer) -> [u16; REPLY_NUMBERS]
    requires { Small answer }
    ensures { result ≡ numbers answer }
{
    match answer {
        Answer::Failed { kind, refusal } => of_status(kind, refusal.status()),
        Answer::Nothing { kind } => of_status(kind.number(), SUCCESS),
        Answer::Right {
            count,
            hashes,
            hashes_at,
            payload_at,
            payload_length,
        } => of_right(count, hashes, hashes_at, payload_at, payload_length),
        Answer::Key => of_status(Kind::Rek.number(), SUCCESS),
        Answer::Handles {
            more,
            handles,
            handles_at,
        } => of_handles(more, handles, handles_at),
        Answer::Counted {
            count,
            payload_at,
            payload_length,
        } => of_counted(count, payload_at, payload_length),
    }
}
