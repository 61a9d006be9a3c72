// The reader's answer: an enum of numbers and offsets, with the handles and the key beside it as arrays; or why the frame is no request.
ghost use Rattle.std.specs.Prelude.{◌≡◌, ◌≤◌, length};
ghost use Rattle.codes.specs.declared.kind.UnknownKind.{UnknownKind};
ghost use Rattle.request_reader.specs.declared.asked.Why.TheVariants.{Unsupported};
ghost use Rattle.request_reader.specs.Asking.{blank, one_handle, two_handles, installation, list_query};

use codes::kind::UnknownKind;
use profile::Count;
use profile::sizes::{HANDLE_BYTES, KEY_BYTES};

// Why a frame is no request: the number 104, or the status 1, 2 or 3 (PROFILE 4.1 and 4.3).
#[derive(Clone, Copy, PartialEq, Eq)]
pub enum Why {
    NoFrame,
    Integrity,
    Parameter,
    Unsupported,
}

// A kind that is not 1 to 9 is refused with 3 (PROFILE 4.3).
impl From<UnknownKind> for Why {
    ghost from_gives = { λ _ w. w ≡ Unsupported };

    fn from(_kind: UnknownKind) -> Why {
        Why::Unsupported
    }
}

// A request by its kind. `at` is the offset of its hashes in the frame, which stand one after another. The payload of
// kind 2 follows its hashes, and `length` is its length. No byte of either is copied.
#[derive(Clone, Copy, PartialEq, Eq)]
pub enum Body {
    Setup {
        length: u16,
    },
    Install {
        hashes: usize,
        at: usize,
        length: usize,
    },
    Retrieve,
    Rek,
    Enable,
    Remove,
    Cancel,
    List {
        limit: u16,
        hashes: usize,
        at: usize,
    },
    Info,
}

// A request with its fields. An array that its kind lacks is all zero. The count of kinds 2 and 5 stands here and not in the body, so that it
// has one offset and the compiler needs no copy of the whole answer.
#[derive(Clone, Copy)]
pub struct Asked {
    pub body: Body,
    pub handle: [u8; HANDLE_BYTES],
    pub new: [u8; HANDLE_BYTES],
    pub key: [u8; KEY_BYTES],
    pub count: Count,
}

impl Asked {
    // A request whose kind has no array and sends no count.
    fn blank(body: Body) -> Asked
        ensures { result ≡ blank body }
    {
        Asked {
            body,
            handle: [0; HANDLE_BYTES],
            new: [0; HANDLE_BYTES],
            key: [0; KEY_BYTES],
            count: None,
        }
    }

    // The kinds with one handle: it stands first in the body, at offset 4 of the frame. Kind 5 has a count too.
    pub fn with_handle(f: &[u8], count: Count, body: Body) -> Asked
        requires { 14 ≤ length f.now }
        ensures { result ≡ one_handle f.now count body }
    {
        let handle = octets::arrays::array_at(f, 4);
        Asked {
            handle,
            count,
            ..Asked::blank(body)
        }
    }

    // Kinds 3 and 4: a handle and the new handle.
    pub fn with_two(f: &[u8], body: Body) -> Asked
        requires { 24 ≤ length f.now }
        ensures { result ≡ two_handles f.now body }
    {
        let handle = octets::arrays::array_at(f, 4);
        let new = octets::arrays::array_at(f, 14);
        Asked {
            handle,
            new,
            ..Asked::blank(body)
        }
    }

    // Kind 2: a handle, a key at offset 14, its count, the hash count, and from offset 33 the hashes and the payload.
    pub fn with_right(f: &[u8], count: Count, hashes: usize, payload: usize) -> Asked
        requires { 33 ≤ length f.now }
        ensures { result ≡ installation f.now count hashes payload }
    {
        let handle = octets::arrays::array_at(f, 4);
        let key = octets::arrays::array_at(f, 14);
        Asked {
            handle,
            key,
            count,
            ..Asked::blank(Body::Install {
                hashes,
                at: 33,
                length: payload,
            })
        }
    }

    // Kind 8: a limit, the hash count, and the hashes from offset 7.
    pub fn with_hashes(f: &[u8], hashes: usize) -> Asked
        requires { 6 ≤ length f.now }
        ensures { result ≡ list_query f.now hashes }
    {
        let limit = words::word_at(f, 4);
        Asked::blank(Body::List {
            limit,
            hashes,
            at: 7,
        })
    }
}
