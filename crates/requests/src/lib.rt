// The form of a memory request: bytes decoded into a request.
#![tactic(auto)]

ghost use Rattle.std.specs.Prelude.{◌≡◌, ◌+◌, ◌*◌, ◌<◌, ◌≤◌, length};
ghost use Rattle.model.specs.Memory.{request_number, addr_in, size_in, has_records, has_nothing, request_of, right_form};
ghost use Rattle.model.specs.Journal.{answered_event};
ghost use Rattle.model.specs.Layout.{memory_header_bytes, memory_service, most_records, pair_bytes};

use model::{
    DR_MEM_CONFIGURE, DR_MEM_QUERY, DR_MEM_UNCONF_CANCEL, DR_MEM_UNCONF_STATUS, DR_MEM_UNCONFIGURE,
    Event, MEMORY_HEADER_BYTES, MEMORY_SERVICE, MOST_RECORDS, PAIR_BYTES, Request,
};

// Who asks: the channel, the handle of the memory service there, and the request's number.
#[derive(Clone, Copy)]
pub struct Asked {
    pub channel: u64,
    pub handle: u64,
    pub request: u64,
}

impl Asked {
    // The event of an answer with this code, where nothing else is to be noted.
    pub fn answered(self, code: u64) -> Event
        ensures { result ≡ answered_event self.channel memory_service code self.request }
    {
        events::answered(self.channel, MEMORY_SERVICE as u64, code, self.request)
    }
}

// The bytes of a request with records, and how many it has.
#[derive(Clone, Copy)]
pub struct Records<'a> {
    pub bytes: &'a [u8],
    pub count: usize,
    pub ghost few: { count ≤ most_records },
    pub ghost whole: { length bytes.now ≡ memory_header_bytes + count * pair_bytes },
}

impl<'a> Records<'a> {
    // Those of a request that decodes to one of `count` records.
    pub fn new(bytes: &'a [u8], count: u64) -> Records<'a>
        requires { (count ≤ most_records) × (length bytes.now ≡ memory_header_bytes + count * pair_bytes) }
        ensures { (result.bytes.now ≡ bytes.now) × (result.count ≡ count) }
    {
        Records {
            bytes,
            count: count as usize,
        }
    }

    // The address and the size of record `i`.
    pub fn pair(&self, i: usize) -> (u64, u64)
        requires { i < self.now.count }
        ensures { (result.0 ≡ addr_in self.now.bytes.now i) × (result.1 ≡ size_in self.now.bytes.now i) }
    {
        let at = MEMORY_HEADER_BYTES + i * PAIR_BYTES;
        (wire::get64(self.bytes, at), wire::get64(self.bytes, at + 8))
    }
}

// "argument n from 1 to 16, exactly 16n bytes (addr, size) after the header"; a pair may stand twice
fn has_records(b: &[u8]) -> bool
    requires { memory_header_bytes ≤ length b.now }
    ensures { result ≡ has_records b.now }
{
    let n = wire::get32(b, 4) as usize;
    1 <= n && n <= MOST_RECORDS && b.len() == MEMORY_HEADER_BYTES + n * PAIR_BYTES
}

// "argument 0, nothing after"
fn has_nothing(b: &[u8]) -> bool
    requires { memory_header_bytes ≤ length b.now }
    ensures { result ≡ has_nothing b.now }
{
    wire::get32(b, 4) == 0 && b.len() == MEMORY_HEADER_BYTES
}

// The request that the bytes are; "Anything else: ERROR".
pub fn decode(b: &[u8]) -> Request
    ensures { result ≡ request_of b.now }
{
    if b.len() < MEMORY_HEADER_BYTES {
        return Request::Malformed;
    }
    let records = wire::get32(b, 4);
    match wire::get32(b, 0) as u32 {
        DR_MEM_CONFIGURE if has_records(b) => Request::Configure { records },
        DR_MEM_UNCONFIGURE if has_records(b) => Request::Unconfigure { records },
        DR_MEM_QUERY if has_records(b) => Request::Query { records },
        DR_MEM_UNCONF_STATUS if has_nothing(b) => Request::Status,
        DR_MEM_UNCONF_CANCEL if has_nothing(b) => Request::Cancel,
        _ => Request::Malformed,
    }
}

// Whatever is not answered ERROR for its form.
pub fn right_form(asked: Request) -> bool
    ensures { result ≡ right_form asked }
{
    !matches!(asked, Request::Malformed)
}

// "the same req_num (0 if under 16 bytes)"
pub fn number(b: &[u8]) -> u64
    ensures { result ≡ request_number b.now }
{
    if b.len() < MEMORY_HEADER_BYTES {
        0
    } else {
        wire::get64(b, 8)
    }
}
