// The table of the services, where the data for each goes, and the DS messages that the agent sends.
#![tactic(auto)]

ghost use Rattle.std.specs.Prelude.{◌≡◌, ◌++◌, ◌+◌, ◌<◌, ◌≤◌, length};
ghost use Rattle.std.proofs.lemmas.List.Edits.{sets};
ghost use Rattle.wire.specs.BigEndian.{bytes_of};
ghost use Rattle.model.specs.Messages.{route, service_of, ds_message, init_ack, init_nack, reg_req, reg_ack, reg_nack, unreg, unreg_ack, unreg_nack, nack};
ghost use Rattle.model.specs.Layout.{service_count, output_bytes};
ghost use Rattle.services.specs.Table.{service_in, RowFits, TableRight, RowOf};
ghost use Rattle.services.specs.Output.{Wrote};

use model::{
    DEVICE_SERVICE, DS_INIT_ACK, DS_INIT_NACK, DS_NACK, DS_REG_ACK, DS_REG_NACK, DS_REG_REQ,
    DS_UNREG, DS_UNREG_ACK, DS_UNREG_NACK, MEMORY_SERVICE, PANIC_SERVICE, Route, SERVICE_COUNT,
    SHUTDOWN_SERVICE,
};

// A row of the table of services: the id with its zero, and the version.
#[derive(Clone, Copy)]
struct Row {
    id: &'static [u8],
    major: u16,
    minor: u16,
}

const SERVICES: [Row; SERVICE_COUNT] = [
    Row {
        id: b"dr-mem\0",
        major: 1,
        minor: 0,
    },
    Row {
        id: b"dr-vio\0",
        major: 1,
        minor: 0,
    },
    Row {
        id: b"domain-shutdown\0",
        major: 1,
        minor: 0,
    },
    Row {
        id: b"domain-panic\0",
        major: 1,
        minor: 0,
    },
];

// The row of a service, in a table that keeps the rule.
fn row_in(rows: [Row; SERVICE_COUNT], service: usize) -> Row
    requires { TableRight rows × (service < service_count) }
    ensures { RowOf result (service_of service) }
{
    rows[service]
}

// The row of a service. The table is read only here, so its rule is proved once.
fn row_of(service: usize) -> Row
    requires { service < service_count }
    ensures { RowOf result (service_of service) }
{
    row_in(SERVICES, service)
}

// The minor version of a service.
pub fn minor(service: usize) -> u64
    requires { service < service_count }
    ensures { result ≡ (service_of service).minor }
{
    u64::from(row_of(service).minor)
}

// Each of the four services is answered inside.
#[tactic(auto, unfolding(model::specs::Messages::route, basics::specs::Choice::pick))]
pub fn route(service: usize) -> Route
    ensures { result ≡ route service }
{
    match service {
        MEMORY_SERVICE => Route::Memory,
        DEVICE_SERVICE => Route::Devices,
        SHUTDOWN_SERVICE | PANIC_SERVICE => Route::Orders,
        _ => Route::Host,
    }
}

// "Header: type (4), payload_len (4)."
#[tactic(auto, unfolding(wire::specs::BigEndian::bytes_of))]
fn put_header(out: &mut [u8], message_type: u32, payload_len: u32)
    requires { 8 ≤ length out.old }
    ensures { out.new ≡ sets out.old 0 (bytes_of 4 message_type ++ bytes_of 4 payload_len) }
{
    wire::put32(out, 0, message_type);
    wire::put32(out, 4, payload_len);
}

// A message whose payload is one part of a version: INIT_ACK and INIT_NACK.
fn put_version(out: &mut [u8], message_type: u32, version: u16) -> usize
    requires { 10 ≤ length out.old }
    ensures { Wrote (ds_message message_type (bytes_of 2 version)) out.old result out.new }
{
    put_header(out, message_type, 2);
    wire::put16(out, 8, version);
    10
}

// INIT_ACK: minor_vers.
#[tactic(auto, unfolding(model::specs::Messages::init_ack))]
pub fn put_init_ack(out: &mut [u8], minor: u16) -> usize
    requires { output_bytes ≤ length out.old }
    ensures { Wrote (init_ack minor) out.old result out.new }
{
    put_version(out, DS_INIT_ACK, minor)
}

// INIT_NACK: major_vers.
#[tactic(auto, unfolding(model::specs::Messages::init_nack))]
pub fn put_init_nack(out: &mut [u8], major: u16) -> usize
    requires { output_bytes ≤ length out.old }
    ensures { Wrote (init_nack major) out.old result out.new }
{
    put_version(out, DS_INIT_NACK, major)
}

// Writes a row's id with its zero from `at` on, and no other byte.
fn put_id(out: &mut [u8], at: usize, row: Row)
    requires { RowFits row × (at + length row.id.now ≤ length out.old) }
    ensures { out.new ≡ sets out.old at (service_in row).id }
{
    // A loop: `copy_from_slice` would leave memmove to what links the library.
    let id = row.id;
    for i in 0..id.len() {
        out[at + i] = id[i];
    }
}

// major_vers, minor_vers and svc_id, as they stand in REG_REQ.
#[tactic(auto, unfolding(wire::specs::BigEndian::bytes_of))]
fn put_row(out: &mut [u8], row: Row)
    requires { RowFits row × (36 ≤ length out.old) }
    ensures { out.new ≡ sets out.old 16 (bytes_of 2 row.major ++ bytes_of 2 row.minor ++ (service_in row).id) }
{
    wire::put16(out, 16, row.major);
    wire::put16(out, 18, row.minor);
    put_id(out, 20, row);
}

// REG_REQ: svc_handle, then the row. "Offer sends REG_REQ with the id and its zero."
pub fn put_reg_req(out: &mut [u8], handle: u64, service: usize) -> usize
    requires { (service < service_count) × (output_bytes ≤ length out.old) }
    ensures { Wrote (reg_req handle (service_of service)) out.old result out.new }
{
    let row = row_of(service);
    let count = row.id.len();
    put_header(out, DS_REG_REQ, (12 + count) as u32);
    wire::put64(out, 8, handle);
    put_row(out, row);
    20 + count
}

// Header, svc_handle and result, as they stand in REG_NACK and NACK.
#[tactic(auto, unfolding(wire::specs::BigEndian::bytes_of))]
fn put_result(out: &mut [u8], message_type: u32, payload_len: u32, handle: u64, res: u64)
    requires { 24 ≤ length out.old }
    ensures { out.new ≡ sets out.old 0 (bytes_of 4 message_type ++ bytes_of 4 payload_len ++ bytes_of 8 handle ++ bytes_of 8 res) }
{
    put_header(out, message_type, payload_len);
    wire::put64(out, 8, handle);
    wire::put64(out, 16, res);
}

// REG_ACK: svc_handle, minor_vers.
pub fn put_reg_ack(out: &mut [u8], handle: u64, minor: u16) -> usize
    requires { output_bytes ≤ length out.old }
    ensures { Wrote (reg_ack handle minor) out.old result out.new }
{
    put_header(out, DS_REG_ACK, 10);
    wire::put64(out, 8, handle);
    wire::put16(out, 16, minor);
    18
}

// REG_NACK: svc_handle, result, major_vers.
pub fn put_reg_nack(out: &mut [u8], handle: u64, res: u64, major: u16) -> usize
    requires { output_bytes ≤ length out.old }
    ensures { Wrote (reg_nack handle res major) out.old result out.new }
{
    put_result(out, DS_REG_NACK, 18, handle, res);
    wire::put16(out, 24, major);
    26
}

// NACK: svc_handle, result.
pub fn put_nack(out: &mut [u8], handle: u64, res: u64) -> usize
    requires { output_bytes ≤ length out.old }
    ensures { Wrote (nack handle res) out.old result out.new }
{
    put_result(out, DS_NACK, 16, handle, res);
    24
}

// A message whose payload is the handle: UNREG, UNREG_ACK and UNREG_NACK.
fn put_handle(out: &mut [u8], message_type: u32, handle: u64) -> usize
    requires { 16 ≤ length out.old }
    ensures { Wrote (ds_message message_type (bytes_of 8 handle)) out.old result out.new }
{
    put_header(out, message_type, 8);
    wire::put64(out, 8, handle);
    16
}

// UNREG, which withdraw sends.
#[tactic(auto, unfolding(model::specs::Messages::unreg))]
pub fn put_unreg(out: &mut [u8], handle: u64) -> usize
    requires { output_bytes ≤ length out.old }
    ensures { Wrote (unreg handle) out.old result out.new }
{
    put_handle(out, DS_UNREG, handle)
}

// UNREG_ACK, the answer to an UNREG for a live handle.
#[tactic(auto, unfolding(model::specs::Messages::unreg_ack))]
pub fn put_unreg_ack(out: &mut [u8], handle: u64) -> usize
    requires { output_bytes ≤ length out.old }
    ensures { Wrote (unreg_ack handle) out.old result out.new }
{
    put_handle(out, DS_UNREG_ACK, handle)
}

// UNREG_NACK, the answer to any other UNREG.
#[tactic(auto, unfolding(model::specs::Messages::unreg_nack))]
pub fn put_unreg_nack(out: &mut [u8], handle: u64) -> usize
    requires { output_bytes ≤ length out.old }
    ensures { Wrote (unreg_nack handle) out.old result out.new }
{
    put_handle(out, DS_UNREG_NACK, handle)
}
