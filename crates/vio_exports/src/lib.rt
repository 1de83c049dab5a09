// The handshake's calls under names for C and Rust to link: each is the handshake's own call, with its contract.
#![tactic(auto)]

ghost use Rattle.vio_model.specs.Step.{SetupPost, StartPost, ReceivePost};

use vio_model::{Answer, Ready};

#[unsafe(no_mangle)]
pub extern "C" fn arkelutz_vio_setup(class: u8, accepts: u8, list: &[u64]) -> Ready
    ensures { SetupPost class accepts list.now result }
{
    handshake::setup(class, accepts, list)
}

#[unsafe(no_mangle)]
pub extern "C" fn arkelutz_vio_start(end: &mut [u64], id: u32) -> Answer
    ensures { StartPost end.old id result end.new }
{
    handshake::start(end, id)
}

#[unsafe(no_mangle)]
pub extern "C" fn arkelutz_vio_receive(
    end: &mut [u64],
    next: u32,
    first: u64,
    second: u64,
) -> Answer
    ensures { ReceivePost end.old next first second result end.new }
{
    handshake::receive(end, next, first, second)
}
