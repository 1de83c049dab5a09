// The boundaries of 01 and 02 that no list of calls reaches: on states made by hand the last entry number and each way
// in which a state is not sound, and what setup writes.
#![tactic(auto)]

mod block_cases;
mod cases;
mod device_cases;
mod each;
mod made;
mod number_cases;
mod peer_cases;
mod places;
mod removal_cases;
mod service_cases;
mod setup_cases;
mod unread_cases;

use lines::outcome::report_failure;
use lines::output::Output;
use made::sound_state;

fn as_it_is(out: &mut Output) {
    out.put_text(b"# the state as it is, sound");
    each::show(out, &sound_state());
}

fn services_and_blocks(out: &mut Output) {
    service_cases::services(out);
    service_cases::handles(out);
    unread_cases::unread_words(out);
    unread_cases::unread_devices(out);
    unread_cases::unread_ids(out);
    unread_cases::unread_peers(out);
    unread_cases::unread_mark(out);
    block_cases::places_of_blocks(out);
    block_cases::permanent_pages(out);
    block_cases::sixty_five_blocks(out);
}

fn numbers_and_removals(out: &mut Output) {
    number_cases::counts(out);
    number_cases::no_entry(out);
    removal_cases::removals(out);
    removal_cases::collected_pages(out);
    removal_cases::settled_record(out);
    removal_cases::last_record(out);
    removal_cases::past_records(out);
}

fn lists_and_peers(out: &mut Output) {
    device_cases::devices(out);
    device_cases::names(out);
    device_cases::orders(out);
    device_cases::ids(out);
    device_cases::id_bytes(out);
    peer_cases::peers(out);
    peer_cases::peer_handles(out);
    peer_cases::most_peers(out);
}

fn ends_and_setups(out: &mut Output) {
    number_cases::last_number(out);
    number_cases::last_number_but_one(out);
    number_cases::unsound_first(out);
    setup_cases::refused_setups(out);
    setup_cases::accepted_setup(out);
}

fn main(rt: HostRuntime) {
    let mut out = Output::new(rt.stdout());
    as_it_is(&mut out);
    services_and_blocks(&mut out);
    numbers_and_removals(&mut out);
    lists_and_peers(&mut out);
    ends_and_setups(&mut out);
    out.flush();
    if out.failed {
        report_failure(
            rt.stderr(),
            b"state_bounds",
            b"the output cannot be written",
        );
    }
}
