// Cases of channels, services and their handles.
use crate::cases::changed;
use crate::places::{HANDLE, MINOR, STAGE};
use lines::output::Output;
use model::{HIGHEST_MINOR, TOP_BIT};

pub(crate) fn services(out: &mut Output) {
    changed(out, b"# a channel neither closed nor ready", 0, 2);
    changed(out, b"# live services on a closed channel", 2, 0);
    changed(
        out,
        b"# a service neither idle, offered nor registered",
        STAGE,
        3,
    );
    changed(
        out,
        b"# a minor version above 65535",
        MINOR,
        HIGHEST_MINOR + 1,
    );
}

pub(crate) fn handles(out: &mut Output) {
    changed(out, b"# a live handle 0", HANDLE, TOP_BIT);
    changed(out, b"# a live handle without the top bit", HANDLE, 2);
    changed(
        out,
        b"# a live handle above the last number",
        HANDLE,
        TOP_BIT + 10,
    );
    changed(out, b"# two live handles the same", HANDLE, TOP_BIT + 3);
}
