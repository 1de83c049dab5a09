// Cases of devices, orders and ids.
use crate::cases::{changed, changed_two};
use crate::places::{DEVICE, DISK, ID, SP_LOG};
use lines::output::Output;
use model::{
    BUSY_PLACE, DELAY_WORD, DEVICE_CONFIGURED_PLACE, DEVICE_COUNT_WORD, DEVICE_WORDS,
    FIRST_PERMISSION_WORD, HIGHEST_DELAY, ID_BYTES_PLACE, ID_COUNT_WORD, ID_MINOR_PLACE, ID_PLACE,
    ID_WORDS, NAME_BYTES_PLACE, NAME_PLACE, ORDER_SHUTDOWN, ORDER_WORD,
};

// Marks and lengths of the first device.
pub(crate) fn devices(out: &mut Output) {
    changed(out, b"# 33 devices", DEVICE_COUNT_WORD, 33);
    changed(
        out,
        b"# a device neither configured nor not",
        DEVICE + DEVICE_CONFIGURED_PLACE,
        2,
    );
    changed(
        out,
        b"# a device neither busy nor not",
        DEVICE + BUSY_PLACE,
        2,
    );
    changed(out, b"# a name of no bytes", DEVICE + NAME_BYTES_PLACE, 0);
    changed(
        out,
        b"# a name of 257 bytes",
        DEVICE + NAME_BYTES_PLACE,
        257,
    );
}

// The first device's name, of five bytes with its zero.
pub(crate) fn names(out: &mut Output) {
    changed(
        out,
        b"# a name without its zero",
        DEVICE + NAME_PLACE,
        0x6469736b73000000,
    );
    changed(
        out,
        b"# a name with a second zero",
        DEVICE + NAME_PLACE,
        0x6400736b00000000,
    );
    changed(
        out,
        b"# a byte other than 0 after a name, in its last word",
        DEVICE + NAME_PLACE,
        DISK + 1,
    );
    changed(
        out,
        b"# an id and name twice",
        DEVICE + DEVICE_WORDS + NAME_PLACE,
        DISK,
    );
}

pub(crate) fn orders(out: &mut Output) {
    changed(
        out,
        b"# service 2 neither permitted nor denied",
        FIRST_PERMISSION_WORD,
        2,
    );
    changed(
        out,
        b"# service 3 neither permitted nor denied",
        FIRST_PERMISSION_WORD + 1,
        2,
    );
    changed(out, b"# an order that is none of the three", ORDER_WORD, 3);
    changed_two(
        out,
        b"# a shutdown's delay of 2^32",
        (ORDER_WORD, ORDER_SHUTDOWN),
        (DELAY_WORD, HIGHEST_DELAY + 1),
    );
}

// The first id, of seven bytes with its zero.
pub(crate) fn ids(out: &mut Output) {
    changed(out, b"# 17 ids", ID_COUNT_WORD, 17);
    changed(out, b"# a major above 65535", ID, 65536);
    changed(
        out,
        b"# a highest minor above 65535",
        ID + ID_MINOR_PLACE,
        65536,
    );
    changed(out, b"# an id of no bytes", ID + ID_BYTES_PLACE, 0);
    changed(out, b"# an id of 33 bytes", ID + ID_BYTES_PLACE, 33);
}

pub(crate) fn id_bytes(out: &mut Output) {
    changed(
        out,
        b"# an id without its zero",
        ID + ID_PLACE,
        0x73702d6c6f677300,
    );
    changed(
        out,
        b"# an id with a second zero",
        ID + ID_PLACE,
        0x73002d6c6f670000,
    );
    changed(
        out,
        b"# a byte other than 0 after an id, in its last word",
        ID + ID_PLACE,
        SP_LOG + 1,
    );
    changed(out, b"# an id twice", ID + ID_WORDS + ID_PLACE, SP_LOG);
}
