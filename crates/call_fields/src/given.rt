// What `device` and `peer` lines give for the next setup: the words of a device list and those of an id list.
ghost use Rattle.std.specs.Prelude.{◌≡◌, take};

use crate::numbers::numbers_and_bytes;
use model::{DEVICE_WORDS, ID_WORDS, MOST_ID_BYTES, MOST_NAME_BYTES, WORD_BYTES};

// The longest name of a device that a line can give, and the longest id. What is longer than a list holds is cut.
const LONGEST_NAME: usize = 300;

const LONGEST_ID: usize = 64;

// The words of the most devices and of the most ids that lines can give.
const MOST_DEVICE_WORDS: usize = 64 * DEVICE_WORDS;

const MOST_ID_WORDS: usize = 32 * ID_WORDS;

// Rows of the same count of words, and how many words they have.
#[derive(Clone, Copy)]
struct Rows<const N: usize> {
    words: [u64; N],
    used: usize,
}

impl<const N: usize> Rows<N> {
    fn new() -> Rows<N>
        ensures { result.used ≡ 0 }
    {
        Rows {
            words: [0u64; N],
            used: 0,
        }
    }

    fn words(&self) -> &[u64]
        ensures { result.now ≡ take self.now.used self.now.words }
    {
        &self.words[..self.used.min(N)]
    }

    fn push(&mut self, word: u64) -> Option<()> {
        *self.words.get_mut(self.used)? = word;
        self.used += 1;
        Some(())
    }

    // One row more, if there is room: its numbers, how many bytes a name has, and the name's words.
    fn add(&mut self, numbers: &[u64], count: usize, name: &[u8]) -> Option<()> {
        for number in numbers {
            self.push(*number)?;
        }
        self.push(count as u64)?;
        for word in name.chunks_exact(WORD_BYTES) {
            self.push(wire::get64(word, 0))?;
        }
        Some(())
    }
}

#[derive(Clone, Copy)]
pub struct Given {
    devices: Rows<MOST_DEVICE_WORDS>,
    ids: Rows<MOST_ID_WORDS>,
}

impl Given {
    pub fn new() -> Given
        ensures devices { result.devices.used ≡ 0 }
        ensures ids { result.ids.used ≡ 0 }
    {
        Given {
            devices: Rows::new(),
            ids: Rows::new(),
        }
    }

    pub fn device_words(&self) -> &[u64]
        ensures { result.now ≡ take self.now.devices.used self.now.devices.words }
    {
        self.devices.words()
    }

    pub fn id_words(&self) -> &[u64]
        ensures { result.now ≡ take self.now.ids.used self.now.ids.words }
    {
        self.ids.words()
    }

    // None is given.
    pub fn empty(&mut self)
        ensures devices { self.new.devices.used ≡ 0 }
        ensures ids { self.new.ids.used ≡ 0 }
    {
        self.devices.used = 0;
        self.ids.used = 0;
    }

    // Reads a device for the next setup: its id, configured, busy and the bytes of its name.
    pub fn read_device(&mut self, rest: &[u8]) -> Option<()> {
        let mut name = [0u8; LONGEST_NAME];
        let (numbers, count) = numbers_and_bytes::<3>(rest, &mut name)?;
        let held = &name[..MOST_NAME_BYTES];
        self.devices.add(&numbers, count, held)
    }

    // Reads an id for the next setup: its major, highest minor and bytes.
    pub fn read_id(&mut self, rest: &[u8]) -> Option<()> {
        let mut id = [0u8; LONGEST_ID];
        let (numbers, count) = numbers_and_bytes::<2>(rest, &mut id)?;
        let held = &id[..MOST_ID_BYTES];
        self.ids.add(&numbers, count, held)
    }
}
