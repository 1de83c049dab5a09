// The list of calls on standard input, answered on standard output. Before a setup, and after a refused one, the
// state is that of empty lists with no entry, which is not sound: each call is refused with 8.
use call_fields::given::Given;
use call_fields::kind;
use call_fields::kind::Kind;
use call_fields::numbers::exactly;
use front_model::{FRONT_BYTES, FRONT_WORDS, FrontBytes, FrontWords};
use lines::fields;
use lines::outcome::Outcome;
use lines::output::Output;
use model::{JOURNAL_WORDS, OUTPUT_BYTES, STATE_WORDS, State};

// The most words of journal and bytes of output that a list can have the calls lent.
const MOST_JOURNAL: usize = 200;

const MOST_OUTPUT: usize = 4096;

// What a list runs on: what is given for the next setup, the fronts, the agent's state, and the words of journal and
// bytes of output that the calls are lent.
#[derive(Drop)]
pub(crate) struct Session {
    pub(crate) given: Given,
    pub(crate) words: FrontWords,
    pub(crate) bytes: FrontBytes,
    pub(crate) state: State,
    journal: usize,
    output: usize,
}

// The one number of a line, from 0 to `most`.
pub(crate) fn up_to(most: usize, rest: &[u8]) -> Option<usize> {
    let [n] = exactly::<1>(rest)?;
    if (most as u64) < n {
        return None;
    }
    Some(n as usize)
}

impl Session {
    fn new() -> Session {
        Session {
            given: Given::new(),
            words: [0u64; FRONT_WORDS],
            bytes: [0u8; FRONT_BYTES],
            state: [0u64; STATE_WORDS],
            journal: JOURNAL_WORDS,
            output: OUTPUT_BYTES,
        }
    }

    // Makes the call that a line asks for, if its fields are good.
    fn call(
        &mut self,
        kind: Kind,
        rest: &[u8],
        journal: &mut [u64],
        reply: &mut [u8],
        out: &mut Output,
    ) -> Option<()> {
        match kind {
            Kind::Receive => self.receive(rest, journal, reply, out),
            Kind::Work => self.work(rest, journal, reply, out),
            Kind::Drain => self.drain(rest, journal, out),
            Kind::Offer => self.offer(rest, journal, reply, out),
            Kind::Withdraw => self.withdraw(rest, journal, reply, out),
            Kind::Close => self.close(rest, journal, reply, out),
            Kind::Permit => self.permit(rest, journal, reply, out),
            Kind::Take => self.take(rest, journal, reply, out),
            Kind::Piece => self.piece(rest, journal, reply, out),
            Kind::Reopen => self.reopen(rest, out),
            Kind::Show => self.show(rest, out),
            Kind::State => self.list_state(rest, out),
            Kind::Device => self.given.read_device(rest),
            Kind::Peer => self.given.read_id(rest),
            Kind::Setup => self.set_up(rest, journal, out),
            // no call
            Kind::Ignored | Kind::Output | Kind::Journal | Kind::Unknown => None,
        }
    }

    // Makes a line's call, lent as many words of journal and bytes of reply as the list has set.
    fn lend(
        &mut self,
        kind: Kind,
        rest: &[u8],
        journal: &mut [u64],
        out: &mut Output,
    ) -> Option<()> {
        let lent = self.journal.min(journal.len());
        let size = self.output.min(MOST_OUTPUT);
        let mut reply = [0u8; MOST_OUTPUT];
        self.call(kind, rest, &mut journal[..lent], &mut reply[..size], out)
    }

    fn set_output(&mut self, rest: &[u8]) -> Option<()> {
        self.output = up_to(MOST_OUTPUT, rest)?;
        Some(())
    }

    fn set_journal(&mut self, rest: &[u8]) -> Option<()> {
        self.journal = up_to(MOST_JOURNAL, rest)?;
        Some(())
    }

    // Answers a line, with the journal that may be lent; false where it is bad.
    fn answer(&mut self, line: &[u8], journal: &mut [u64], out: &mut Output) -> bool {
        let kind = kind::of_line(line);
        let end = fields::end_of(line, 0);
        let rest = &line[end..];
        let done = match kind {
            Kind::Ignored => Some(()),
            Kind::Output => self.set_output(rest),
            Kind::Journal => self.set_journal(rest),
            _ => self.lend(kind, rest, journal, out),
        };
        done.is_some()
    }
}

// Answers the list until the input ends, and returns how it ended.
pub fn run(rt: HostRuntime, program: &[u8]) -> Outcome {
    let mut session = Session::new();
    let mut journal = [0u64; MOST_JOURNAL];
    lines::list::run(
        rt,
        program,
        |line, out| session.answer(line, &mut journal, out),
    )
}
