// The calls that a line's fields ask for, made of the agent and answered; where the fields are bad, none is made.
// `rest` is the line from the end of its name on: each field begins with its space.
use crate::list::{Session, up_to};
use answer_lines::answers::RUN_WORDS;
use answer_lines::{answers, listing};
use call_fields::numbers::{exactly, numbers_and_bytes};
use front_model::FRONT_WORDS;
use lines::fields;
use lines::output::Output;

// A line of at most 32,768 bytes has no more than 16,384 words and no more than 16,384 bytes.
const MOST: usize = 16384;

impl Session {
    // The setup with the devices and ids given since the one before; it empties the fronts.
    pub(crate) fn set_up(
        &mut self,
        rest: &[u8],
        journal: &mut [u64],
        out: &mut Output,
    ) -> Option<()> {
        let mut list = [0u64; MOST];
        let count = fields::numbers_in(rest, &mut list)?.min(MOST);
        let started = agent::setup(
            &list[..count],
            self.given.device_words(),
            self.given.id_words(),
            journal,
        );
        self.state = started.state;
        self.given.empty();
        self.words = [0u64; FRONT_WORDS];
        answers::put_started(out, started.refusal);
        Some(())
    }

    pub(crate) fn receive(
        &mut self,
        rest: &[u8],
        journal: &mut [u64],
        reply: &mut [u8],
        out: &mut Output,
    ) -> Option<()> {
        let mut message = [0u8; MOST];
        let ([channel], count) = numbers_and_bytes::<1>(rest, &mut message)?;
        let end = count.min(MOST);
        let a = agent::receive(
            &mut self.state,
            channel as usize,
            &message[..end],
            journal,
            reply,
        );
        answers::put_answer(out, b"receive", a, reply);
        Some(())
    }

    pub(crate) fn show(&mut self, rest: &[u8], out: &mut Output) -> Option<()> {
        let mut message = [0u8; MOST];
        let ([channel], count) = numbers_and_bytes::<1>(rest, &mut message)?;
        let end = count.min(MOST);
        answers::put_shown(
            out,
            agent::show(&self.state, channel as usize, &message[..end]),
        );
        Some(())
    }

    pub(crate) fn offer(
        &mut self,
        rest: &[u8],
        journal: &mut [u64],
        reply: &mut [u8],
        out: &mut Output,
    ) -> Option<()> {
        let [channel, service] = exactly::<2>(rest)?;
        let a = agent::offer(
            &mut self.state,
            channel as usize,
            service as usize,
            journal,
            reply,
        );
        answers::put_answer(out, b"offer", a, reply);
        Some(())
    }

    pub(crate) fn withdraw(
        &mut self,
        rest: &[u8],
        journal: &mut [u64],
        reply: &mut [u8],
        out: &mut Output,
    ) -> Option<()> {
        let [channel, service] = exactly::<2>(rest)?;
        let a = agent::withdraw(
            &mut self.state,
            channel as usize,
            service as usize,
            journal,
            reply,
        );
        answers::put_answer(out, b"withdraw", a, reply);
        Some(())
    }

    pub(crate) fn close(
        &mut self,
        rest: &[u8],
        journal: &mut [u64],
        reply: &mut [u8],
        out: &mut Output,
    ) -> Option<()> {
        let [channel] = exactly::<1>(rest)?;
        let a = agent::close(&mut self.state, channel as usize, journal, reply);
        answers::put_answer(out, b"close", a, reply);
        Some(())
    }

    // A service, and 1 if requests to it are permitted from now on, else 0.
    pub(crate) fn permit(
        &mut self,
        rest: &[u8],
        journal: &mut [u64],
        reply: &mut [u8],
        out: &mut Output,
    ) -> Option<()> {
        let [service, permitted] = exactly::<2>(rest)?;
        if 1 < permitted {
            return None;
        }
        let a = agent::permit(
            &mut self.state,
            service as usize,
            permitted == 1,
            journal,
            reply,
        );
        answers::put_answer(out, b"permit", a, reply);
        Some(())
    }

    pub(crate) fn take(
        &mut self,
        rest: &[u8],
        journal: &mut [u64],
        reply: &mut [u8],
        out: &mut Output,
    ) -> Option<()> {
        if rest.len() != 0 {
            return None;
        }
        let a = agent::take(&mut self.state, journal, reply);
        answers::put_taken(out, a);
        Some(())
    }

    pub(crate) fn work(
        &mut self,
        rest: &[u8],
        journal: &mut [u64],
        reply: &mut [u8],
        out: &mut Output,
    ) -> Option<()> {
        let [budget] = exactly::<1>(rest)?;
        let a = agent::work(&mut self.state, budget, journal, reply);
        answers::put_worked(out, a, reply);
        Some(())
    }

    pub(crate) fn drain(&mut self, rest: &[u8], journal: &[u64], out: &mut Output) -> Option<()> {
        let words = up_to(RUN_WORDS, rest)?.min(RUN_WORDS);
        let mut run = [0u64; RUN_WORDS];
        let a = agent::drain(&mut self.state, journal, &mut run[..words]);
        answers::put_drained(out, a, &run);
        Some(())
    }

    pub(crate) fn piece(
        &mut self,
        rest: &[u8],
        journal: &mut [u64],
        reply: &mut [u8],
        out: &mut Output,
    ) -> Option<()> {
        let mut piece = [0u8; MOST];
        let ([channel], count) = numbers_and_bytes::<1>(rest, &mut piece)?;
        let end = count.min(MOST);
        let a = front::piece(
            &mut self.words,
            &mut self.bytes,
            &mut self.state,
            channel as usize,
            &piece[..end],
            journal,
            reply,
        );
        answers::put_piece(out, a, reply);
        Some(())
    }

    pub(crate) fn reopen(&mut self, rest: &[u8], out: &mut Output) -> Option<()> {
        let [channel] = exactly::<1>(rest)?;
        let refusal = front::reopen(&mut self.words, &self.bytes, &self.state, channel as usize);
        answers::put_reopened(out, refusal);
        Some(())
    }

    pub(crate) fn list_state(&self, rest: &[u8], out: &mut Output) -> Option<()> {
        if rest.len() != 0 {
            return None;
        }
        listing::put_state(out, &self.words, &self.state);
        Some(())
    }
}
