// Refusals and stops, said: one line on standard output for a refusal; causes, places and advice on standard error.
use crate::speaking::Console;
use crate::system::EprintBytes;
use crate::{advice, causes, excerpt};
use machine::{Ran, Registers};
use text::{Fault, Refusal};

// Whether a refusal is of the whole text, so that its place, the first byte, says nothing.
fn of_the_whole(r: &Refusal) -> bool {
    match Fault::try_from(r.number) {
        Ok(Fault::SourceTooLong | Fault::NoStart | Fault::RoomTooShort) => true,
        Ok(Fault::Memory) => r.place == 0,
        _ => false,
    }
}

impl<R: EprintBytes + Print> Console<'_, R> {
    // The refusal of a source or of an assembly text.
    pub fn say_refusal(&self, source: &[u8], r: Refusal) {
        let number = r.number;
        let place = r.place;
        let _ = println!(self.rt; "{r}");
        let cause = causes::cause_of(source, number, place);
        if of_the_whole(&r) {
            self.tell(format_args!("{cause}.\n"));
        } else {
            let line = r.line;
            let column = excerpt::column_of(source, place);
            self.tell(format_args!("line {line}, column {column}: {cause}.\n"));
            self.show_line(source, place);
        }
        self.say(advice::advice_of(source, number, place));
    }
}

impl<R: EprintBytes> Console<'_, R> {
    // Which words changed last: those that the last instruction done stored.
    fn say_last_store(&self, r: &Registers) {
        let first = r.from;
        let second = u64::from(first) + 1;
        self.say("The last instruction done stored ");
        match (r.stored, r.words) {
            (false, _) => self.say("nothing.\n"),
            (true, 1) => self.say(format_args!("the word at {first}.\n")),
            (true, _) => self.say(format_args!("the words at {first} and {second}.\n")),
        }
    }

    // A stop other than 30: what happened, after how many instructions, with C where, and what was stored last.
    pub fn say_stop(&self, ran: &Ran) {
        let stop = ran.stop;
        let count = ran.count;
        let c = ran.registers.c;
        let cause = causes::stop_cause_of(stop);
        self.tell(format_args!(
            "stopped {stop} after {count} instructions with C at {c}: {cause}.\n"
        ));
        if count > 0 {
            self.say_last_store(&ran.registers);
        }
    }

    // The stop with which a run ends, if it did not finish, and what to do about it.
    pub fn say_end(&self, ran: &Ran) {
        self.say_stop(ran);
        self.say(advice::stop_advice_of(ran.stop));
    }
}
