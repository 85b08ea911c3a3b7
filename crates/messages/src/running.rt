// The run of an image, its output written out as it comes, and carried on with a further budget where the user is to be asked.
ghost use Rattle.std.specs.Prelude.{◌<◌, IfSome};

use crate::speaking::Console;
use crate::system::EprintBytes;
use machine::{Ran, Registers, Stop};
use std::rt::Files;

// The room for a run's output, which is written out when it is full.
pub const OUTPUT_ROOM: usize = 65536;

// Writes the bytes of the output that a run filled.
fn flush(rt: &impl Print, output: &[u8], written: usize) -> bool {
    output
        .get(..written)
        .is_some_and(|bytes| rt.write_all(bytes).is_ok())
}

impl<R: EprintBytes + Files> Console<'_, R> {
    // Says a stop; how many instructions the run is to go on with, if it is.
    fn further(&self, ran: &Ran, asks: bool) -> Option<u64>
        ensures { IfSome result (λ n. 0 < n) }
    {
        if asks && ran.stop == Stop::Budget.number() {
            self.say_stop(ran);
            return self.further_budget();
        }
        self.say_end(ran);
        None
    }
}

impl<R: EprintBytes + Files + Print> Console<'_, R> {
    // Goes on with a run until it finishes or is to go on no more; whether it finished. At each stop the output is written out, and its room is
    // free again: a run stopped by 35 goes on with what is left of its budget, one stopped by 31, if the user is to be asked, with a further
    // budget. `first` is the first part, with that budget.
    pub fn carry_on(
        &self,
        first: Ran,
        memory: &mut [u16],
        input: &[u8],
        output: &mut [u8],
        budget: u64,
        asks: bool,
    ) -> bool {
        let mut ran = first;
        let mut allowed = budget;
        let mut before = 0;
        loop {
            let registers = ran.registers;
            let count = ran.count;
            if !flush(self.rt, output, registers.written) {
                let stop = Stop::OutputFull.number();
                self.say_end(&Ran { stop, ..ran });
                return false;
            }
            let more = match Stop::try_from(ran.stop) {
                Ok(Stop::Finished) => return true,
                Ok(Stop::OutputFull) if count <= before => {
                    self.say_end(&ran);
                    return false;
                }
                Ok(Stop::OutputFull) => {
                    before = count;
                    let Some(left) = allowed.checked_sub(count) else {
                        return false;
                    };
                    left
                }
                _ => {
                    let Some(further) = self.further(&ran, asks) else {
                        return false;
                    };
                    let Some(all) = allowed.checked_add(further) else {
                        self.tell("all budgets together are to be at most 18446744073709551615.\n");
                        return false;
                    };
                    allowed = all;
                    further
                }
            };
            let part = Ran {
                stop: Stop::Budget.number(),
                count,
                registers: Registers {
                    written: 0,
                    ..registers
                },
            };
            ran = machine::carry_on(part, memory, input, output, more);
        }
    }

    // Runs an image with its first stack word; whether it finished. Any stop but that is said.
    pub fn run_image(
        &self,
        first: u16,
        memory: &mut [u16],
        input: &[u8],
        budget: u64,
        asks: bool,
    ) -> bool {
        let mut output = [0; OUTPUT_ROOM];
        let ran = machine::run(memory, first, input, &mut output, budget);
        self.carry_on(ran, memory, input, &mut output, budget, asks)
    }
}
