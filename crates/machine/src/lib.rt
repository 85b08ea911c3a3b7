// The MINICODE machine: one instruction, and a run of them by its budget.
//
// `specs/` has the machine of document 01 as definitions, a file for each of its parts; every function here is proved
// to do what its definition says, for any registers, memory, input and output. `run` starts an image; `resume` goes on
// from any registers, so a run that stopped for budget or for room can be carried on.
#![tactic(auto)]

mod stops;

ghost use Rattle.std.specs.Prelude.{◌≡◌};
ghost use Rattle.words.specs.Words.{add, neg, complement};
ghost use Rattle.machine.specs.Outcome.{read};
ghost use Rattle.machine.specs.State.{at, start_registers, storing_nothing, with_a, with_c, loaded, framed, having_stored};
ghost use Rattle.machine.specs.Fetch.{fetch};
ghost use Rattle.machine.specs.Forms.{fetched_at, fetched_from, decoded};
ghost use Rattle.machine.specs.Acts.{act_of, indirected, returned, combined, sought, switched, received, sent};
ghost use Rattle.machine.specs.Step.{result_of, stored, called, jumped, perform, function_of, execute, step};
ghost use Rattle.machine.specs.Run.{steps, resume, allowed, run};
ghost use Rattle.machine.specs.Answers.{out_of, fetched_by, as_fetched, Steps, Ends, CarriesOn};
ghost use Rattle.machine.specs.Numbers.{value_of};

pub use stops::{Stop, UnknownStop};

// The registers, the places reached in the input and the output, and what the last completed instruction stored: whether anything,
// the first address, and the number of words.
#[derive(Clone, Copy, Drop)]
pub struct Registers {
    pub a: u16,
    pub b: u16,
    pub c: u16,
    pub p: u16,
    pub g: u16,
    pub taken: usize,
    pub written: usize,
    pub stored: bool,
    pub from: u16,
    pub words: u16,
}

// An instruction's function, its operand and the registers with C past it.
#[derive(Clone, Copy)]
struct Fetched {
    function: u16,
    operand: u16,
    registers: Registers,
}

// What an instruction leaves in the registers: the run goes on, or is finished.
#[derive(Clone, Copy)]
pub enum Progress {
    Done(Registers),
    Finished(Registers),
}

// How a run ended: document 01's stop, the number of instructions done, and the registers.
#[derive(Drop)]
pub struct Ran {
    pub stop: u16,
    pub count: u64,
    pub registers: Registers,
}

#[tactic(auto, unfolding(crate::specs::Outcome::read))]
fn word_at(memory: &[u16], i: u16) -> Result<u16, Stop>
    ensures { out_of result ≡ read memory.now i }
{
    memory.get(i as usize).copied().ok_or(Stop::Address)
}

// What the acts 5 to 19 make of B and A.
#[tactic(auto, using(crate::proofs::Numbers::dyadic_act_is, crate::proofs::Numbers::dyadic_act_divides), unfolding(crate::specs::Numbers::value_of))]
fn dyadic_act(n: u16, b: u16, a: u16) -> Result<u16, Stop>
    ensures { out_of result ≡ value_of (act_of n) b a }
{
    match n {
        5 => Ok(words::product(b, a)),
        6 => words::quotient(b, a).ok_or(Stop::ZeroDivisor),
        7 => words::remainder(b, a).ok_or(Stop::ZeroDivisor),
        8 => Ok(words::sum(b, a)),
        9 => Ok(words::difference(b, a)),
        10 => Ok(words::equal(b, a)),
        11 => Ok(words::unequal(b, a)),
        12 => Ok(words::less(b, a)),
        13 => Ok(words::at_least(b, a)),
        14 => Ok(words::greater(b, a)),
        15 => Ok(words::at_most(b, a)),
        16 => Ok(words::shift_left(b, a)),
        17 => Ok(words::shift_right(b, a)),
        18 => Ok(words::conjunction(b, a)),
        19 => Ok(words::disjunction(b, a)),
        _ => Err(Stop::UnlistedAct),
    }
}

// The address beside the first number equal to a among n pairs from `from` on, or the default.
#[tactic(auto, using(crate::proofs::Laws::sought_none, crate::proofs::Laws::sought_hits))]
fn switch_address(memory: &[u16], a: u16, default: u16, n: u16, from: u16) -> Result<u16, Stop>
    ensures { out_of result ≡ sought memory.now a default n from }
{
    let mut i = from;
    for _ in 0..n {
        if word_at(memory, i)? == a {
            return word_at(memory, words::sum(i, 1));
        }
        i = words::sum(i, 2);
    }
    Ok(default)
}

impl Registers {
    // The registers at the start of a run.
    pub fn start(first: u16) -> Self
        ensures { result ≡ start_registers first }
    {
        Registers {
            a: 0,
            b: 0,
            c: 0,
            p: first,
            g: 16,
            taken: 0,
            written: 0,
            stored: false,
            from: 0,
            words: 0,
        }
    }

    fn storing_nothing(self) -> Self
        ensures { result ≡ storing_nothing self }
    {
        Registers {
            stored: false,
            from: 0,
            words: 0,
            ..self
        }
    }

    fn with_a(self, v: u16) -> Self
        ensures { result ≡ with_a v self }
    {
        Registers {
            a: v,
            ..self.storing_nothing()
        }
    }

    fn with_c(self, v: u16) -> Self
        ensures { result ≡ with_c v self }
    {
        Registers {
            c: v,
            ..self.storing_nothing()
        }
    }

    fn framed(self, p: u16, c: u16) -> Self
        ensures { result ≡ framed p c self }
    {
        Registers {
            c,
            p,
            ..self.storing_nothing()
        }
    }

    // The registers of an instruction that stored so many words from an address on.
    fn having_stored(self, from: u16, words: u16) -> Self
        ensures { result ≡ having_stored from words self }
    {
        Registers {
            stored: true,
            from,
            words,
            ..self
        }
    }

    fn fetched(self, function: u16, operand: u16, past: u16) -> Fetched
        ensures { result ≡ fetched_by self function operand past }
    {
        Fetched {
            function,
            operand,
            registers: self.with_c(past),
        }
    }

    // The function f with the word at i as its operand.
    #[tactic(auto, unfolding(crate::specs::Forms::fetched_at))]
    fn reading(self, memory: &[u16], f: u16, i: u16, past: u16) -> Result<Fetched, Stop>
        ensures { out_of result ≡ as_fetched self (fetched_at memory.now f i past) }
    {
        Ok(self.fetched(f, word_at(memory, i)?, past))
    }

    // The function of w with its operand, from the number n.
    #[tactic(auto, unfolding(crate::specs::Forms::fetched_at, crate::specs::Forms::fetched_from))]
    fn operand(self, memory: &[u16], w: u16, n: u16, past: u16) -> Result<Fetched, Stop>
        ensures { out_of result ≡ as_fetched self (fetched_from self memory.now w n past) }
    {
        let p = if w / 2048 % 2 == 1 { self.p } else { 0 };
        let g = if w / 1024 % 2 == 1 { self.g } else { 0 };
        let y = words::sum(words::sum(n, p), g);
        if w / 4096 % 2 == 1 {
            return self.reading(memory, w / 8192, y, past);
        }
        Ok(self.fetched(w / 8192, y, past))
    }

    // The instruction at C, whose word is w.
    #[tactic(auto, unfolding(crate::specs::Forms::decoded))]
    fn decode(self, memory: &[u16], w: u16) -> Result<Fetched, Stop>
        ensures { out_of result ≡ as_fetched self (decoded self memory.now w) }
    {
        if w / 512 % 2 == 1 {
            let n = word_at(memory, words::sum(self.c, 1))?;
            return self.operand(memory, w, n, words::sum(self.c, 2));
        }
        self.operand(memory, w, w % 512, words::sum(self.c, 1))
    }

    // The instruction at C. L, LIP, SP and X with a short address, the commonest, are told by one test of the word.
    #[tactic(auto, using(crate::proofs::Fetching::fetch_l, crate::proofs::Fetching::fetch_x, crate::proofs::Fetching::fetch_lip, crate::proofs::Fetching::fetch_any))]
    fn fetch(self, memory: &[u16]) -> Result<Fetched, Stop>
        ensures { out_of result ≡ as_fetched self (fetch self memory.now) }
    {
        let w = word_at(memory, self.c)?;
        let past = words::sum(self.c, 1);
        match w / 512 {
            0 => Ok(self.fetched(0, w % 512, past)),
            12 => self.reading(memory, 0, words::sum(w % 512, self.p), past),
            20 => Ok(self.fetched(1, words::sum(w % 512, self.p), past)),
            112 => Ok(self.fetched(7, w % 512, past)),
            _ => self.decode(memory, w),
        }
    }

    // L.
    fn load(self, x: u16) -> Self
        ensures { result ≡ loaded x self }
    {
        Registers {
            b: self.a,
            ..self.with_a(x)
        }
    }

    // A.
    fn add(self, x: u16) -> Self
        ensures { result ≡ with_a (add self.a x) self }
    {
        self.with_a(words::sum(self.a, x))
    }

    // J, T and F, where the test holds.
    #[tactic(auto, unfolding(crate::specs::Step::jumped))]
    fn jump(self, go: bool, x: u16) -> Self
        ensures { result ≡ jumped go x self }
    {
        if go { self.with_c(x) } else { self }
    }

    // X1.
    #[tactic(auto, unfolding(crate::specs::Acts::indirected))]
    fn indirect(self, memory: &[u16]) -> Result<Self, Stop>
        ensures { out_of result ≡ indirected self memory.now }
    {
        Ok(self.with_a(word_at(memory, self.a)?))
    }

    // X2.
    fn negate(self) -> Self
        ensures { result ≡ with_a (neg self.a) self }
    {
        self.with_a(words::negation(self.a))
    }

    // X3.
    fn invert(self) -> Self
        ensures { result ≡ with_a (complement self.a) self }
    {
        self.with_a(words::complement(self.a))
    }

    // X4.
    #[tactic(auto, unfolding(crate::specs::Acts::returned))]
    fn back(self, memory: &[u16]) -> Result<Self, Stop>
        ensures { out_of result ≡ returned self memory.now }
    {
        let c = word_at(memory, words::sum(self.p, 1))?;
        let p = word_at(memory, self.p)?;
        Ok(self.framed(p, c))
    }

    // X5 to X19; 34 for a number that is not listed.
    #[tactic(auto, unfolding(crate::specs::Acts::combined))]
    fn combine(self, n: u16) -> Result<Self, Stop>
        ensures { out_of result ≡ combined (value_of (act_of n)) self }
    {
        Ok(self.with_a(dyadic_act(n, self.b, self.a)?))
    }

    // X23.
    #[tactic(auto, unfolding(crate::specs::Acts::switched))]
    fn switch(self, memory: &[u16]) -> Result<Self, Stop>
        ensures { out_of result ≡ switched self memory.now }
    {
        let n = word_at(memory, self.c)?;
        let default = word_at(memory, words::sum(self.c, 1))?;
        let to = switch_address(memory, self.a, default, n, words::sum(self.c, 2))?;
        Ok(self.with_c(to))
    }

    // X27.
    #[tactic(auto, unfolding(crate::specs::Acts::received))]
    fn rdch(self, input: &[u8]) -> Self
        ensures { result ≡ received self input.now }
    {
        match input.get(self.taken) {
            Some(&byte) => Registers {
                taken: self.taken + 1,
                ..self.with_a(byte as u16)
            },
            None => self.with_a(65535),
        }
    }

    // X28. By a test of the length, as `store`.
    #[tactic(auto, unfolding(crate::specs::Acts::sent, crate::specs::Answers::left))]
    fn wrch(self, memory: &mut [u16], output: &mut [u8]) -> Result<Progress, Stop>
        ensures { Steps (at self memory.old output.old)
            (result_of (sent (at self memory.old output.old))) result memory.new output.new }
    {
        if self.written >= output.len() {
            return Err(Stop::OutputFull);
        }
        output[self.written] = (self.a % 256) as u8;
        Ok(Progress::Done(Registers {
            written: self.written + 1,
            ..self.storing_nothing()
        }))
    }

    // S. By a test of the length: `get_mut` was tried, and the proof didn't close.
    #[tactic(auto, unfolding(crate::specs::Step::stored, crate::specs::Outcome::write, crate::specs::Answers::left))]
    fn store(self, x: u16, memory: &mut [u16], output: &mut [u8]) -> Result<Progress, Stop>
        ensures { Steps (at self memory.old output.old)
            (result_of (stored x (at self memory.old output.old))) result memory.new output.new }
    {
        let i = x as usize;
        if i >= memory.len() {
            return Err(Stop::Address);
        }
        memory[i] = self.a;
        Ok(Progress::Done(self.having_stored(x, 1)))
    }

    // K. Both words' places are checked before either is stored: a stop keeps the memory.
    #[tactic(auto, unfolding(crate::specs::Step::called, crate::specs::Outcome::write, crate::specs::Answers::left))]
    fn call(self, x: u16, memory: &mut [u16], output: &mut [u8]) -> Result<Progress, Stop>
        ensures { Steps (at self memory.old output.old)
            (result_of (called x (at self memory.old output.old))) result memory.new output.new }
    {
        let frame = words::sum(self.p, x);
        let i = frame as usize;
        let j = words::sum(frame, 1) as usize;
        if i >= memory.len() || j >= memory.len() {
            return Err(Stop::Address);
        }
        memory[i] = self.p;
        memory[j] = self.c;
        Ok(Progress::Done(self.framed(frame, self.a).having_stored(frame, 2)))
    }

    // X.
    #[tactic(auto, using(crate::proofs::Numbers::act_at), unfolding(crate::specs::Step::perform, crate::specs::Step::keep, crate::specs::Answers::left))]
    fn perform(
        self,
        n: u16,
        memory: &mut [u16],
        input: &[u8],
        output: &mut [u8],
    ) -> Result<Progress, Stop>
        ensures { Steps (at self memory.old output.old)
            (perform input.now (act_of n) (at self memory.old output.old))
            result memory.new output.new }
    {
        match n {
            1 => Ok(Progress::Done(self.indirect(memory)?)),
            2 => Ok(Progress::Done(self.negate())),
            3 => Ok(Progress::Done(self.invert())),
            4 => Ok(Progress::Done(self.back(memory)?)),
            22 => Ok(Progress::Finished(self)),
            23 => Ok(Progress::Done(self.switch(memory)?)),
            27 => Ok(Progress::Done(self.rdch(input))),
            28 => self.wrch(memory, output),
            _ => Ok(Progress::Done(self.combine(n)?)),
        }
    }

    // The function f with its operand x, C being past the instruction.
    #[tactic(auto, using(crate::proofs::Numbers::function_at), unfolding(crate::specs::Step::execute, crate::specs::Step::jumped, crate::specs::Step::keep, crate::specs::Answers::left))]
    fn execute(
        self,
        f: u16,
        x: u16,
        memory: &mut [u16],
        input: &[u8],
        output: &mut [u8],
    ) -> Result<Progress, Stop>
        ensures { Steps (at self memory.old output.old)
            (execute input.now (function_of f) x (at self memory.old output.old))
            result memory.new output.new }
    {
        match f {
            0 => Ok(Progress::Done(self.load(x))),
            1 => self.store(x, memory, output),
            2 => Ok(Progress::Done(self.add(x))),
            3 => Ok(Progress::Done(self.jump(true, x))),
            4 => Ok(Progress::Done(self.jump(self.a != 0, x))),
            5 => Ok(Progress::Done(self.jump(self.a == 0, x))),
            6 => self.call(x, memory, output),
            _ => self.perform(x, memory, input, output),
        }
    }

    // One instruction.
    #[tactic(auto, using(crate::proofs::Runs::step_stop, crate::proofs::Runs::step_one))]
    pub fn step(self, memory: &mut [u16], input: &[u8], output: &mut [u8]) -> Result<Progress, Stop>
        ensures { Steps (at self memory.old output.old)
            (step input.now (at self memory.old output.old)) result memory.new output.new }
    {
        let f = self.fetch(memory)?;
        f.registers
            .execute(f.function, f.operand, memory, input, output)
    }
}

// Instructions until a stop; what is left of the budget falls by one each. No `for`: document 01 names the form ("Budget falls by one each
// instruction").
#[tactic(auto, using(crate::proofs::Runs::left_all, crate::proofs::Runs::left_out, crate::proofs::Runs::left_goes, crate::proofs::Runs::left_finish, crate::proofs::Runs::left_stop))]
fn run_steps(
    start: Registers,
    memory: &mut [u16],
    input: &[u8],
    output: &mut [u8],
    budget: u64,
) -> Ran
    ensures { Ends (steps input.now budget (at start memory.old output.old))
        result memory.new output.new }
{
    let mut r = start;
    let mut left = budget;
    while left > 0 {
        match r.step(memory, input, output) {
            Err(s) => {
                return Ran {
                    stop: s.number(),
                    count: budget - left,
                    registers: r,
                };
            }
            Ok(Progress::Finished(t)) => {
                return Ran {
                    stop: Stop::Finished.number(),
                    count: budget - left + 1,
                    registers: t,
                };
            }
            Ok(Progress::Done(t)) => {
                r = t;
                left -= 1;
            }
        }
    }
    Ran {
        stop: Stop::Budget.number(),
        count: budget,
        registers: r,
    }
}

// Goes on from any registers and places: an input place past the end reads -1, an output place past the room stops 35 at the next
// write. Memory of a length outside 512 to 32,768 is refused 24.
pub fn resume(
    registers: Registers,
    memory: &mut [u16],
    input: &[u8],
    output: &mut [u8],
    budget: u64,
) -> Ran
    ensures { Ends (resume input.now budget (at registers memory.old output.old))
        result memory.new output.new }
{
    if !(512..=32768).contains(&memory.len()) {
        return Ran {
            stop: Stop::MemoryLength.number(),
            count: 0,
            registers,
        };
    }
    run_steps(registers, memory, input, output, budget)
}

// A further budget, or what is left to the largest budget number after so many instructions.
fn allowed(done: u64, budget: u64) -> u64
    ensures { result ≡ allowed done budget }
{
    budget.min(u64::MAX - done)
}

// Carries a first part on with a further budget, in the buffers that it was lent: what one run with both budgets gives. A first part that
// stopped otherwise than for budget is the whole run.
pub fn carry_on(first: Ran, memory: &mut [u16], input: &[u8], output: &mut [u8], budget: u64) -> Ran
    ensures { CarriesOn input.now first memory.old output.old budget
        result memory.new output.new }
{
    if first.stop != Stop::Budget.number() {
        return first;
    }
    let more = allowed(first.count, budget);
    let rest = resume(first.registers, memory, input, output, more);
    Ran {
        count: first.count + rest.count,
        ..rest
    }
}

// Runs an image from its start, with its first stack word.
#[tactic(auto, using(crate::proofs::Runs::run_starts))]
pub fn run(memory: &mut [u16], first: u16, input: &[u8], output: &mut [u8], budget: u64) -> Ran
    ensures { Ends (run first memory.old input.now output.old budget)
        result memory.new output.new }
{
    resume(Registers::start(first), memory, input, output, budget)
}
