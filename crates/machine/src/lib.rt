// The machine by value: each request takes it and hands it back beside the answer.
#![tactic(auto)]

ghost use Rattle.std.specs.Prelude.{◌≡◌, ◌++◌, ◌*◌, ◌≤◌, length, take, drop};
ghost use Rattle.definitions.specs.declared.Answer.TheVariants.{Refused};
ghost use Rattle.definitions.specs.Bytes.{words_of, bytes_of};
ghost use Rattle.definitions.specs.Requests.{called_on};
ghost use Rattle.laws.specs.ImageIn.{image_in};
ghost use Rattle.tables.specs.Table.{arrays_in};
ghost use Rattle.requests.specs.Cells.{Fits};
ghost use Rattle.requests.specs.OwnCells.{clear_on, poke_on, peek_on};
ghost use Rattle.machine.specs.Turns.{held, Turned, given_back};
ghost use Rattle.machine.specs.Serving.{Serves, TurnedCall, TurnedPreview};

use definitions::Answer;
pub use evaluator::CELLS;
pub use machines::{Call, FEW, Machine, Turn};
use reasons::Reason;
use requests::cells::find_cell;
use runs::call_on;
use tables::Table;
use tables::programs::Program;

mod machines; // the machine, a turn of it, and what a call asks for
mod runs; // a call over an array of cells

impl<const N: usize> Machine<N> {
    // The machine whose cells are the first words of the lent bytes.
    pub fn lent(cells: &[u8], count: usize) -> Self
        requires { (count ≤ N) × (4 * count ≤ length cells.now) }
        ensures { (held result ≡ take count (words_of cells.now)) × (result.count ≡ count) }
    {
        let mut machine = Machine {
            cells: [0; N],
            count,
        };
        words::read_words(cells, &mut machine.cells, count);
        machine
    }

    // The machine's cells go back into the lent bytes; those behind them stay.
    pub fn give_back(self, cells: &mut [u8])
        requires { 4 * self.count ≤ length cells.old }
        ensures { cells.new ≡ bytes_of (held self.entry) ++ drop (4 * self.entry.count) cells.old }
    {
        words::write_words(&self.cells, cells, self.count);
    }

    // Load: every cell is 0.
    pub fn load(self) -> Turn<N>
        ensures { Turned self.entry result (clear_on self.entry.count) }
    {
        self.clear()
    }

    // Clear: every cell is 0.
    pub fn clear(self) -> Turn<N>
        ensures { Turned self.entry result (clear_on self.entry.count) }
    {
        let count = self.count;
        Turn {
            machine: Machine {
                cells: [0; N],
                count,
            },
            answer: Answer::Done(0, 0, 0),
        }
    }

    pub fn poke(mut self, table: &Table, a: u32, i: u32, v: u32) -> Turn<N>
        requires { Fits table.now self.count }
        ensures { Turned self.entry result (poke_on (arrays_in table.now) (held self.entry) a i v) }
    {
        let Some(at) = find_cell(table, a, i) else {
            return Turn {
                machine: self,
                answer: Self::missing(),
            };
        };
        self.cells[at] = v;
        Turn {
            machine: self,
            answer: Answer::Done(0, 0, 0),
        }
    }

    pub fn peek(self, table: &Table, a: u32, i: u32) -> Turn<N>
        requires { Fits table.now self.count }
        ensures { Turned self.entry result (peek_on (arrays_in table.now) (held self.entry) a i) }
    {
        let Some(at) = find_cell(table, a, i) else {
            return Turn {
                machine: self,
                answer: Self::missing(),
            };
        };
        Turn {
            machine: self,
            answer: Answer::Done(self.cells[at], 0, 0),
        }
    }

    // The machine has no such cell. (The answer alone: a machine that is handed through is copied.)
    fn missing() -> Answer
        ensures { result ≡ Refused 17 0 }
    {
        Answer::Refused(Reason::Missing.number(), 0)
    }

    // The call: a result hands back the machine that the run left, a stop or a refusal the one that came in.
    pub fn call(
        self,
        program: Program<'_>,
        ends: &[u16],
        call: Call<'_>,
        trace: &mut [u8],
    ) -> Turn<N>
        requires { Serves program.image.now program.table.now ends.now self.count × (N ≤ 1024) }
        ensures { TurnedCall self.entry result trace.old trace.new (called_on (image_in program.entry.image.now) (held self.entry) call.entry.procedure
            (words_of call.entry.arguments.now) call.entry.budget (length (words_of trace.old))) }
    {
        let mut cells = [0u32; CELLS];
        self.spread(&mut cells);
        let answer = call_on(&mut cells, program, ends, call, trace);
        match answer {
            Answer::Done(..) => Turn {
                machine: self.gathered(&cells),
                answer,
            },
            Answer::Stopped(..) | Answer::Refused(..) => Turn {
                machine: self, // the cells are as before the call
                answer,
            },
        }
    }

    // The preview: "making the call on a copy of the machine". The run works on the copy, and the machine that came in is handed back.
    pub fn preview(
        self,
        program: Program<'_>,
        ends: &[u16],
        call: Call<'_>,
        trace: &mut [u8],
    ) -> Turn<N>
        requires { Serves program.image.now program.table.now ends.now self.count × (N ≤ 1024) }
        ensures { TurnedPreview self.entry result trace.old trace.new (called_on (image_in program.entry.image.now) (held self.entry) call.entry.procedure
            (words_of call.entry.arguments.now) call.entry.budget (length (words_of trace.old))) }
    {
        let mut copy = [0u32; CELLS];
        self.spread(&mut copy);
        let answer = call_on(&mut copy, program, ends, call, trace);
        Turn {
            machine: self, // the copy is dropped
            answer,
        }
    }

    // The machine's cells go to the front of the array that a run works in. (It is lent: an array that is answered is copied.)
    fn spread(&self, cells: &mut [u32; CELLS])
        requires { N ≤ 1024 }
        ensures { take self.now.count cells.new ≡ held self.now }
    {
        cells[..N].copy_from_slice(&self.cells);
    }

    // The machine whose cells are at the front of the array that a run has worked in.
    fn gathered(&self, cells: &[u32; CELLS]) -> Self
        requires { N ≤ 1024 }
        ensures { (held result ≡ take self.now.count cells.now) × (result.count ≡ self.now.count) }
    {
        let mut first = [0u32; N];
        first.copy_from_slice(&cells[..N]);
        Machine {
            cells: first,
            count: self.count,
        }
    }
}

impl<const N: usize> Turn<N> {
    // What is done goes back into the lent bytes. After a refusal or a stop these hold the machine's cells already, and nothing is written.
    pub fn give_back(self, cells: &mut [u8]) -> Answer
        requires { 4 * self.machine.count ≤ length cells.old }
        ensures { (result ≡ self.entry.answer) × (cells.new ≡ given_back self.entry.answer self.entry.machine cells.old) }
    {
        match self.answer {
            Answer::Done(..) => self.machine.give_back(cells),
            Answer::Stopped(..) | Answer::Refused(..) => {}
        }
        self.answer
    }
}
