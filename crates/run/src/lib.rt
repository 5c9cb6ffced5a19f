// A challenge check that proceeds one row at a step, its state handed in and handed back: vectors may be added while it is under way. Every state
// is taken, whoever made it.
#![tactic(auto)]

ghost use Rattle.std.specs.Prelude.{◌≡◌};
ghost use Rattle.run.specs.Rules.{adding, beginning, stepping};

use ticket::{Answer, PlainSetting, Setting};

mod answers;
mod lists;

// The most numbers of a list, and of the product of B and a vector.
const NUMBERS: usize = (Setting::MOST_VECTORS * Setting::MOST_COLUMNS) as usize;

const INNER: usize = Setting::MOST_INNER as usize;

// The state of a run.
#[repr(C)]
#[derive(Clone, Copy)]
pub struct Run {
    pub setting: PlainSetting,
    // the vectors one after another
    pub list: [u32; NUMBERS],
    // how many numbers of it are the list
    pub length: u32,
    // the next t and row
    pub vector: u32,
    pub row: u32,
    // the product of B and vector t, from that vector's first row on
    pub u: [u32; INNER],
    // above 0 where the run is caught in that vector and row; a number, since C hands it in
    pub caught: u32,
}

// What a call says of a run: the state that is handed back, a mark, which is a number since C reads it, and an answer.
#[repr(C)]
#[derive(Clone, Copy)]
pub struct RunAnswer {
    pub run: Run,
    pub mark: u32,
    pub answer: Answer,
}

impl RunAnswer {
    pub const UNDER_WAY: u32 = 0;

    pub const CAUGHT: u32 = 1;

    pub const COMPLETE: u32 = 2;

    pub const REFUSED: u32 = 3;
}

impl Run {
    // A run of a list's vectors: the ordinary tests, and no row yet.
    pub fn begin(setting: PlainSetting, ticket: &[u8], list: &[u32]) -> RunAnswer
        ensures { result ≡ beginning setting ticket.now list.now }
    {
        if let Err(refusal) = challenge::read(Setting::from(setting), ticket, list) {
            return lists::zeros().answered(Answer::from(refusal));
        }
        lists::begun(setting, list).answered(Answer::PASSED)
    }

    // The ordinary tests of the state and of the ticket lent, then one row, where the run is not finished.
    pub fn step(mut self, ticket: &[u8]) -> RunAnswer
        ensures { result ≡ stepping self ticket.now }
    {
        // copied out, since a list or u that is lent where it stands in the state takes longer
        let list = self.list;
        let before = self.u;
        let made = challenge::check_one_row(
            Setting::from(self.setting),
            ticket,
            lists::held(&list, self.length),
            self.due(),
            self.row,
            before,
        );
        self = self.proceeded(made);
        self.answered(made.tested)
    }

    // The tests of the state and of a vector, which then joins the end of the list, where the run is not finished and has room for it.
    pub fn add(mut self, vector: &[u32]) -> RunAnswer
        ensures { result ≡ adding self vector.now }
    {
        if let Err(refusal) = self.read_addition(vector) {
            return self.answered(Answer::from(refusal));
        }
        self = self.lengthened(vector);
        self.answered(Answer::PASSED)
    }
}
