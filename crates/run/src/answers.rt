// Whether a run is finished, how it goes on, and what is said of it.
ghost use Rattle.std.specs.Prelude.{◌≡◌};
ghost use Rattle.ticket.specs.Rules.{answer, plain};
ghost use Rattle.run.specs.Rules.{is_caught, is_finished, is_open, is_past, marked, products_done, standing, tested};
ghost use Rattle.run.specs.Laws.States.{Answerable, DoneReady, due, mark_of, proceeded};

use crate::{Run, RunAnswer};
use challenge::RowAnswer;
use ticket::{Answer, PlainSetting, Reason, Setting};

// How a run stands, or that a call refused.
#[derive(Clone, Copy)]
enum Standing {
    UnderWay,
    Caught,
    Complete,
    Refused,
}

impl From<Standing> for u32 {
    ghost from_gives = { λ standing mark. mark ≡ mark_of standing };

    fn from(standing: Standing) -> u32 {
        match standing {
            Standing::UnderWay => RunAnswer::UNDER_WAY,
            Standing::Caught => RunAnswer::CAUGHT,
            Standing::Complete => RunAnswer::COMPLETE,
            Standing::Refused => RunAnswer::REFUSED,
        }
    }
}

impl Run {
    // Whether the run is complete: the next vector or row is beyond its end.
    fn is_past(&self) -> bool
        ensures { result ≡ is_past self.now }
    {
        self.setting.vectors <= self.vector || self.setting.rows <= self.row
    }

    fn is_caught(&self) -> bool
        ensures { result ≡ is_caught self.now }
    {
        0 < self.caught
    }

    pub(crate) fn is_finished(&self) -> bool
        ensures { result ≡ is_finished self.now }
    {
        self.is_past() || self.is_caught()
    }

    // Whether a vector may be added.
    pub(crate) fn is_open(&self) -> bool
        ensures { result ≡ is_open self.now }
    {
        !self.is_finished() && self.setting.vectors < Setting::MOST_VECTORS
    }

    // The vector whose row is due. Where the run is finished none is: then it is one that is not there.
    pub(crate) fn due(self) -> u32
        ensures { result ≡ due self }
    {
        if self.is_finished() {
            return self.setting.vectors;
        }
        self.vector
    }

    // The state after a row, where one was due and the tests passed: with its u, and caught, or on to the next row, after the last to the first of
    // the next vector.
    pub(crate) fn proceeded(mut self, made: RowAnswer) -> Run
        ensures { result ≡ proceeded self made }
    {
        // a row's tests are an answer, as its rule has it
        if (made.tested.number == 0) & !self.is_finished() {
            let u = made.u;
            self.u = u;
            if made.balanced {
                self.row += 1;
                if self.setting.rows <= self.row {
                    self.row = 0;
                    self.vector += 1;
                }
            } else {
                self.caught = 1;
            }
        }
        self
    }

    // The answer of a state after tests: their refusal, or that of the state by itself. The state is put into it in one place, for speed.
    pub(crate) fn answered(self, read: Answer) -> RunAnswer
        requires { Answerable self read }
        ensures { result ≡ tested self read (standing self) }
    {
        let (standing, answer) = self.told(read);
        RunAnswer {
            run: self,
            mark: standing.into(),
            answer,
        }
    }

    // How a state stands after tests, and its answer's numbers. The tests' is an answer, as the rule of a row has it.
    fn told(&self, read: Answer) -> (Standing, Answer)
        requires { Answerable self.now read }
        ensures { marked self.now (mark_of result.0) result.1 ≡ tested self.now read (standing self.now) }
    {
        if read.number != 0 {
            return (Standing::Refused, read);
        }
        let setting = self.setting;
        if self.is_past() {
            let products = products_done(setting, setting.vectors, 0);
            let answer = Answer {
                products,
                ..Answer::PASSED
            };
            return (Standing::Complete, answer);
        }
        if self.is_caught() {
            let products = products_done(setting, self.vector, self.row + 1);
            return (
                Standing::Caught,
                self.here(Reason::Caught.number(), products),
            );
        }
        let products = products_done(setting, self.vector, self.row);
        (Standing::UnderWay, self.here(0, products))
    }

    // An answer about the next vector and row.
    fn here(&self, number: u32, products: u32) -> Answer
        ensures { result ≡ answer number self.now.vector self.now.row products }
    {
        Answer {
            number,
            place: self.vector,
            row: self.row,
            products,
        }
    }
}

// The products of whole vectors and of rows of the one after them, whose product with B counts once a row is done.
fn products_done(setting: PlainSetting, vectors: u32, rows: u32) -> u32
    requires { DoneReady setting vectors rows }
    ensures { result ≡ products_done (plain setting) vectors rows }
{
    let first = setting.inner * setting.columns;
    let row = setting.columns + setting.inner;
    let whole = vectors * (first + setting.rows * row);
    if rows == 0 {
        return whole;
    }
    whole + first + rows * row
}
