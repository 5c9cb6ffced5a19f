// The lists of states: made, read and lengthened.
ghost use Rattle.std.specs.Prelude.{◌≡◌, cond, ◌+◌, ◌≤◌, leb, length, take};
ghost use Rattle.ticket.specs.Rules.{answered, setting_number};
ghost use Rattle.ticket.specs.Laws.Vectors.{vectored};
ghost use Rattle.challenge.specs.Rules.{list_reading};
ghost use Rattle.challenge.specs.Laws.Lengthened.{placed_after};
ghost use Rattle.run.specs.Rules.{addition_reading, begun, lengthened, most_numbers, overwritten, zeros};
ghost use Rattle.run.specs.Laws.Additions.{Additional};

use crate::{INNER, NUMBERS, Run};
use ticket::{PlainSetting, Reason, Refusal, Setting};

// The state of zeros.
pub(crate) fn zeros() -> Run
    ensures { result ≡ zeros }
{
    Run {
        setting: PlainSetting {
            rows: 0,
            inner: 0,
            columns: 0,
            vectors: 0,
            scale: 0,
            bound: 0,
            width: 0,
            rounding: 0,
        },
        list: [0; NUMBERS],
        length: 0,
        vector: 0,
        row: 0,
        u: [0; INNER],
        caught: 0,
    }
}

// The state of a run that begins with a list.
pub(crate) fn begun(setting: PlainSetting, list: &[u32]) -> Run
    requires { length list.now ≤ most_numbers }
    ensures { result ≡ begun setting list.now }
{
    let mut held = [0; NUMBERS];
    put(list, &mut held, 0);
    Run {
        setting,
        list: held,
        length: list.len() as u32,
        ..zeros()
    }
}

// So many numbers of a list; none where it has fewer.
pub(crate) fn held(list: &[u32], count: u32) -> &[u32]
    ensures { result.now ≡ take (cond (leb count (length list.now)) count 0) list.now }
{
    list.get(..count as usize).unwrap_or(&[])
}

impl Run {
    // The tests of an addition.
    pub(crate) fn read_addition(&self, vector: &[u32]) -> Result<(), Refusal>
        ensures { answered result ≡ addition_reading self.now vector.now }
    {
        let setting = Setting::from(self.setting);
        // copied out, since it takes longer where it stands, here and below
        let list = self.list;
        challenge::read_list(setting, held(&list, self.length))?;
        read_vector(setting, vector)?;
        if !self.is_open() {
            return Err(Refusal::from(Reason::Addition));
        }
        Ok(())
    }

    // The state with a vector at the end of its list.
    pub(crate) fn lengthened(mut self, vector: &[u32]) -> Run
        requires { Additional self vector.now }
        ensures { result ≡ lengthened self vector.now }
    {
        let start = self.length as usize;
        let mut list = self.list;
        put(vector, &mut list, start);
        self.list = list;
        self.length = (start + vector.len()) as u32;
        self.setting.vectors += 1;
        self
    }
}

// The tests of a vector after a list: those of a list of one vector, with places counted on.
fn read_vector(setting: Setting, vector: &[u32]) -> Result<(), Refusal>
    requires { setting_number setting ≡ 0 }
    ensures { answered result ≡ placed_after setting (list_reading (vectored setting 1) vector.now) }
{
    let Err(refusal) = challenge::read_list(setting.with_vectors(1), vector) else {
        return Ok(());
    };
    let before = match refusal.reason {
        Reason::ListNumber => setting.vectors * setting.columns,
        Reason::ZeroVector => setting.vectors,
        _ => 0,
    };
    Err(Refusal {
        place: before + refusal.place,
        ..refusal
    })
}

// Numbers to a list, from a place on.
fn put(numbers: &[u32], list: &mut [u32], start: usize)
    requires { start + length numbers.now ≤ length list.old }
    ensures { list.new ≡ overwritten list.old start numbers.now }
{
    list[start..start + numbers.len()].copy_from_slice(numbers);
}
