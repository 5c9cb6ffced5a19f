// The challenge check: Freivalds' check on ticket bytes. The vectors are the buyer's; their products with B are made here and
// never taken from the ticket. Its tests and one row of it can be had by themselves.
#![tactic(auto)]

ghost use Rattle.std.specs.Prelude.{◌≡◌};
ghost use Rattle.ticket.specs.Rules.{after, answered, refusal, setting_number};
ghost use Rattle.challenge.specs.Rules.{challenge_check, list_reading, row_check, testing};

use ticket::{Answer, Refusal, Setting};

mod lists;
mod products;
mod rows;
mod single;

pub use single::RowAnswer;

// What a check is of: a ticket, with the setting that it is for, and a challenge list.
#[derive(Clone, Copy)]
struct Case<'a> {
    setting: Setting,
    ticket: &'a [u8],
    list: &'a [u32],
}

// So many entries of A and claims, together, are few.
const FEW: u32 = 128;

// The most entries of A and claims, together.
const MOST: u32 = Setting::MOST_ROWS * (Setting::MOST_INNER + Setting::MOST_COLUMNS);

// The answer of the challenge check, for every setting, all bytes and every list. Where the entries of A and the claims are few, so is
// the room that they are decoded to, since clearing it takes time.
pub fn check(setting: Setting, ticket: &[u8], list: &[u32]) -> Answer
    ensures { result ≡ challenge_check setting ticket.now list.now }
{
    if let Err(refusal) = ticket::read(setting, ticket) {
        return Answer::from(refusal);
    }
    let case = Case {
        setting,
        ticket,
        list,
    };
    if setting.rows * (setting.inner + setting.columns) <= FEW {
        let mut room = [0; FEW as usize];
        return rows::check_decoded(case, &mut room);
    }
    let mut room = [0; MOST as usize];
    rows::check_decoded(case, &mut room)
}

// The ordinary tests, those of setting, ticket and list.
pub fn read(setting: Setting, ticket: &[u8], list: &[u32]) -> Result<(), Refusal>
    ensures { answered result ≡ testing setting ticket.now list.now }
{
    ticket::read(setting, ticket)?;
    lists::read_list(setting, list)
}

// The same without a ticket: the tests of setting and list.
pub fn read_list(setting: Setting, list: &[u32]) -> Result<(), Refusal>
    ensures { answered result ≡ after (refusal (setting_number setting) 0) (list_reading setting list.now) }
{
    setting.test(setting.half())?;
    lists::read_list(setting, list)
}

// The ordinary tests, and then one row for one vector, where both are there. At the vector's first row its product with B is made anew; at
// others it is taken to be u, each number modulo p.
pub fn check_one_row(
    setting: Setting,
    ticket: &[u8],
    list: &[u32],
    t: u32,
    row: u32,
    u: [u32; Setting::MOST_INNER as usize],
) -> RowAnswer
    ensures { result ≡ row_check setting ticket.now list.now t row u }
{
    if let Err(refusal) = read(setting, ticket, list) {
        return single::no_row(Answer::from(refusal), u);
    }
    if setting.vectors <= t || setting.rows <= row {
        return single::no_row(Answer::PASSED, u);
    }
    let case = Case {
        setting,
        ticket,
        list,
    };
    single::row_of(case, t, row, u)
}
