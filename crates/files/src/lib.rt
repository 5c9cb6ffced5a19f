// What the program's three files stand for, the check of them, and the line that the program writes. Every call takes every value
// of its parameters; the rules that the contracts cite are in specs/Rules.antt.
#![tactic(auto)]

ghost use Rattle.std.specs.Prelude.{◌≡◌};
ghost use Rattle.files.specs.Rules.{file_check};

use bytes::{NUMBERS, list_of, setting_of};
use ticket::{Answer, Reason, Refusal, Setting};

mod bytes;
mod text;

pub use text::{LONGEST_LINE, line};

// The bytes of a setting file.
pub const SETTING_BYTES: usize = 20;

// The bytes of a number in a challenge file.
const NUMBER: usize = 4;

// The most bytes of a challenge file that a setting within its limits asks for.
pub const LONGEST_CHALLENGE: usize = NUMBER
    * (Setting::MOST_VECTORS * Setting::MOST_COLUMNS) as usize;

// The answer of the program, for the bytes of setting.rec, ticket.rec and challenge.rec.
pub fn check(setting: &[u8], ticket: &[u8], challenge: &[u8]) -> Answer
    ensures { result ≡ file_check setting.now ticket.now challenge.now }
{
    if setting.len() != SETTING_BYTES {
        return Refusal::from(Reason::Sizes).into();
    }
    let parameters = setting_of(setting);
    let mut room = [0; NUMBERS];
    match list_of(challenge, &mut room) {
        Some(list) => challenge::check(parameters, ticket, list),
        // an empty list is as wrong: no setting within its limits asks for one
        None => challenge::check(parameters, ticket, &[]),
    }
}
