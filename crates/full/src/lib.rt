// The full check: each exact sum is made again and compared with its claim.
#![tactic(auto)]

ghost use Rattle.std.specs.Prelude.{◌≡◌};
ghost use Rattle.full.specs.Rules.{full_check};

use ticket::{Answer, Setting};

mod claims;

// The answer of the full check, for every setting and all bytes.
pub fn check(setting: Setting, ticket: &[u8]) -> Answer
    ensures { result ≡ full_check setting ticket.now }
{
    match ticket::read(setting, ticket) {
        Ok(()) => claims::check_claims(setting, ticket),
        Err(refusal) => Answer::from(refusal),
    }
}
