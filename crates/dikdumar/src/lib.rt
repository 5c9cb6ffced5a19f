// The calls for programs in C, C++ and Rust, under the names of include/dikdumar.h. Each has the contract of the call that it hands
// its arguments to, for a setting without a bias or with one.
#![tactic(auto)]

ghost use Rattle.std.specs.Prelude.{◌≡◌, [], length};
ghost use Rattle.ticket.specs.Rules.{numbered, plain, with_bias};
ghost use Rattle.challenge.specs.Rules.{challenge_check};
ghost use Rattle.full.specs.Rules.{full_check};
ghost use Rattle.writer.specs.Rules.{output_after, writing};
ghost use Rattle.quote.specs.Rules.{quote_of};
ghost use Rattle.run.specs.Rules.{adding, beginning, stepping};

use quote::Quote;
use run::{Run, RunAnswer};
use ticket::{Answer, BiasSetting, PlainSetting};

mod residues;

#[unsafe(no_mangle)]
pub extern "C" fn dikdumar_challenge_check(
    setting: PlainSetting,
    ticket: &[u8],
    list: &[u32],
) -> Answer
    ensures { result ≡ challenge_check (plain setting) ticket.now list.now }
{
    challenge::check(setting.into(), ticket, list)
}

#[unsafe(no_mangle)]
pub extern "C" fn dikdumar_full_check(setting: PlainSetting, ticket: &[u8]) -> Answer
    ensures { result ≡ full_check (plain setting) ticket.now }
{
    full_check(setting, None, ticket)
}

#[unsafe(no_mangle)]
pub extern "C" fn dikdumar_write_ticket(
    setting: PlainSetting,
    a: &[i32],
    b: &[i32],
    output: &mut [u8],
) -> Answer
    ensures { (result ≡ writing (plain setting) a.now b.now [] (length output.old))
        × (output.new ≡ output_after (plain setting) a.now b.now [] output.old) }
{
    write(setting, None, a, b, &[], output)
}

#[unsafe(no_mangle)]
pub extern "C" fn dikdumar_bias_challenge_check(
    setting: BiasSetting,
    ticket: &[u8],
    list: &[u32],
) -> Answer
    ensures { result ≡ challenge_check (with_bias setting.setting setting.bias) ticket.now list.now }
{
    challenge::check(setting.into(), ticket, list)
}

#[unsafe(no_mangle)]
pub extern "C" fn dikdumar_bias_full_check(setting: BiasSetting, ticket: &[u8]) -> Answer
    ensures { result ≡ full_check (with_bias setting.setting setting.bias) ticket.now }
{
    full_check(setting.setting, Some(setting.bias), ticket)
}

#[unsafe(no_mangle)]
pub extern "C" fn dikdumar_write_bias_ticket(
    setting: BiasSetting,
    a: &[i32],
    b: &[i32],
    bias: &[i32],
    output: &mut [u8],
) -> Answer
    ensures { (result ≡ writing (with_bias setting.setting setting.bias) a.now b.now bias.now
        (length output.old))
        × (output.new ≡ output_after (with_bias setting.setting setting.bias) a.now b.now bias.now
        output.old) }
{
    write(setting.setting, Some(setting.bias), a, b, bias, output)
}

#[unsafe(no_mangle)]
pub extern "C" fn dikdumar_quote_ticket(setting: PlainSetting) -> Quote
    ensures { result ≡ quote_of (plain setting) }
{
    quote::quote_of(setting.into())
}

#[unsafe(no_mangle)]
pub extern "C" fn dikdumar_quote_bias_ticket(setting: BiasSetting) -> Quote
    ensures { result ≡ quote_of (with_bias setting.setting setting.bias) }
{
    quote::quote_of(setting.into())
}

#[unsafe(no_mangle)]
pub extern "C" fn dikdumar_run_begin(
    setting: PlainSetting,
    ticket: &[u8],
    list: &[u32],
) -> RunAnswer
    ensures { result ≡ beginning setting ticket.now list.now }
{
    Run::begin(setting, ticket, list)
}

#[unsafe(no_mangle)]
pub extern "C" fn dikdumar_run_step(state: Run, ticket: &[u8]) -> RunAnswer
    ensures { result ≡ stepping state ticket.now }
{
    state.step(ticket)
}

#[unsafe(no_mangle)]
pub extern "C" fn dikdumar_run_add(state: Run, vector: &[u32]) -> RunAnswer
    ensures { result ≡ adding state vector.now }
{
    state.add(vector)
}

// The full check of both kinds. The setting is made here, of the numbers as they came, and the slice anew, so that the compiler copies
// neither on the way.
fn full_check(setting: PlainSetting, bias: Option<u32>, ticket: &[u8]) -> Answer
    ensures { result ≡ full_check (numbered setting bias) ticket.now }
{
    full::check(setting.numbered(bias), &ticket[0..])
}

// The writer of both kinds; the setting is made here likewise.
fn write(
    setting: PlainSetting,
    bound: Option<u32>,
    a: &[i32],
    b: &[i32],
    bias: &[i32],
    output: &mut [u8],
) -> Answer
    ensures { (result ≡ writing (numbered setting bound) a.now b.now bias.now (length output.old))
        × (output.new ≡ output_after (numbered setting bound) a.now b.now bias.now output.old) }
{
    writer::write(setting.numbered(bound), a, b, bias, output)
}
