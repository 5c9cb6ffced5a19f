// The quote: what the tickets of a layer need, before there are operands. It is made for whoever sells a layer: the smallest width that
// fits, the bytes of a ticket, and the products that the two checks make where they accept.
#![tactic(auto)]

ghost use Rattle.std.specs.Prelude.{◌≡◌};
ghost use Rattle.challenge.specs.Rules.{challenge_products};
ghost use Rattle.ticket.specs.Rules.{reason_number};
ghost use Rattle.ticket.specs.Laws.Limits.{Within};
ghost use Rattle.quote.specs.Rules.{figures, no_figures, quote_of};

use ticket::{Reason, Setting};

// A number of the published table (0: the figures are given), and the figures, which are 0 beside any other number.
#[repr(C)]
#[derive(Clone, Copy)]
pub struct Quote {
    pub number: u32,
    // the smallest that fits
    pub width: u32,
    // the bytes of a ticket
    pub length: u32,
    // the products of a full check that accepts, and of a challenge check
    pub full: u32,
    pub challenge: u32,
}

// The quote of every setting. Its width is not read: the widths are tried, from 1 on.
pub fn quote_of(setting: Setting) -> Quote
    ensures { result ≡ quote_of setting }
{
    for width in 1..=Setting::MOST_WIDTH {
        let tried = setting.with_width(width);
        match tried.test(tried.half()) {
            Ok(()) => return figures(tried),
            Err(Reason::Fit) => {}
            Err(reason) => return no_figures(reason),
        }
    }
    no_figures(Reason::NoWidth)
}

// The figures of a setting that passes its tests, with its own width.
fn figures(setting: Setting) -> Quote
    requires { Within setting }
    ensures { result ≡ figures setting setting.width }
{
    let length = setting.length() as u32;
    Quote {
        number: 0,
        width: setting.width,
        length,
        full: setting.products(),
        challenge: challenge_products(setting),
    }
}

// The products of a challenge check that accepts: for each vector those with B, and in each row those with the bias, the claims and A.
fn challenge_products(setting: Setting) -> u32
    requires { Within setting }
    ensures { result ≡ challenge_products setting }
{
    let row = setting.bias_columns() + setting.columns + setting.inner;
    setting.vectors * (setting.inner * setting.columns + setting.rows * row)
}

// What stands beside a refusal.
fn no_figures(reason: Reason) -> Quote
    ensures { result ≡ no_figures (reason_number reason) }
{
    Quote {
        number: reason.number(),
        width: 0,
        length: 0,
        full: 0,
        challenge: 0,
    }
}
