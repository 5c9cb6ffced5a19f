// The ticket writer: the one ticket whose claims are true, for two operands and a bias, which is empty where the setting has none.
#![tactic(auto)]

ghost use Rattle.std.specs.Prelude.{◌≡◌, ◌++◌, length, drop};
ghost use Rattle.ticket.specs.Rules.{half_range, ticket_length};
ghost use Rattle.ticket.specs.Laws.Limits.{clamped};
ghost use Rattle.writer.specs.Rules.{output_after, ticket_of, writing};
ghost use Rattle.writer.specs.Laws.Answers.{JobReady, answer_of};

use residue::Residue;
use ticket::{Answer, Reason, Refusal, Setting};

mod claims;
mod operands;
mod records;

// What a ticket is written for: the setting, half of its quotients' range, the operands and the bias.
#[derive(Clone, Copy)]
struct Job<'a> {
    setting: Setting,
    half: Residue,
    a: &'a [i32],
    b: &'a [i32],
    bias: &'a [i32],
}

// The answer of the writer, for every setting, all operands and every output. Where its number is 0, the output begins with the
// ticket; otherwise no byte of it is changed.
pub fn write(setting: Setting, a: &[i32], b: &[i32], bias: &[i32], output: &mut [u8]) -> Answer
    ensures { (result ≡ writing setting a.now b.now bias.now (length output.old))
        × (output.new ≡ output_after setting a.now b.now bias.now output.old) }
{
    let job = Job {
        setting,
        half: setting.half(),
        a,
        b,
        bias,
    };
    match job.try_write(output) {
        Ok(written) => written,
        Err(refusal) => Answer::from(refusal),
    }
}

impl Job<'_> {
    // The answer where the ticket is written; the refusal as an error.
    fn try_write(&self, output: &mut [u8]) -> Result<Answer, Refusal>
        requires { self.now.half.0 ≡ half_range (clamped self.now.setting) }
        ensures { (answer_of result ≡ writing self.now.setting self.now.a.now self.now.b.now self.now.bias.now (length output.old))
            × (output.new ≡ output_after self.now.setting self.now.a.now self.now.b.now self.now.bias.now output.old) }
    {
        self.setting.test(self.half)?;
        operands::read(self)?;
        let length = self.setting.length();
        if output.len() < length {
            return Err(Refusal::from(Reason::Output));
        }
        self.write_ticket(output);
        Ok(Answer {
            place: length as u32,
            products: self.setting.products(),
            ..Answer::PASSED
        })
    }

    // The ticket, at the beginning of the output. The claims are written first: the records of the operands are then made while the
    // processor still divides.
    fn write_ticket(&self, output: &mut [u8])
        requires { JobReady self.now.setting self.now.half.0 self.now.a.now self.now.b.now self.now.bias.now output.old }
        ensures { output.new ≡ ticket_of self.now.setting self.now.a.now self.now.b.now self.now.bias.now
            ++ drop (ticket_length self.now.setting) output.old }
    {
        claims::write_claims(self, output);
        let setting = self.setting;
        let height = setting.rows as u8;
        let inner = setting.inner as u8;
        let width = setting.columns as usize;
        let of_b = self.a.len();
        let of_bias = of_b + self.b.len();
        records::write_operand(output, 0, 1, height, usize::from(inner), self.a);
        records::write_operand(output, of_b, 2, inner, width, self.b);
        let width = setting.bias_columns() as usize;
        records::write_operand(output, of_bias, 5, height, width, self.bias);
    }
}
