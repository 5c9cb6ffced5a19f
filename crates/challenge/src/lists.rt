// The challenge list: tests 10, 11 and 21.
ghost use Rattle.std.specs.Prelude.{◌≡◌, ◌+◌, ◌*◌, ◌^◌, ◌≤◌, ◌<◌, eqb, length};
ghost use Rattle.std.specs.List.{list_all};
ghost use Rattle.algebra.specs.Laws.Fills.{line_at};
ghost use Rattle.ticket.specs.Rules.{answered, first_refusal};
ghost use Rattle.ticket.specs.Laws.All.{all};
ghost use Rattle.ticket.specs.Laws.Limits.{Counts};
ghost use Rattle.challenge.specs.Rules.{list_number, vector_number, list_reading};
ghost use Rattle.challenge.specs.Laws.Lists.{nonzero_residue};

use residue::Residue;
use ticket::{Reason, Refusal, Setting};

// The tests 10, 11 and 21. Numbers from 1 to p - 1 pass 11 and 21, and hardly any list has others, so these two are made one after the
// other only where there are.
pub(crate) fn read_list(setting: Setting, list: &[u32]) -> Result<(), Refusal>
    requires { Counts setting }
    ensures { answered result ≡ list_reading setting list.now }
{
    let count = setting.vectors * setting.columns;
    if list.len() != count as usize {
        return Err(Refusal::from(Reason::ListLength));
    }
    if nonzero_residues(list) {
        return Ok(());
    }
    read_numbers(list)?;
    read_vectors(setting, list)
}

// Whether every number is from 1 to p - 1.
fn nonzero_residues(list: &[u32]) -> bool
    ensures { result ≡ all (length list.now) (nonzero_residue list.now) }
{
    let most = Residue::modulus() - 1;
    let mut all = true;
    for number in list {
        all &= (1 <= *number) & (*number <= most);
    }
    all
}

// Test 11: refused at the first number that is not a least residue.
fn read_numbers(list: &[u32]) -> Result<(), Refusal>
    requires { length list.now < 2 ^ 32 }
    ensures { answered result ≡ first_refusal 0 (length list.now) (list_number list.now) }
{
    for (k, number) in list.iter().enumerate() {
        if Residue::modulus() <= *number {
            return Err(Refusal {
                reason: Reason::ListNumber,
                place: k as u32,
            });
        }
    }
    Ok(())
}

// Test 21: refused at the first vector of zeros.
fn read_vectors(setting: Setting, list: &[u32]) -> Result<(), Refusal>
    requires { length list.now ≡ setting.vectors * setting.columns }
    ensures { answered result ≡ first_refusal 0 setting.vectors (vector_number setting list.now) }
{
    let columns = setting.columns as usize;
    for t in 0..setting.vectors {
        if is_zero(line(list, columns, t)) {
            return Err(Refusal {
                reason: Reason::ZeroVector,
                place: t,
            });
        }
    }
    Ok(())
}

// Whether every number of a vector is 0.
fn is_zero(vector: &[u32]) -> bool
    ensures { result ≡ list_all (λ x. eqb x 0) vector.now }
{
    vector.iter().all(|number| *number == 0)
}

// Line number k of a list, which stands line after line, each of the given size.
pub(crate) fn line<T>(list: &[T], size: usize, k: u32) -> &[T]
    requires { k * size + size ≤ length list.now }
    ensures { result.now ≡ line_at list.now size k }
{
    let start = (k as usize) * size;
    &list[start..start + size]
}
